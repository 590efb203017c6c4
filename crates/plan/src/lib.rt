#![tactic(auto)]

ghost use Rattle.std.specs.Prelude.{◌≡◌, ℕ, ◌<◌, ◌≤◌, true, List, length, take, is_ok, Decides, MatchOption, MatchResult, slice_index_or};
ghost use Rattle.plan.specs.declared.Comparator.{Comparator};
ghost use Rattle.plan.specs.Plans.{setting_number, applied, run, nth, at, Lawful, Permutation, Inverse, Tabled, Misread, Routed, Ran, Brings, came_from};
ghost use Rattle.plan.specs.declared.Setting.TheVariants.{Straight};
ghost use Rattle.plan.specs.Sums.{word_taken, SumsAlongRoutes, Unfollowed, Followed};

use clearing::Zero;
use refusal::{Reason, Refusal};

// How a comparator is set: its two items keep their wires, or change places.
#[derive(Clone, Copy, PartialEq, Eq)]
pub enum Setting {
    Straight,
    Swapped,
}

// The number by which a setting is written.
impl From<Setting> for u8 {
    ghost from_gives = { λ setting number. number ≡ setting_number setting };

    fn from(setting: Setting) -> u8 {
        match setting {
            Setting::Straight => 0,
            Setting::Swapped => 1,
        }
    }
}

// A setting's place that was cleared says straight, which is written as 0.
impl Zero for Setting {
    ghost zero = { Straight };

    fn zero() -> Setting {
        Setting::Straight
    }
}

// A comparator on two wires, the lower one first.
#[derive(Clone, Copy, PartialEq, Eq)]
pub struct Comparator {
    pub first: usize,
    pub second: usize,
}

impl Comparator {
    // Works on the items.
    fn apply<T>(self, setting: Setting, items: &mut [T])
        requires first { self.first < length items.old }
        requires second { self.second < length items.old }
        ensures { items.new ≡ applied self setting items.old }
    {
        match setting {
            Setting::Straight => {}
            Setting::Swapped => items.swap(self.first, self.second),
        }
    }

    // The wire on which the item came that leaves on a wire.
    fn came_from(self, setting: Setting, wire: usize) -> usize
        ensures { result ≡ came_from self setting wire }
    {
        match setting {
            Setting::Straight => wire,
            Setting::Swapped if wire == self.first => self.second,
            Setting::Swapped if wire == self.second => self.first,
            Setting::Swapped => wire,
        }
    }

    // The word that the item takes which leaves on a wire; 0 where it did not pass.
    fn word_taken(self, words: (u64, u64), wire: usize) -> u64
        ensures { result ≡ word_taken self words wire }
    {
        if wire == self.first {
            words.0
        } else if wire == self.second {
            words.1
        } else {
            0
        }
    }
}

// A plan over 2 to 64 wires: 1 to 4,096 comparators with settings for every permutation.
pub trait Plan {
    ghost width: { Self → ℕ };

    ghost listing: { Self → List Comparator };

    // The number of wires.
    fn wires(&self) -> usize
        ensures { result ≡ width self.now };

    // The number of comparators.
    fn count(&self) -> usize
        ensures { result ≡ length (listing self.now) };

    // The k-th comparator, from 0; none past the last.
    fn comparator(&self, k: usize) -> Option<Comparator>
        ensures { result ≡ nth (listing self.now) k };

    // Writes settings that bring the permutation about into the lent places, one for each comparator.
    fn route(&self, permutation: &[usize], settings: &mut [Setting]) -> Result<(), Refusal>
        ensures { Routed (width self.now) (listing self.now) permutation.now settings.old settings.new result };

    ghost lawful: { (p : Self) → Lawful (width p) (listing p) };
}

// Whether there is a setting for each comparator and an item on each wire.
fn fits<P: Plan>(plan: &P, settings: usize, items: usize) -> bool
    ensures { Decides result ((settings ≡ length (P.Plan.listing plan.now)) × (items ≡ P.Plan.width plan.now)) }
{
    settings == plan.count() && items == plan.wires()
}

// Runs a plan on items of any kind, where they stand.
pub fn run_plan<P: Plan, T>(plan: &P, settings: &[Setting], items: &mut [T]) -> Result<(), Refusal>
    ensures ran { Ran (P.Plan.width plan.now) (P.Plan.listing plan.now) settings.now items.old items.new result }
    ensures moved { is_ok result ≡ true → (p : List ℕ) → Brings (P.Plan.width plan.now) (P.Plan.listing plan.now) settings.now p → (j : ℕ) (d : T) → j < P.Plan.width plan.now → slice_index_or items.new j d ≡ slice_index_or items.old (at p j) d }
{
    if !fits(plan, settings.len(), items.len()) {
        return Err(Reason::UnfitLength.at(0));
    }
    for (k, setting) in settings.iter().enumerate() {
        if let Some(comparator) = plan.comparator(k) {
            comparator.apply(*setting, items);
        }
    }
    Ok(())
}

// A permutation of at most 64 wires and its inverse, as tables whose first entries count. No Vec, since a route allocates
// nothing; and no ArrayVec, which grows at its end alone, where the inverse is written at the places that the entries name.
#[derive(Clone, Copy)]
pub struct Shuffle {
    wires: usize,
    entries: [u8; 64],
    inverse: [u8; 64],
    ghost narrow: { wires ≤ 64 },
    ghost inverses: { Inverse wires (at entries) (at inverse) },
}

impl Shuffle {
    // Reads a permutation of so many wires; refuses a list that is none.
    pub fn read(permutation: &[usize], wires: usize) -> Result<Shuffle, Refusal>
        ensures { MatchResult result (λ s. (s.wires ≡ wires) × Tabled wires permutation.now s.entries s.inverse) (Misread wires permutation.now) }
    {
        if permutation.len() != wires || wires > 64 {
            return Err(Reason::UnfitLength.at(0));
        }
        let Some(inverse) = inverted(permutation) else {
            return Err(Reason::NoPermutation.at(0));
        };
        let entries = copied(permutation);
        Ok(Shuffle {
            wires,
            entries,
            inverse,
        })
    }

    // For each wire, the wire on which the item starts that ends there.
    pub fn entries(&self) -> &[u8]
        ensures entries { result.now ≡ take self.now.wires self.now.entries }
        ensures length { length result.now ≡ self.now.wires }
    {
        &self.entries[..self.wires]
    }

    // For each wire, the wire on which the item ends that starts there.
    pub fn inverse(&self) -> &[u8]
        ensures inverse { result.now ≡ take self.now.wires self.now.inverse }
        ensures length { length result.now ≡ self.now.wires }
    {
        &self.inverse[..self.wires]
    }
}

// The entries in the first places of a table.
fn copied(entries: &[usize]) -> [u8; 64]
    requires narrow { length entries.now ≤ 64 }
    requires below { (x : ℕ) → x < length entries.now → at entries.now x < length entries.now }
    ensures { (x : ℕ) → x < length entries.now → at result x ≡ at entries.now x }
{
    let mut table = [0; 64];
    for (x, entry) in entries.iter().enumerate() {
        table[x] = *entry as u8;
    }
    table
}

// What stands in a table where no wire is named. It is no Option, since the full table is the inverse itself.
const NONE: u8 = 64;

// Whether a wire is one of so many, and is not named in the table yet.
fn is_new(table: &[u8; 64], wire: usize, wires: usize) -> bool
    requires { wires ≤ 64 }
    ensures { Decides result ((wire < wires) × (at table.now wire ≡ 64)) }
{
    wire < wires && table[wire] == NONE
}

// The inverse of a permutation; none where an entry is no wire or stands there twice.
fn inverted(permutation: &[usize]) -> Option<[u8; 64]>
    requires { length permutation.now ≤ 64 }
    ensures { MatchOption result (Permutation (length permutation.now) permutation.now → ⊥) (λ q. Permutation (length permutation.now) permutation.now × Inverse (length permutation.now) (at permutation.now) (at q)) }
{
    let mut inverse = [NONE; 64];
    for (x, entry) in permutation.iter().enumerate() {
        if !is_new(&inverse, *entry, permutation.len()) {
            return None;
        }
        inverse[*entry] = x as u8;
    }
    Some(inverse)
}

// Follows the item that ends on a wire back to its start: the item, and the sum of the words along its route. None
// where a list does not fit the plan or there is no such wire.
pub fn follow<'a, P: Plan, T>(
    plan: &P,
    settings: &[Setting],
    words: &[(u64, u64)],
    items: &'a [T],
    wire: usize,
) -> Option<(&'a T, u128)>
    ensures followed { MatchOption result (Unfollowed (P.Plan.width plan.now) (P.Plan.listing plan.now) settings.now words.now items.now wire) (λ t. Followed (P.Plan.listing plan.now) settings.now words.now items.now wire t.0.now t.1) }
    ensures sums { SumsAlongRoutes T }
{
    if !fits(plan, settings.len(), items.len())
        || words.len() != settings.len()
        || wire >= items.len()
    {
        return None;
    }
    let mut start = wire;
    let mut sum: u128 = 0;
    // By number, since the plan's comparators are asked for by number; a zip of the lists would be numbered too.
    for k in (0..settings.len()).rev() {
        if let Some(comparator) = plan.comparator(k) {
            sum += comparator.word_taken(words[k], start) as u128;
            start = comparator.came_from(settings[k], start);
        }
    }
    Some((&items[start], sum))
}

// Items that each comparator changes by its two words end as the law of sums says.
pub fn sums_hold<T>()
    ensures { SumsAlongRoutes T }
{}
