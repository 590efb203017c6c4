#![tactic(auto)]

ghost use Rattle.std.specs.Prelude.{◌≡◌, ℕ, ◌+◌, ◌-◌, ◌*◌, ◌/◌, ◌<◌, ◌≤◌, List, map, length, MatchResult};
ghost use Rattle.std.specs.List.{range_with_len};
ghost use Rattle.plan.specs.Plans.{nth, at, on, crossed, Routed};
ghost use Rattle.chain.specs.Listing.{chain, Fits, Unfit};
ghost use Rattle.chain.specs.Stages.{row_setting, Permutes, BringsFrom};
ghost use Rattle.chain.specs.Rows.{chain_lawful};

use plan::{Comparator, Plan, Setting, Shuffle};
use refusal::{Reason, Refusal};

// The plan in which every two wires meet once.
#[derive(Clone, Copy)]
pub struct Chain {
    width: usize,
    ghost fits: { Fits width },
}

impl Chain {
    // The chain over 2 to 64 wires.
    pub fn new(wires: usize) -> Result<Chain, Refusal>
        ensures { MatchResult result (λ c. (c.width ≡ wires) × (length (chain wires) ≡ (wires * (wires - 1)) / 2)) (Unfit wires) }
    {
        if wires < 2 || wires > 64 {
            return Err(Reason::UnfitWires.at(0));
        }
        Ok(Chain { width: wires })
    }
}

impl Plan for Chain {
    ghost width = { λ c. c.width };

    ghost listing = { λ c. chain c.width };

    ghost lawful = { λ p. chain_lawful p.width p.fits };

    fn wires(&self) -> usize {
        self.width
    }

    // How many pairs there are among the wires.
    fn count(&self) -> usize {
        let wires = self.wires();
        wires * (wires - 1) / 2
    }

    // It is found from the row in which it stands.
    fn comparator(&self, k: usize) -> Option<Comparator> {
        let mut left = k;
        for first in 0..self.width {
            let row = self.width - 1 - first;
            if left < row {
                return Some(between(first, first + 1 + left));
            }
            left -= row;
        }
        None
    }

    fn route(&self, permutation: &[usize], settings: &mut [Setting]) -> Result<(), Refusal> {
        if settings.len() != self.count() {
            return Err(Reason::UnfitLength.at(0));
        }
        let shuffle = Shuffle::read(permutation, self.wires())?;
        let entries = shuffle.entries();
        // 64 places, of which those that count are lent on: the width of an array cannot be computed
        let mut table = [0; 64];
        let wanted = &mut table[..entries.len()];
        wanted.copy_from_slice(entries);
        set_rows(wanted, settings);
        Ok(())
    }
}

fn between(first: usize, second: usize) -> Comparator
    ensures { result ≡ on first second }
{
    Comparator { first, second }
}

// The setting of the comparator with wire k, where the item wanted stands on wire `from`.
fn setting_with(k: usize, from: usize) -> Setting
    ensures { result ≡ row_setting from k }
{
    if k == from {
        Setting::Swapped
    } else {
        Setting::Straight
    }
}

// Sets the row of a wire for the item that stands on another wire after it, or on itself.
fn set_row(row: &mut [Setting], first: usize, from: usize)
    requires { first + length row.old < 64 }
    ensures { row.new ≡ map (row_setting from) (range_with_len (first + 1) (length row.old)) }
{
    for (i, setting) in row.iter_mut().enumerate() {
        *setting = setting_with(first + 1 + i, from);
    }
}

// Exchanges two numbers wherever they stand.
fn rename(entries: &mut [u8], one: u8, other: u8)
    ensures { (x : ℕ) → x < length entries.old → at entries.new x ≡ crossed (on one other) (at entries.old x) }
{
    for entry in entries.iter_mut() {
        *entry = if *entry == one {
            other
        } else if *entry == other {
            one
        } else {
            *entry
        };
    }
}

// Row by row: the item wanted on a wire is brought there, and the wanted entries then name the wires as they are.
fn set_rows(wanted: &mut [u8], settings: &mut [Setting])
    requires narrow { length wanted.old ≤ 64 }
    requires permutes { Permutes 0 (length wanted.old) (at wanted.old) }
    requires places { length settings.old ≡ length (chain (length wanted.old)) }
    ensures { BringsFrom 0 (length wanted.old) settings.new (at wanted.old) }
{
    let wires = wanted.len();
    // By their places: of parts that a loop splits off one by one nothing would be known after it.
    let mut start = 0;
    for j in 0..wires {
        let row = wires - 1 - j;
        let from = wanted[j];
        set_row(&mut settings[start..start + row], j, from as usize);
        rename(wanted, j as u8, from);
        start += row;
    }
}
