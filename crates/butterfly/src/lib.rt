#![tactic(auto)]

ghost use Rattle.std.specs.Prelude.{◌≡◌, ℕ, ◌+◌, ◌-◌, ◌*◌, ◌/◌, ◌^◌, ◌<◌, ◌≤◌, List, map, length, replicate, IfSome, MatchOption, MatchResult};
ghost use Rattle.std.specs.Option.{option_map};
ghost use Rattle.plan.specs.Plans.{nth, at, source, Inverse, Within, Routed};
ghost use Rattle.butterfly.specs.Halves.{side, other, sides, pair, in_half, network, setting_for, layer, member, half_of, Sends, IsInParts};
ghost use Rattle.butterfly.specs.Listing.{butterfly, Unfit};
ghost use Rattle.butterfly.specs.declared.Half.TheVariants.{Even};
ghost use Rattle.butterfly.specs.Colours.{Matching, Coloured, Contracted, partner, first_half, assigned};
ghost use Rattle.butterfly.specs.Placing.{butterfly_lawful};

use plan::{Comparator, Plan, Setting, Shuffle};
use refusal::{Reason, Refusal};

// The plan in which the halves of the wires are routed between two layers of pairs.
#[derive(Clone, Copy)]
pub struct Butterfly {
    levels: Levels,
    ghost some: { 1 ≤ levels.count },
}

impl Butterfly {
    // The butterfly over 2, 4, 8, 16, 32 or 64 wires.
    pub fn new(wires: usize) -> Result<Butterfly, Refusal>
        ensures { MatchResult result (λ b. (2 ^ b.levels.count ≡ wires) × (length (butterfly b.levels.count) + wires ≡ b.levels.count * wires + 1)) (Unfit wires) }
    {
        // A `find` is no plainer: its closure has to state which counts it takes.
        for count in 1..7 {
            let levels = Levels { count };
            if levels.wires() == wires {
                return Ok(Butterfly { levels });
            }
        }
        Err(Reason::UnfitWires.at(0))
    }
}

impl Plan for Butterfly {
    ghost width = { λ b. 2 ^ b.levels.count };

    ghost listing = { λ b. butterfly b.levels.count };

    ghost lawful = { λ p. butterfly_lawful p.levels.count p.some p.levels.few };

    fn wires(&self) -> usize {
        self.levels.wires()
    }

    fn count(&self) -> usize {
        self.levels.comparators()
    }

    fn comparator(&self, k: usize) -> Option<Comparator> {
        listed(self.levels, k)
    }

    fn route(&self, permutation: &[usize], settings: &mut [Setting]) -> Result<(), Refusal> {
        if settings.len() != self.count() {
            return Err(Reason::UnfitLength.at(0));
        }
        let shuffle = Shuffle::read(permutation, self.levels.wires())?;
        route_over(self.levels, shuffle.entries(), shuffle.inverse(), settings);
        Ok(())
    }
}

// How often the wires of a butterfly are halved until one is left.
#[derive(Clone, Copy)]
struct Levels {
    count: usize,
    ghost few: { count ≤ 6 },
}

impl Levels {
    // The parts; a single wire has none.
    fn parts(self) -> Option<Parts>
        ensures { MatchOption result (self.count ≡ 0) (λ p. IsInParts self.count p.half.count p.pairs p.inner) }
    {
        let count = self.count.checked_sub(1)?;
        let half = Levels { count };
        Some(Parts {
            half,
            pairs: half.wires(),
            inner: half.comparators(),
        })
    }

    // The number of wires.
    fn wires(self) -> usize
        ensures value { result ≡ 2 ^ self.count }
        ensures bound { (1 ≤ result) × (result ≤ 64) }
    {
        1 << self.count
    }

    // The number of comparators.
    fn comparators(self) -> usize
        ensures value { result ≡ length (network self.count) }
        ensures listed { result ≡ length (butterfly self.count) }
        ensures bound { result ≤ 384 }
    {
        let wires = self.wires();
        self.count * wires + 1 - wires
    }
}

// The parts of a butterfly: pairs, two halves with so many comparators each, and the pairs but the first again.
#[derive(Clone, Copy)]
struct Parts {
    half: Levels,
    pairs: usize,
    inner: usize,
    ghost wires: { pairs ≡ 2 ^ half.count },
    ghost comparators: { inner ≡ length (network half.count) },
    ghost some: { 1 ≤ pairs },
    ghost few: { (pairs ≤ 32) × (inner ≤ 384) },
}

// The half of a butterfly that an item goes through.
#[derive(Clone, Copy, PartialEq, Eq)]
enum Half {
    Even,
    Odd,
}

impl Half {
    fn other(self) -> Half
        ensures { result ≡ other self }
    {
        match self {
            Half::Even => Half::Odd,
            Half::Odd => Half::Even,
        }
    }

    // The wire on which a place of this half lies.
    fn wire(self, place: usize) -> usize
        requires { place < 64 }
        ensures { result ≡ 2 * place + side self }
    {
        match self {
            Half::Even => 2 * place,
            Half::Odd => 2 * place + 1,
        }
    }

    // The setting of a pair whose first item goes through this half. No From: what a half sets is a pair, by its first item.
    fn setting(self) -> Setting
        ensures { result ≡ setting_for (side self) }
    {
        match self {
            Half::Even => Setting::Straight,
            Half::Odd => Setting::Swapped,
        }
    }
}

fn pair_of(i: usize) -> Comparator
    requires { i < 64 }
    ensures { result ≡ pair i }
{
    let first = 2 * i;
    let second = 2 * i + 1;
    Comparator { first, second }
}

// The last pairs begin with the second one.
fn last_pair(i: usize) -> Comparator
    requires { i < 63 }
    ensures { result ≡ pair (i + 1) }
{
    pair_of(i + 1)
}

// A comparator of a half on the wires of the whole.
fn on_wires(inner: Option<Comparator>, half: Half) -> Option<Comparator>
    requires { IfSome inner (λ c. (c.first < 64) × (c.second < 64)) }
    ensures { result ≡ option_map (in_half (side half)) inner }
{
    inner.map(|c| Comparator {
        first: half.wire(c.first),
        second: half.wire(c.second),
    })
}

// The k-th comparator: of the first pairs, of the even half, of the odd half, or of the last pairs.
fn listed(levels: Levels, k: usize) -> Option<Comparator>
    ensures { result ≡ nth (network levels.count) k }
{
    let parts = levels.parts()?;
    let pairs = parts.pairs;
    let inner = parts.inner;
    if k < pairs {
        return Some(pair_of(k));
    }
    if k < pairs + inner {
        return on_wires(listed(parts.half, k - pairs), Half::Even);
    }
    if k < pairs + 2 * inner {
        return on_wires(listed(parts.half, k - pairs - inner), Half::Odd);
    }
    let i = k - pairs - 2 * inner;
    if i < pairs - 1 {
        Some(last_pair(i))
    } else {
        None
    }
}

// A permutation of pairs of wires and its inverse, in lent tables. The tables that are made of it have 64 places, of which the
// callers lend on just those that count: a route allocates nothing, and an ArrayVec grows at its end alone, where these are
// written out of order. `count` is half their length; it stands here since every bound below speaks of pairs, and not of ends.
#[derive(Clone, Copy)]
struct Pairs<'a> {
    count: usize,
    entries: &'a [u8],
    inverse: &'a [u8],
    ghost few: { count ≤ 32 },
    ghost entries_long: { length entries.now ≡ 2 * count },
    ghost inverse_long: { length inverse.now ≡ 2 * count },
    ghost inverses: { Inverse (2 * count) (at entries.now) (at inverse.now) },
}

impl Pairs<'_> {
    // For each end, the end of the item that starts beside the one which ends there.
    fn partners(self) -> [u8; 64]
        ensures { (x : ℕ) → x < 2 * self.entry.count → at result x ≡ partner (at self.entry.entries.now) (at self.entry.inverse.now) x }
    {
        let mut table = [0; 64];
        for (x, entry) in self.entries.iter().enumerate() {
            let start = *entry as usize;
            // the other wire of its pair
            let beside = start + 1 - 2 * (start % 2);
            table[x] = self.inverse[beside];
        }
        table
    }

    // The half of the item that ends on each wire.
    fn halves_by_end(self) -> [Half; 64]
        ensures { Coloured self.entry.count (partner (at self.entry.entries.now) (at self.entry.inverse.now)) (sides result) }
    {
        let mut partners = self.partners();
        let table = &mut partners[..2 * self.count];
        contract(table);
        assign(table)
    }

    // The half of the item that starts on each wire.
    fn halves_by_start(self, ends: &[Half]) -> [Half; 64]
        requires { length ends.now ≡ 2 * self.count }
        ensures { (y : ℕ) → y < 2 * self.entry.count → sides result y ≡ sides ends.now (at self.entry.inverse.now y) }
    {
        let mut starts = [Half::Even; 64];
        for (y, end) in self.inverse.iter().enumerate() {
            starts[y] = ends[*end as usize];
        }
        starts
    }
}

// Takes the pairs out, last first, and makes the partners of the two ends of each partners of each other. By numbers and not
// over pairs of the table: what is written may lie in any pair.
fn contract(table: &mut [u8])
    requires { Matching (length table.old / 2) (at table.old) }
    ensures { Contracted 0 (length table.old / 2) table.new (at table.old) }
{
    for j in (0..table.len() / 2).rev() {
        let a = table[2 * j];
        if (a as usize) < 2 * j {
            let b = table[2 * j + 1];
            table[a as usize] = b;
            table[b as usize] = a;
        }
    }
}

// The half of the first end of a pair, once the pairs before it have theirs.
fn first_half(table: &[u8], j: usize, halves: &[Half]) -> Half
    requires table { 2 * j < length table.now }
    requires halves { 2 * j ≤ length halves.now }
    ensures { result ≡ first_half table.now j halves.now }
{
    let a = table[2 * j] as usize;
    if a < 2 * j {
        halves[a].other()
    } else {
        Half::Even
    }
}

// Gives each pair its halves, first pair first. By numbers and not over pairs of places: a half is that of an end of any
// earlier pair.
fn assign(table: &[u8]) -> [Half; 64]
    requires { length table.now ≤ 64 }
    ensures { result ≡ assigned table.now 0 (length table.now / 2) (replicate 64 Even) }
{
    let mut halves = [Half::Even; 64];
    for j in 0..table.len() / 2 {
        let half = first_half(table, j, &halves);
        halves[2 * j] = half;
        halves[2 * j + 1] = half.other();
    }
    halves
}

// The wire of a pair that is in a half.
fn member_of(halves: &[Half], half: Half, i: usize) -> usize
    requires { 2 * i < length halves.now }
    ensures { result ≡ member (sides halves.now) (side half) i }
{
    if halves[2 * i] == half {
        2 * i
    } else {
        2 * i + 1
    }
}

// Writes what the entries are on a half into a lent table, which spares a copy.
fn halve(entries: &[u8], halves: &[Half], half: Half, table: &mut [u8])
    requires entries { length entries.now ≡ 2 * length table.old }
    requires halves { length halves.now ≡ 2 * length table.old }
    ensures long { length entries.now ≡ 2 * length table.new }
    ensures half { (i : ℕ) → i < length table.new → at table.new i ≡ half_of (at entries.now) (sides halves.now) (side half) i }
{
    for (i, place) in table.iter_mut().enumerate() {
        *place = entries[member_of(halves, half, i)] / 2;
    }
}

// Sets a layer of pairs, from pair `first` on.
fn set_layer(settings: &mut [Setting], halves: &[Half], first: usize)
    requires { 2 * (first + length settings.old) ≤ length halves.now }
    ensures { settings.new ≡ layer (sides halves.now) first (length settings.old) }
{
    for (i, setting) in settings.iter_mut().enumerate() {
        *setting = halves[2 * (first + i)].setting();
    }
}

// Routes on half the wires, twice, between the first and the last pairs. `there` and `back` have 64 places, as the width of
// an array cannot be computed.
fn route_over(levels: Levels, entries: &[u8], inverse: &[u8], settings: &mut [Setting])
    requires entries { length entries.now ≡ 2 ^ levels.count }
    requires inverse { length inverse.now ≡ 2 ^ levels.count }
    requires inverses { Inverse (2 ^ levels.count) (at entries.now) (at inverse.now) }
    requires places { length settings.old ≡ length (network levels.count) }
    ensures { Sends levels.count settings.new (at entries.now) }
{
    let Some(parts) = levels.parts() else {
        return;
    };
    let count = parts.pairs;
    let pairs = Pairs {
        count,
        entries,
        inverse,
    };
    let ends = pairs.halves_by_end();
    let ends = &ends[..2 * count];
    let starts = pairs.halves_by_start(ends);
    let starts = &starts[..2 * count];
    let (first, rest) = settings.split_at_mut(count);
    let (even, rest) = rest.split_at_mut(parts.inner);
    let (odd, last) = rest.split_at_mut(parts.inner);
    let mut there = [0; 64];
    let mut back = [0; 64];
    let there = &mut there[..count];
    let back = &mut back[..count];
    set_layer(first, starts, 0);
    halve(entries, ends, Half::Even, there);
    halve(inverse, starts, Half::Even, back);
    route_over(parts.half, there, back, even);
    halve(entries, ends, Half::Odd, there);
    halve(inverse, starts, Half::Odd, back);
    route_over(parts.half, there, back, odd);
    set_layer(last, ends, 1);
}
