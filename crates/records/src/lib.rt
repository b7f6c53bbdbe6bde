// The records of a store: one dense run of records of 24 numbers, strictly rising in key. Read and found here.
#![tactic(auto)]

ghost use Rattle.std.specs.Prelude.{◌≡◌, ◌+◌, ◌*◌, ◌^◌, ◌≤◌, ◌<◌, length, take, drop, get_or};
ghost use Rattle.numbers.specs.Limits.{most_symbols};
ghost use Rattle.contexts.specs.Keys.{eights};
ghost use Rattle.records.specs.Records.{width, records, lookup};
ghost use Rattle.records.specs.Held.{held, record_at, count_table, Standing, Placed, Bounded, Onward};
ghost use Rattle.records.specs.Fed.{Askable};
ghost use Rattle.records.specs.Samples.{sample_index, Names};
ghost use Rattle.records.specs.Located.{Seeks, longer_key};

use std::array;

// How many numbers a record has.
pub const WIDTH: usize = 24;

// How many counts a sample has in a record.
pub const COUNTS: usize = 8;

// How many keys a desk has.
pub const DESK_SPAN: u32 = 2097152;

// The power of eight at which the most recent symbol stands in a key; each older one stands at an eighth of the one before.
pub const NEWEST: u32 = 262144;

// One of a sitting's two samples.
#[derive(Clone, Copy, Debug, PartialEq, Eq)]
pub enum Sample {
    First,
    Second,
}

// A number that names no sample.
#[derive(Clone, Copy, Debug, PartialEq, Eq)]
pub struct NoSample(pub u32);

impl TryFrom<u32> for Sample {
    type Error = NoSample;

    ghost try_from_gives = { Names };

    fn try_from(number: u32) -> Result<Self, NoSample> {
        match number {
            0 => Ok(Sample::First),
            1 => Ok(Sample::Second),
            _ => Err(NoSample(number)),
        }
    }
}

impl Sample {
    // Its number, by which what is the first's stands before what is the second's.
    pub fn index(self) -> usize
        ensures { result ≡ sample_index self }
    {
        match self {
            Sample::First => 0,
            Sample::Second => 1,
        }
    }
}

// Where the contexts that a symbol follows stand: how many of them are held, and their places. Where one is not held, its place comes after those.
// The other places are 0.
// Seven in fixed memory (the project's rule: no heap), and `found` beside them: it says which are held, and is not how many places are told.
#[derive(Clone, Copy)]
pub struct Sought {
    pub found: usize,
    pub places: [usize; 7],
}

// A key's place is from `low` to `high`.
#[derive(Clone, Copy)]
struct Bounds {
    low: usize,
    high: usize,
}

// The counts of the record at a place. What may not change: it asks for the numbers alone, which is less than `Held` has.
pub fn counts_at(numbers: &[u32], at: usize) -> [[u32; 8]; 2]
    requires { width * (at + 1) ≤ length numbers.now }
    ensures { result ≡ count_table (record_at at numbers.now) }
{
    let first = numbers_at(numbers, WIDTH * at + 1);
    let second = numbers_at(numbers, WIDTH * at + (1 + COUNTS));
    [first, second]
}

// The records in use: the first `n` of some numbers, strictly rising in key. No plainer as a slice of whole records: the definitions and the layout of a store
// speak of numbers and of how many records they begin with.
#[derive(Clone, Copy)]
pub struct Held<'a> {
    pub numbers: &'a [u32],
    pub n: usize,
    pub ghost standing: { Standing n numbers.now },
}

impl Held<'_> {
    // The place of a key among the first `n` records, or where it would stand.
    pub fn place_of(self, key: u32) -> usize
        ensures { Placed key self.entry.n result self.entry.numbers.now }
    {
        self.halve(
            Bounds {
                low: 0,
                high: self.n,
            },
            key,
        )
    }

    // The same, sought from a place on that does not come after it: quick where it is near.
    pub fn place_from(self, from: usize, key: u32) -> usize
        requires { Onward key self.n from self.numbers.now }
        ensures { Placed key self.entry.n result self.entry.numbers.now }
    {
        let bounds = self.reach(from, key);
        self.halve(bounds, key)
    }

    // Where the contexts that a symbol follows stand, from the shortest to the first that none of the `n` records has.
    // `recent` are the symbols before it, most recent first.
    pub fn seek(self, desk: u32, recent: &[u32]) -> Sought
        requires { Askable desk recent.now self.n self.numbers.now }
        ensures { Seeks desk recent.now (records self.entry.n self.entry.numbers.now) result.found result.places }
    {
        let mut places = [0usize; 7];
        let mut key = desk * DESK_SPAN;
        let mut eights = NEWEST;
        let mut from = 0;
        let all = recent.len() + 1;
        for found in 0..all {
            let at = self.place_from(from, key);
            places[found] = at;
            if !self.stands(at, key) {
                return Sought { found, places };
            }
            key = longer(key, eights, recent, found);
            eights /= 8;
            from = at + 1;
        }
        Sought { found: all, places }
    }

    // The counts under a key: zeros where none of the first `n` records has it. The test of `stands`, written out: its two facts are wanted here, and what
    // `stands` promises is the one that follows from them.
    pub fn table_of(self, key: u32) -> [[u32; 8]; 2]
        ensures { result ≡ count_table (lookup key (records self.entry.n self.entry.numbers.now)) }
    {
        let at = self.place_of(key);
        if at < self.n && self.numbers[WIDTH * at] == key {
            counts_at(self.numbers, at)
        } else {
            [[0; 8]; 2]
        }
    }

    // Between which places a key stands, from a place on: by doubling the way. A `while`: no method of a slice searches from one end so.
    fn reach(self, from: usize, key: u32) -> Bounds
        requires { Onward key self.n from self.numbers.now }
        ensures { Bounded key self.entry.n result.low result.high self.entry.numbers.now }
    {
        let mut low = from;
        let mut at = from;
        while at < self.n {
            if key <= self.numbers[WIDTH * at] {
                return Bounds { low, high: at };
            }
            low = at + 1;
            at = at + (low - from);
        }
        Bounds { low, high: self.n }
    }

    // The place of a key that stands between two places: by halving, which is how `partition_point` goes.
    fn halve(self, bounds: Bounds, key: u32) -> usize
        requires { Bounded key self.n bounds.low bounds.high self.numbers.now }
        ensures { Placed key self.entry.n result self.entry.numbers.now }
    {
        let (whole, _) = self.numbers.as_chunks::<WIDTH>();
        let between = &whole[bounds.low..bounds.high];
        bounds.low + between.partition_point(|held| held[0] < key)
    }

    // Whether the record at a key's place has it.
    pub fn stands(self, at: usize, key: u32) -> bool
        requires { Placed key self.n at self.numbers.now }
        ensures { result ≡ held key (records self.entry.n self.entry.numbers.now) }
    {
        at < self.n && self.numbers[WIDTH * at] == key
    }
}

// The key of a context that is longer by the recent symbol at a place: that symbol at its power of eight, and 1 for the length. The same key where none is there.
pub fn longer(key: u32, eights: u32, recent: &[u32], place: usize) -> u32
    requires { place < length recent.now → key + (get_or recent.now place 0 * eights + 1) < 2 ^ 32 }
    ensures { result ≡ longer_key key eights recent.now place }
{
    match recent.get(place) {
        Some(&symbol) => key + (symbol * eights + 1),
        None => key,
    }
}

// The power of eight at which the oldest of `len` symbols stands in a key: by a shift, which is faster than a table.
pub fn eights_of(len: u32) -> u32
    requires { len < 8 }
    ensures power { result ≡ eights len }
    ensures positive { 0 < result }
{
    1u32 << (21 - 3 * len)
}

// The `N` numbers from a place on.
pub fn numbers_at<const N: usize>(numbers: &[u32], at: usize) -> [u32; N]
    requires { at + N ≤ length numbers.now }
    ensures { result ≡ take N (drop at numbers.now) }
{
    array::from_fn(|i| numbers[at + i])
}
