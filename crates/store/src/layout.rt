// Where the numbers of a store stand, and a desk's numbers read.
ghost use Rattle.std.specs.Prelude.{◌≡◌, ◌≤◌, ◌<◌, length};
ghost use Rattle.numbers.specs.Limits.{desks};
ghost use Rattle.contexts.specs.Sitting.{sample_of};
ghost use Rattle.records.specs.Samples.{sample_index};
ghost use Rattle.store.specs.Layout.{header_size, field, is_open, symbols_at, depth_at, weight_at, reserve_at, size_at, slots_at};

use records::Sample;

// The header, and in it K and the number of records in use.
pub const HEADER: usize = 2048;

pub const ROOM: usize = 0;

pub const USED: usize = 1;

// A desk's numbers: open or not, A, D, the weight, the reservation, the lengths, the recent symbols.
pub const FIRST_DESK: usize = 16;

pub const DESK_SIZE: usize = 32;

// How many of them are in use.
pub const DESK_NUMBERS: usize = 19;

pub const OPEN: usize = 0;

pub const SYMBOLS: usize = 1;

pub const DEPTH: usize = 2;

pub const WEIGHT: usize = 3;

pub const RESERVE: usize = 4;

// The second sample's length is one place on, and its recent symbols are `SLOTS` places on.
pub const SIZE_FIRST: usize = 5;

pub const RECENT_FIRST: usize = 7;

pub const SLOTS: usize = 6;

// Where each sample's counts begin in a record. Its key is the first number.
pub const COUNTS_FIRST: usize = 1;

pub const COUNTS_SECOND: usize = 9;

// The header of a store, and with it the store: no run of numbers that is shorter than a header can be one.
#[derive(Clone, Copy)]
pub struct Header<'a> {
    pub store: &'a [u32],
    ghost whole: { header_size ≤ length store.now },
}

// A desk's numbers in a store that has its header. Made by its literal, as `Header` is: a function that gives one was tried, and each proof above would have
// carried by hand that the store is the same.
#[derive(Clone, Copy)]
pub struct DeskNumbers<'a> {
    pub store: &'a [u32],
    pub desk: usize,
    ghost there: { (header_size ≤ length store.now) × (desk < desks) },
}

impl<'a> DeskNumbers<'a> {
    pub fn is_open(self) -> bool
        ensures { result ≡ is_open self.entry.store.now self.entry.desk }
    {
        self.number(OPEN) == 1
    }

    pub fn symbols(self) -> u32
        ensures { result ≡ symbols_at self.entry.store.now self.entry.desk }
    {
        self.number(SYMBOLS)
    }

    pub fn depth(self) -> u32
        ensures { result ≡ depth_at self.entry.store.now self.entry.desk }
    {
        self.number(DEPTH)
    }

    pub fn weight(self) -> u32
        ensures { result ≡ weight_at self.entry.store.now self.entry.desk }
    {
        self.number(WEIGHT)
    }

    pub fn reserve(self) -> u32
        ensures { result ≡ reserve_at self.entry.store.now self.entry.desk }
    {
        self.number(RESERVE)
    }

    // How many symbols a sample has.
    pub fn size(self, sample: Sample) -> u32
        ensures { result ≡ size_at self.entry.store.now self.entry.desk (sample_of (sample_index sample)) }
    {
        self.number(SIZE_FIRST + sample.index())
    }

    // The places of a sample's recent symbols, those in use and the others.
    pub fn recent(self, sample: Sample) -> &'a [u32]
        ensures { result.now ≡ slots_at self.entry.store.now self.entry.desk (sample_of (sample_index sample)) }
    {
        let first = FIRST_DESK + DESK_SIZE * self.desk + RECENT_FIRST + SLOTS * sample.index();
        &self.store[first..first + SLOTS]
    }

    // One of the desk's 32 numbers.
    pub fn number(self, at: usize) -> u32
        requires { at < 32 }
        ensures { result ≡ field self.entry.store.now self.entry.desk at }
    {
        self.store[FIRST_DESK + DESK_SIZE * self.desk + at]
    }
}
