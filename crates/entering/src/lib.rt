// A feed entered into a store: whether its place is counted, the symbols that it follows, where its contexts stand, whether those missing pass the
// reservation, its records and its header.
#![tactic(auto)]

ghost use Rattle.std.specs.Prelude.{◌≡◌, true, false, ◌+◌, ◌-◌, ◌≤◌, ◌<◌, ltb, length, take, drop, get_or};
ghost use Rattle.numbers.specs.Limits.{deepest, longest, desks};
ghost use Rattle.contexts.specs.Sitting.{sample_of};
ghost use Rattle.records.specs.Records.{records};
ghost use Rattle.records.specs.Samples.{sample_index};
ghost use Rattle.records.specs.Held.{keep, of_desk};
ghost use Rattle.records.specs.Fed.{Askable};
ghost use Rattle.records.specs.Located.{Located, Seeks};
ghost use Rattle.recording.specs.Feeds.{sample_fed};
ghost use Rattle.store.specs.Layout.{header_size, desk_start, size_field, recent_field, used, depth_at, reserve_at, size_at, slots_at, records_in};
ghost use Rattle.store.specs.Sound.{soundb, held_by};
ghost use Rattle.store.specs.Plain.{Open};
ghost use Rattle.changes.specs.FedStore.{shifted, recent_at, is_counted, Acceptable, FedStore};
ghost use Rattle.entering.specs.Seeking.{Found, Spanned};
ghost use Rattle.changes.specs.Noted.{noted, Places};

use recording::{Feed, feed_records};
use records::{DESK_SPAN, Held, Sample, Sought, numbers_at};
use store::layout::{
    DESK_SIZE, DeskNumbers, FIRST_DESK, HEADER, RECENT_FIRST, SIZE_FIRST, SLOTS, USED,
};

// The symbols of a sample that a counted one follows, most recent first: the first `many` of six.
// A copy in fixed memory (the project's rule: no heap), since the store that they stand in is written while they are read.
#[derive(Clone, Copy)]
pub struct Latest {
    pub symbols: [u32; 6],
    pub many: usize,
}

// Whether the next symbol of a sample is counted: only a place with at least D symbols before it is. This and `recent_of` take a desk and a sample: a `Feed`
// would be no plainer, since they read no symbol. That the store is sound stays a clause: a type's would hold only until it is written.
pub fn is_counted(store: &[u32], desk: u32, sample: Sample) -> bool
    requires { (soundb store.now ≡ true) × Open store.now desk }
    ensures { result ≡ is_counted store.now desk (sample_of (sample_index sample)) }
{
    let numbers = DeskNumbers {
        store,
        desk: desk as usize,
    };
    let size = numbers.size(sample);
    let depth = numbers.depth();
    depth <= size
}

// Copies the six places of a sample's recent symbols. Where the next symbol is counted, it follows the first D of them.
pub fn recent_of(store: &[u32], desk: u32, sample: Sample) -> Latest
    requires { (soundb store.now ≡ true) × Open store.now desk }
    ensures { (result.many ≡ depth_at store.now desk) × (result.symbols ≡ slots_at store.now desk (sample_of (sample_index sample))) }
{
    let numbers = DeskNumbers {
        store,
        desk: desk as usize,
    };
    let many = numbers.depth() as usize;
    let symbols = numbers_at(numbers.recent(sample), 0);
    Latest { symbols, many }
}

// Where the contexts of a symbol that follows `recent` stand among the store's records. `Held` is made by its literal, here and wherever records are sought: no
// plainer by a function, whose equations each proof would carry by hand.
pub fn seek_in(store: &[u32], desk: u32, recent: &[u32]) -> Sought
    requires { (soundb store.now ≡ true) × Askable desk recent.now (used store.now) (drop header_size store.now) }
    ensures { Seeks desk recent.now (records_in store.now) result.found result.places }
{
    let n = store[USED] as usize;
    let numbers = &store[HEADER..];
    Held { numbers, n }.seek(desk, recent)
}

// Whether the contexts that are missing would take the sitting past its reservation. Where none is, what it holds need not be counted.
pub fn is_past(store: &[u32], desk: u32, recent: &[u32], sought: Sought) -> bool
    requires { Found store.now desk recent.now sought.found sought.places }
    ensures { result ≡ ltb (reserve_at store.now desk) (held_by desk (records_in store.now) + (length recent.now + 1 - sought.found)) }
{
    let found = sought.found;
    let places = sought.places;
    if recent.len() < found {
        return false;
    }
    let more = recent.len() + 1 - found;
    let n = store[USED] as usize;
    let records = &store[HEADER..];
    let held = held_by(
        Held {
            numbers: records,
            n,
        },
        desk,
        places[0],
        places[found],
    );
    let numbers = DeskNumbers {
        store,
        desk: desk as usize,
    };
    let reserve = numbers.reserve() as usize;
    reserve < held + more
}

// How many of the records in use are a desk's: the first is at a place, and the last not before another.
fn held_by(held: Held, desk: u32, first: usize, from: usize) -> usize
    requires { Spanned desk held.n first from held.numbers.now }
    ensures { result ≡ length (keep (of_desk desk) (records held.entry.n held.entry.numbers.now)) }
{
    let past = desk * DESK_SPAN + DESK_SPAN;
    held.place_from(from, past) - first
}

// Writes an accepted feed that is counted: the records, then the header. `recent` are the symbols before it, most recent first.
pub fn write_feed(store: &mut [u32], feed: Feed, recent: &[u32], sought: Sought)
    requires { Acceptable store.old feed.desk (sample_fed feed) feed.symbol × (recent.now ≡ recent_at store.old feed.desk (sample_fed feed)) × Located feed.desk recent.now (records_in store.old) sought.found sought.places × (is_counted store.old feed.desk (sample_fed feed) ≡ true) }
    ensures { FedStore store.old store.new feed.desk (sample_fed feed) feed.symbol }
{
    let many = store[USED] as usize;
    let body = &mut store[HEADER..];
    let count = feed_records(body, many, feed, recent, sought);
    note_at(store, feed, count as u32);
}

// Writes an accepted feed that is not counted: the header alone.
pub fn write_header(store: &mut [u32], feed: Feed)
    requires { Acceptable store.old feed.desk (sample_fed feed) feed.symbol × (is_counted store.old feed.desk (sample_fed feed) ≡ false) }
    ensures { FedStore store.old store.new feed.desk (sample_fed feed) feed.symbol }
{
    let many = store[USED];
    note_at(store, feed, many);
}

// Notes a feed at its desk, in the places of its sample.
fn note_at(store: &mut [u32], feed: Feed, used: u32)
    requires { (feed.desk < desks) × (header_size ≤ length store.old) × (size_at store.old feed.desk (sample_fed feed) < longest) }
    ensures { store.new ≡ noted used (desk_start feed.desk + size_field (sample_fed feed)) (desk_start feed.desk + recent_field (sample_fed feed)) feed.symbol store.old }
{
    let start = FIRST_DESK + DESK_SIZE * feed.desk as usize;
    let i = feed.sample.index();
    let size = start + (SIZE_FIRST + i);
    let slots = start + (RECENT_FIRST + SLOTS * i);
    note(store, used, size, slots, feed.symbol);
}

// Notes a feed in the header: how many records there are, one more symbol in the sample, and the symbol first of the recent ones.
fn note(store: &mut [u32], used: u32, size: usize, slots: usize, symbol: u32)
    requires { Places size slots store.old × (get_or store.old size 0 < longest) }
    ensures { store.new ≡ noted used size slots symbol store.old }
{
    store[USED] = used;
    store[size] += 1;
    let end = slots + SLOTS;
    move_on(&mut store[slots..end], symbol);
}

// A symbol comes first of six, and the oldest goes.
fn move_on(slots: &mut [u32], symbol: u32)
    requires { length slots.old ≡ deepest }
    ensures { slots.new ≡ shifted symbol slots.old }
{
    slots.copy_within(..SLOTS - 1, 1);
    slots[0] = symbol;
}
