// The soundness test of a store: the frame, one pass over the records in use, the desks and the reservations.
#![tactic(auto)]

ghost use Rattle.std.specs.Prelude.{◌≡◌, ◌+◌, ◌*◌, ◌≤◌, ◌<◌, length, take, drop};
ghost use Rattle.numbers.specs.Limits.{most_symbols, desks, most_room};
ghost use Rattle.numbers.specs.Sum.{sum};
ghost use Rattle.numbers.specs.Every.{every, all};
ghost use Rattle.records.specs.Records.{width, records, key};
ghost use Rattle.contexts.specs.Keys.{desk_of, desk_span, eights};
ghost use Rattle.contexts.specs.Sitting.{sum_of};
ghost use Rattle.store.specs.Sound.{soundb, of_alphabet, frame_ok, limits_ok, slots_ok, desk_test, reserved_at, quiet_from, counts_ok, table_ok};
ghost use Rattle.store.specs.Walk.{largest_sum, Summed, oldest_ok, ends_ok, up_mark, key_fits, seen_mark, mark_ok, step_ok, tally_ok, passb};

use numbers::{DEEPEST, DESKS, FEWEST_SYMBOLS, LONGEST, MOST_ROOM, MOST_SYMBOLS, MOST_WEIGHT};
use records::{COUNTS, DESK_SPAN, Sample, WIDTH, eights_of};
use store::layout::{COUNTS_FIRST, COUNTS_SECOND, DeskNumbers, HEADER, Header, ROOM, USED};

// Whether a lent store stands for sittings.
pub fn sound(store: &[u32]) -> bool
    ensures { result ≡ soundb store.now }
{
    if !frame_ok(store) {
        return false;
    }
    let many = store[USED] as usize;
    let room = u64::from(store[ROOM]);
    let body = &store[HEADER..];
    let header = Header { store };
    pass(header, body, many) && reserved(header) <= room
}

// The length, the room and the number of records in use.
fn frame_ok(store: &[u32]) -> bool
    ensures { result ≡ frame_ok store.now }
{
    let len = store.len();
    if len < HEADER {
        return false;
    }
    let room = store[ROOM] as usize;
    1 <= room && room <= MOST_ROOM && HEADER + WIDTH * room <= len && store[USED] as usize <= room
}

// A mark for each length that a key's digit can have, one place on.
const MARKS: usize = 9;

// The pass. `p` and `q` have, for each length, the mark of the last record so long in each sample, one place on;
// `tally` the number of each desk's records.
// No plainer as an array of two: each test below names the mark of the first sample and of the second once, as `step_ok` does; and `body` and `many` are
// what `passb` speaks of.
fn pass(header: Header, body: &[u32], many: usize) -> bool
    requires { (width * many ≤ length body.now) × (many ≤ most_room) }
    ensures { result ≡ passb header.entry.store.now (records many body.now) }
{
    let mut p = [0u32; MARKS];
    let mut q = [0u32; MARKS];
    let mut tally = [0u32; DESKS];
    let mut lo = 0;
    let (whole, _) = body.as_chunks::<WIDTH>();
    for held in &whole[..many] {
        let key = held[0];
        let len = (key % 8) as usize;
        let x = total(held, COUNTS_FIRST);
        let y = total(held, COUNTS_SECOND);
        if !record_ok(header, held, lo, x, y, p[len], q[len]) {
            return false;
        }
        let desk = (key / DESK_SPAN) as usize;
        p[len + 1] = mark(key, x);
        q[len + 1] = mark(key, y);
        tally[desk] += 1;
        lo = key + 1;
    }
    desks_ok(header, tally)
}

// The sum of the eight counts that begin at a place of a record. The place stays a number, here and below: no plainer as a part of eight, since the layout names
// the places and each part would be cut off three times.
fn total(held: &[u32], from: usize) -> u64
    requires { from + most_symbols ≤ length held.now }
    ensures { (result ≡ sum_of (take most_symbols (drop from held.now))) × (result ≤ largest_sum) }
{
    let end = from + COUNTS;
    let mut seen = 0;
    for &count in &held[from..end] {
        seen += u64::from(count);
    }
    seen
}

// A record's turn: its key, its counts, x and y in all, and the marks p and q at its parent's length.
fn record_ok(header: Header, held: &[u32], lo: u32, x: u64, y: u64, p: u32, q: u32) -> bool
    requires { Summed held.now x y }
    ensures { result ≡ step_ok header.entry.store.now lo p q held.now }
{
    let key = held[0];
    if lo <= key && key_fits(header, key) && table_ok(header, held, x, y) {
        let up = up_mark(key);
        return mark_ok(x, p, up) && mark_ok(y, q, up);
    }
    false
}

// Whether a key has the length, the oldest symbol and the end of a context of an open desk.
fn key_fits(header: Header, key: u32) -> bool
    ensures { result ≡ key_fits header.entry.store.now key }
{
    let desk = (key / DESK_SPAN) as usize;
    if DESKS <= desk {
        return false;
    }
    let desk = DeskNumbers {
        store: header.store,
        desk,
    };
    desk.is_open() && key % 8 <= desk.depth() && oldest_ok(desk.symbols(), key) && ends_ok(key)
}

// Whether the oldest symbol of a key is below `a`.
fn oldest_ok(a: u32, key: u32) -> bool
    ensures { result ≡ oldest_ok a key }
{
    let w = eights_of(key % 8);
    key % DESK_SPAN / w % 8 < a
}

// Whether nothing stands in a key past its length.
fn ends_ok(key: u32) -> bool
    ensures { result ≡ ends_ok key }
{
    let len = key % 8;
    let w = eights_of(len);
    key % w == len
}

// The counts of both samples by what the key's desk says, and at least one.
fn table_ok(header: Header, held: &[u32], x: u64, y: u64) -> bool
    requires { (desk_of (key held.now) < desks) × Summed held.now x y }
    ensures { result ≡ table_ok header.entry.store.now held.now }
{
    let desk = (held[0] / DESK_SPAN) as usize;
    let desk = DeskNumbers {
        store: header.store,
        desk,
    };
    let a = desk.symbols();
    let n = desk.size(Sample::First);
    let m = desk.size(Sample::Second);
    counts_ok(held, COUNTS_FIRST, x, a, n) && counts_ok(held, COUNTS_SECOND, y, a, m) && 0 < x + y
}

// A sample's counts, `seen` in all: none from symbol `a` up, and no more than `most`.
fn counts_ok(held: &[u32], from: usize, seen: u64, a: u32, most: u32) -> bool
    requires { (from + most_symbols ≤ length held.now) × (seen ≡ sum_of (take most_symbols (drop from held.now))) }
    ensures { result ≡ counts_ok a most (take most_symbols (drop from held.now)) }
{
    quiet(held, from, a as usize) && seen <= u64::from(most)
}

// Whether the counts that begin at a place of a record are 0 from symbol `a` up.
// All eight are read: that is faster than stopping early.
fn quiet(held: &[u32], from: usize, a: usize) -> bool
    requires { from + most_symbols ≤ length held.now }
    ensures { result ≡ quiet_from a (take most_symbols (drop from held.now)) }
{
    let end = from + COUNTS;
    let mut seen: u64 = 0;
    for (symbol, &count) in held[from..end].iter().enumerate() {
        if a <= symbol {
            seen += u64::from(count);
        }
    }
    seen == 0
}

// The mark of a key's parent.
fn up_mark(key: u32) -> u32
    requires { key < desks * desk_span }
    ensures { result ≡ up_mark key }
{
    let len = key % 8;
    let w = eights_of(len);
    key / w / 8 * 8 * w + len
}

// Whether the mark is the parent's, where the sample has seen the key.
fn mark_ok(seen: u64, mark: u32, up: u32) -> bool
    ensures { result ≡ mark_ok seen mark up }
{
    seen == 0 || mark == up
}

// The mark of a key in a sample that has seen it `seen` times. 0 and no Option where it has not: what may not change (`seen_mark`, `up_mark`, `mark_ok`).
fn mark(key: u32, seen: u64) -> u32
    requires { key < desks * desk_span }
    ensures { result ≡ seen_mark key seen }
{
    if 0 < seen { key + 1 } else { 0 }
}

// The desks' tests, with the number of each one's records. Tried by `all` over the desks, here and in `reserved` by `sum`: the proof of what they tell of each
// desk did not close.
fn desks_ok(header: Header, tally: [u32; DESKS]) -> bool
    ensures { result ≡ every desks (tally_ok header.entry.store.now tally) }
{
    for (desk, &many) in tally.iter().enumerate() {
        let desk = DeskNumbers {
            store: header.store,
            desk,
        };
        if !desk_ok(desk, many) {
            return false;
        }
    }
    true
}

// A desk's test, with the number of its records.
fn desk_ok(desk: DeskNumbers, many: u32) -> bool
    ensures { result ≡ desk_test desk.entry.store.now desk.entry.desk many }
{
    !desk.is_open() || limits_ok(desk) && many <= desk.reserve() && slots_ok(desk)
}

// Whether A, D, the weight, the reservation and the lengths of a desk are within their limits.
fn limits_ok(desk: DeskNumbers) -> bool
    ensures { result ≡ limits_ok desk.entry.store.now desk.entry.desk }
{
    let a = desk.symbols();
    FEWEST_SYMBOLS <= a
        && a <= MOST_SYMBOLS
        && desk.depth() <= DEEPEST
        && desk.weight() <= MOST_WEIGHT
        && 1 <= desk.reserve()
        && desk.size(Sample::First) <= LONGEST
        && desk.size(Sample::Second) <= LONGEST
}

// Whether the places of a desk's recent symbols have symbols.
fn slots_ok(desk: DeskNumbers) -> bool
    ensures { result ≡ slots_ok desk.entry.store.now desk.entry.desk }
{
    let a = desk.symbols();
    all_below(desk.recent(Sample::First), a) && all_below(desk.recent(Sample::Second), a)
}

// Whether every symbol of a part is below `a`. No plainer as one with writing's, which reads bytes: each is one call of std's `all`.
fn all_below(part: &[u32], a: u32) -> bool
    ensures { result ≡ all (of_alphabet a) part.now }
{
    part.iter().all(|&symbol| symbol < a)
}

// What the open desks have reserved.
pub fn reserved(header: Header) -> u64
    ensures { result ≡ sum desks (reserved_at header.entry.store.now) }
{
    let mut all = 0;
    for desk in 0..DESKS {
        all += reserved_at(DeskNumbers {
            store: header.store,
            desk,
        });
    }
    all
}

// What a desk has reserved.
fn reserved_at(desk: DeskNumbers) -> u64
    ensures { (result ≡ reserved_at desk.entry.store.now desk.entry.desk) × (result < 4294967296) }
{
    if desk.is_open() {
        u64::from(desk.reserve())
    } else {
        0
    }
}
