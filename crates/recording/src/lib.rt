// The records of a store written: one more for each context that a counted symbol follows, and none of a desk that closes.
#![tactic(auto)]

ghost use Rattle.std.specs.Prelude.{◌≡◌, ◌++◌, ◌+◌, ◌-◌, ◌*◌, ◌%◌, ◌≤◌, ◌<◌, length, take, drop, get_or};
ghost use Rattle.numbers.specs.Limits.{most_symbols, longest};
ghost use Rattle.records.specs.Records.{width, records, blank};
ghost use Rattle.records.specs.Samples.{sample_index};
ghost use Rattle.records.specs.Held.{without, Removable};
ghost use Rattle.records.specs.Bumped.{raised, Cell, Written};
ghost use Rattle.records.specs.Fed.{fed, fresh};
ghost use Rattle.records.specs.Located.{Ready, Insertable, Inserted, Appended};
ghost use Rattle.recording.specs.Feeds.{sample_fed};
ghost use Rattle.recording.specs.Counted.{raised_each, Raisable, with_missing, Growable};

use records::{COUNTS, DESK_SPAN, Held, NEWEST, Sample, Sought, WIDTH, longer};

// A symbol for a sample of a desk's sitting: what one feed names.
#[derive(Clone, Copy, Debug, PartialEq, Eq)]
pub struct Feed {
    pub desk: u32,
    pub sample: Sample,
    pub symbol: u32,
}

// The contexts that a counted symbol follows and that no record has yet: those from length `found` on. `recent` are the symbols before it, most recent
// first, and a new record counts the symbol at `cell`.
#[derive(Clone, Copy)]
struct Missing<'a> {
    desk: u32,
    recent: &'a [u32],
    found: usize,
    cell: usize,
}

// Takes a desk's records out of the first `n`. Gives the number of records then. Here and below `numbers` and `n` stay two: no `Held` can be lent of numbers that
// are written.
pub fn remove_desk(numbers: &mut [u32], n: usize, desk: u32) -> usize
    requires { Removable desk n numbers.old }
    ensures { Written (without desk (records n numbers.old)) result numbers.old numbers.new }
{
    let least = desk * DESK_SPAN;
    let past = least + DESK_SPAN;
    let held = Held { numbers, n };
    let first = held.place_of(least);
    let next = held.place_of(past);
    let gone = next - first;
    let from = WIDTH * first;
    let to = WIDTH * n;
    shift_down(&mut numbers[from..to], WIDTH * gone);
    n - gone
}

// A feed that is counted: each context that it follows gets one more. `recent` are the symbols before it, most recent first,
// and `sought` says where its contexts stand. Gives the number of records then. New records use up the numbers behind the `n` records.
pub fn feed_records(
    numbers: &mut [u32],
    n: usize,
    feed: Feed,
    recent: &[u32],
    sought: Sought,
) -> usize
    requires { Ready feed.desk (sample_index feed.sample) feed.symbol recent.now n numbers.old sought.found sought.places }
    ensures { Written (fed feed.desk (sample_fed feed) feed.symbol recent.now (records n numbers.old)) result numbers.old numbers.new }
{
    let cell = 1 + (COUNTS * feed.sample.index() + feed.symbol as usize);
    raise_held(numbers, cell, sought);
    let found = sought.found;
    if recent.len() < found {
        return n;
    }
    let places = sought.places;
    let missing = Missing {
        desk: feed.desk,
        recent,
        found,
        cell,
    };
    add_missing(numbers, n, places[found], missing)
}

// One more at a cell of each record that was found.
fn raise_held(numbers: &mut [u32], cell: usize, sought: Sought)
    requires { Raisable sought.found cell sought.places numbers.old }
    ensures { numbers.new ≡ raised_each sought.found cell sought.places numbers.old }
{
    let found = sought.found;
    for &place in &sought.places[..found] {
        raise(numbers, WIDTH * place + cell);
    }
}

// One more at a place.
fn raise(numbers: &mut [u32], at: usize)
    requires { (at < length numbers.old) × (get_or numbers.old at 0 ≤ longest) }
    ensures { numbers.new ≡ raised at numbers.old }
{
    numbers[at] += 1;
}

// New records at a place, for the contexts that are missing. Gives the number of records then.
fn add_missing(numbers: &mut [u32], n: usize, place: usize, missing: Missing) -> usize
    requires { Growable missing.desk missing.recent.now missing.found place missing.cell n numbers.old }
    ensures { Written (with_missing missing.entry.desk missing.entry.recent.now missing.entry.found place missing.entry.cell (records n numbers.old)) result numbers.old numbers.new }
{
    let more = missing.recent.len() + 1 - missing.found;
    let from = WIDTH * place;
    let to = WIDTH * (n + more);
    insert(&mut numbers[from..to], missing);
    n + more
}

// New records at the front of a part, for the contexts that are missing: its last records' room is taken up.
fn insert(part: &mut [u32], missing: Missing)
    requires { Insertable missing.desk missing.recent.now missing.found missing.cell part.old }
    ensures { Inserted missing.entry.desk missing.entry.recent.now missing.entry.found missing.entry.cell part.old part.new }
{
    let gap = WIDTH * (missing.recent.len() + 1 - missing.found);
    shift_up(part, gap);
    write_run(&mut part[..gap], missing);
}

// These records over the whole part, each with one count at a cell.
fn write_run(part: &mut [u32], missing: Missing)
    requires { Insertable missing.desk missing.recent.now missing.found missing.cell part.old }
    ensures { records (length missing.entry.recent.now + 1 - missing.entry.found) part.new ≡ fresh (length missing.entry.recent.now + 1 - missing.entry.found) missing.entry.found missing.entry.desk missing.entry.recent.now missing.entry.cell }
{
    let recent = missing.recent;
    let mut key = missing.desk * DESK_SPAN;
    let mut eights = NEWEST;
    let all = recent.len() + 1;
    for seen in 0..all {
        write_past(part, missing.found, seen, key, missing.cell);
        key = longer(key, eights, recent, seen);
        eights /= 8;
    }
}

// The record of the context of length `seen`, where it is one of them.
fn write_past(part: &mut [u32], found: usize, seen: usize, key: u32, cell: usize)
    requires { (width * (seen + 1 - found) ≤ length part.old) × Cell cell }
    ensures { Appended found seen (raised cell (blank key)) part.old part.new }
{
    if found <= seen {
        let from = WIDTH * (seen - found);
        let to = from + WIDTH;
        write_new(&mut part[from..to], key, cell);
    }
}

// A record of a key with one count, at a cell, over the whole part.
fn write_new(part: &mut [u32], key: u32, cell: usize)
    requires { (length part.old ≡ width) × Cell cell }
    ensures { part.new ≡ raised cell (blank key) }
{
    part.fill(0);
    part[0] = key;
    part[cell] = 1;
}

// Moves all but the last `gap` numbers up by `gap`: the first `gap` stay as they were.
fn shift_up(part: &mut [u32], gap: usize)
    requires { gap ≤ length part.old }
    ensures { part.new ≡ take gap part.old ++ take (length part.old - gap) part.old }
{
    let end = part.len() - gap;
    part.copy_within(0..end, gap);
}

// Moves all but the first `gap` numbers down by `gap`: the last `gap` stay as they were.
fn shift_down(part: &mut [u32], gap: usize)
    requires { gap ≤ length part.old }
    ensures { part.new ≡ drop gap part.old ++ drop (length part.old - gap) part.old }
{
    let end = part.len();
    part.copy_within(gap..end, 0);
}
