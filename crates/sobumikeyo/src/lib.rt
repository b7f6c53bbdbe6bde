// The library for C: slices and single numbers alone. Each call answers 0 or its refusal's number. The C interface is why a sample, which samples saw a context
// and a refusal are numbers here, and why outputs are lent one by one.
#![tactic(auto)]

ghost use Rattle.std.specs.Prelude.{◌≡◌};
ghost use Rattle.replay.specs.Machine.{opening, closing, at_desk, asking};
ghost use Rattle.replay.specs.Room.{naming};
ghost use Rattle.rules.specs.Rules.{feed};
ghost use Rattle.store.specs.Sound.{soundb};
ghost use Rattle.told.specs.Told.{MakeTold, MoveTold, RunTold, RoomTold, ReportTold, ReadTold, WriteTold, SalvageTold, ChartTold};

use chart::Chart;
use told::code_of;

// Makes a store for `room` contexts of the numbers lent, whatever they are.
#[unsafe(no_mangle)]
pub extern "C" fn sobumikeyo_make(store: &mut [u32], room: u32) -> u32
    ensures { MakeTold room store.old result store.new }
{
    code_of(store::make(store, room))
}

// Opens a desk for an alphabet, a depth and a weight in quarters, and reserves it room.
#[unsafe(no_mangle)]
pub extern "C" fn sobumikeyo_open(
    store: &mut [u32],
    desk: u32,
    alphabet: u32,
    depth: u32,
    weight: u32,
    reservation: u32,
) -> u32
    ensures { MoveTold store.old (at_desk desk (opening (naming alphabet depth weight reservation))) result store.new }
{
    code_of(desks::open(store, desk, alphabet, depth, weight, reservation))
}

// One more symbol of a sample at a desk.
#[unsafe(no_mangle)]
pub extern "C" fn sobumikeyo_feed(store: &mut [u32], desk: u32, sample: u32, symbol: u32) -> u32
    ensures { MoveTold store.old (at_desk desk (asking (feed sample symbol))) result store.new }
{
    code_of(feeding::feed(store, desk, sample, symbol))
}

// Closes a desk: the room that it reserved is free.
#[unsafe(no_mangle)]
pub extern "C" fn sobumikeyo_close(store: &mut [u32], desk: u32) -> u32
    ensures { MoveTold store.old (at_desk desk closing) result store.new }
{
    code_of(desks::close(store, desk))
}

// Whether a lent store stands for sittings.
#[unsafe(no_mangle)]
pub extern "C" fn sobumikeyo_sound(store: &[u32]) -> bool
    ensures { result ≡ soundb store.now }
{
    soundness::sound(store)
}

// A run of feeds to one sample: how many were accepted, and in `why` 0 or the refusal that the next feed got.
#[unsafe(no_mangle)]
pub extern "C" fn sobumikeyo_feed_all(
    store: &mut [u32],
    desk: u32,
    sample: u32,
    symbols: &[u8],
    why: &mut u32,
) -> u32
    ensures { RunTold store.old desk sample symbols.now result why.new store.new }
{
    let fed = feeding::feed_all(store, desk, sample, symbols);
    *why = code_of(fed.ending);
    fed.accepted as u32
}

// Writes a desk's report on the sheet from row `place` on, and its row count and score.
#[unsafe(no_mangle)]
pub extern "C" fn sobumikeyo_report(
    store: &[u32],
    desk: u32,
    sheet: &mut [u32],
    place: u32,
    rows: &mut u32,
    score: &mut i64,
) -> u32
    ensures { ReportTold store.now desk place result sheet.old sheet.new rows.old rows.new score.old score.new }
{
    match report::report(store, desk, sheet, place) {
        Err(why) => u32::from(why),
        Ok(reported) => {
            *rows = reported.rows;
            *score = reported.score;
            0
        }
    }
}

// Writes how many contexts are left.
#[unsafe(no_mangle)]
pub extern "C" fn sobumikeyo_room(store: &[u32], left: &mut u32) -> u32
    ensures { RoomTold store.now result left.old left.new }
{
    match desks::room_left(store) {
        Err(why) => u32::from(why),
        Ok(n) => {
            *left = n;
            0
        }
    }
}

// Writes what an accepted sitting file announces: A, D, n and m.
#[unsafe(no_mangle)]
pub extern "C" fn sobumikeyo_read(file: &[u8], shape: &mut [u32; 4]) -> u32
    ensures { ReadTold file.now result shape.old shape.new }
{
    match sitting_file::read(file) {
        Err(why) => u32::from(why),
        Ok(s) => {
            *shape = [s.alphabet, s.depth, s.first, s.second];
            0
        }
    }
}

// Writes the file of a sitting at the start of the bytes lent, and its length.
#[unsafe(no_mangle)]
pub extern "C" fn sobumikeyo_write(
    first: &[u8],
    second: &[u8],
    alphabet: u32,
    depth: u32,
    file: &mut [u8],
    written: &mut usize,
) -> u32
    ensures { WriteTold alphabet depth first.now second.now file.old result file.new written.old written.new }
{
    match writing::write(first, second, alphabet, depth, file) {
        Err(why) => u32::from(why),
        Ok(size) => {
            *written = size;
            0
        }
    }
}

// Writes what can be saved of a damaged file at the start of the bytes lent, its length, and what was lost: missing and dropped of the first sample, of
// the second, cut off.
#[unsafe(no_mangle)]
pub extern "C" fn sobumikeyo_salvage(
    damaged: &[u8],
    file: &mut [u8],
    written: &mut usize,
    told: &mut [u64; 5],
) -> u32
    ensures { SalvageTold damaged.now file.old result file.new written.old written.new told.old told.new }
{
    match salvage::salvage(damaged, file) {
        Err(why) => u32::from(why),
        Ok(saved) => {
            let lost = saved.lost;
            *written = saved.size;
            *told = [
                lost.first.missing,
                lost.first.dropped,
                lost.second.missing,
                lost.second.dropped,
                lost.cut,
            ];
            0
        }
    }
}

// Writes which samples saw a context, and a symbol's shares in it. A share that is not answered stays as it was.
#[unsafe(no_mangle)]
pub extern "C" fn sobumikeyo_chart(
    store: &[u32],
    desk: u32,
    length: u32,
    code: u32,
    symbol: u32,
    seen: &mut u32,
    first: &mut f64,
    second: &mut f64,
    gap: &mut f64,
) -> u32
    ensures { ChartTold store.now desk length code symbol result seen.old seen.new first.old first.new second.old second.new gap.old gap.new }
{
    match charting::chart(store, desk, length, code, symbol) {
        Err(why) => u32::from(why),
        Ok(chart) => {
            match chart {
                Chart::Neither => {
                    *seen = 0;
                }
                Chart::First(share) => {
                    *seen = 1;
                    *first = share;
                }
                Chart::Second(share) => {
                    *seen = 2;
                    *second = share;
                }
                Chart::Both(point) => {
                    *seen = 3;
                    *first = point.first;
                    *second = point.second;
                    *gap = point.gap;
                }
            }
            0
        }
    }
}
