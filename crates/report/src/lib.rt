// The report on a desk: the best triple, its rows on the sheet, its score.
#![tactic(auto)]

ghost use Rattle.std.specs.Prelude.{◌≡◌, ◌+◌, ◌/◌, ◌^◌, ◌≤◌, ◌<◌, length, pos, neg_ℤ};
ghost use Rattle.numbers.specs.Limits.{most_room, row_width};
ghost use Rattle.store.specs.Meaning.{sitting_at};
ghost use Rattle.calls.specs.Refusals.{written_of};
ghost use Rattle.calls.specs.Promises.{with_rows, Reports};
ghost use Rattle.rows.specs.Rows as rows;
ghost use Rattle.report.specs.Desk.{desk_in, CanReportOn, WeighedDesk, DecidedDesk};

use calls::{Refusal, Reported};
use door::open_desk;
use logarithm::LentLogs;
use numbers::{MOST_ROOM, ROW_WIDTH};
use records::{Held, Sample};
use store::layout::{DeskNumbers, HEADER, USED};
use weighing::{Desk, Least};

// Writes a desk's report on the sheet, from row `place` on. What may not change: what it is given is named in docs/PROMISES.md.
pub fn report(store: &[u32], desk: u32, sheet: &mut [u32], place: u32) -> Result<Reported, Refusal>
    ensures { Reports store.now desk place (written_of result place sheet.new) sheet.old sheet.new }
{
    open_desk(store, desk)?;
    let at = desk_in(DeskNumbers {
        store,
        desk: desk as usize,
    });
    if at.n == 0 || at.m == 0 {
        return Err(Refusal::SampleEmpty);
    }
    if at.n <= at.depth || at.m <= at.depth {
        return Err(Refusal::SampleShort);
    }
    Reportable { store, desk: at }.report_on(sheet, place)
}

// An open desk of a sound store, both of whose samples have more symbols than its depth. No value without that can be made.
#[derive(Clone, Copy)]
struct Reportable<'a> {
    store: &'a [u32],
    desk: Desk,
    ghost can: { CanReportOn store.now desk },
}

impl Reportable<'_> {
    // The report on it. What logarithms are read from is put here once, and lent to all below.
    fn report_on(&self, sheet: &mut [u32], place: u32) -> Result<Reported, Refusal>
        ensures { Reports self.now.store.now self.now.desk.number place (written_of result place sheet.new) sheet.old sheet.new }
    {
        let logs = logarithm::logs();
        let logs = LentLogs::new(&logs);
        let mut kept = [0u8; MOST_ROOM];
        let least = self.weighed(logs, &mut kept);
        let whole = sheet.len() / ROW_WIDTH;
        if whole < place as usize + least.rows as usize {
            return Err(Refusal::SheetShort);
        }
        self.write(logs, &kept, sheet, place);
        Ok(Reported {
            rows: least.rows as u32,
            score: score_of(least.joint),
        })
    }

    // Weighs the desk's records; the decisions are kept beside them.
    fn weighed(&self, logs: LentLogs, kept: &mut [u8]) -> Least
        requires { most_room ≤ length kept.old }
        ensures { WeighedDesk self.now.store.now self.now.desk.number kept.new result }
    {
        let n = self.store[USED] as usize;
        let numbers = &self.store[HEADER..];
        weighing::weigh(logs, Held { numbers, n }, self.desk, kept)
    }

    // Writes the weighed desk's rows from row `place` on.
    fn write(&self, logs: LentLogs, kept: &[u8], sheet: &mut [u32], place: u32)
        requires { DecidedDesk self.now.store.now self.now.desk.number kept.now × (place + length (rows.report_of (sitting_at self.now.store.now self.now.desk.number)) ≤ length sheet.old / row_width) }
        ensures { sheet.new ≡ with_rows place (rows.report_of (sitting_at self.now.store.now self.now.desk.number)) sheet.old }
    {
        let n = self.store[USED] as usize;
        let numbers = &self.store[HEADER..];
        let start = ROW_WIDTH * place as usize;
        listing::write_rows(
            logs,
            Held { numbers, n },
            self.desk,
            kept,
            &mut sheet[start..],
        );
    }
}

// The score is the loss with a minus sign.
fn score_of(loss: u64) -> i64
    requires { loss < 2 ^ 63 }
    ensures { result ≡ neg_ℤ (pos loss) }
{
    -(loss as i64)
}

// A desk's numbers, as a weighing takes them.
fn desk_in(numbers: DeskNumbers) -> Desk
    ensures { result ≡ desk_in numbers.entry.store.now numbers.entry.desk }
{
    Desk {
        number: numbers.desk as u32,
        symbols: numbers.symbols(),
        depth: numbers.depth(),
        weight: numbers.weight(),
        n: numbers.size(Sample::First),
        m: numbers.size(Sample::Second),
    }
}
