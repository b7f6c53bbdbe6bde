// The report call: its sheet, the rows as they stand there, and what changed outside them.
use crate::answers::{Told, say};
use numbers::ROW_WIDTH;
use report::report;
use std::fmt;

// What each number of the sheet is before a report.
const BLANK: u32 = 4294967295;

// The longest sheet: 512 rows.
const SHEET_NUMBERS: usize = 5632;

// Has a blank sheet for a report, and lends the part of it that the call names.
pub(crate) fn play_report(rt: &impl Print, [desk, length, place]: [u32; 3], store: &[u32]) {
    let mut sheet = [BLANK; SHEET_NUMBERS];
    let part = &mut sheet[..SHEET_NUMBERS.min(length as usize)];
    report_on(rt, store, desk, part, place);
}

// What a report is given stays as `report` takes it.
fn report_on(rt: &impl Print, store: &[u32], desk: u32, sheet: &mut [u32], place: u32) {
    match report(store, desk, sheet, place) {
        Ok(reported) => {
            say(rt, Ok(Told::Report(reported)));
            let rows = reported.rows as usize;
            say_rows(rt, sheet, place as usize, rows);
            say_outside(rt, sheet, place as usize, rows);
        }
        Err(why) => {
            say(rt, Err(why.into()));
            say_outside(rt, sheet, 0, 0);
        }
    }
}

// A line for each row, from a row's place on, as far as the sheet has whole rows. The sheet and where its rows stand stay
// three, here and below: no plainer for three functions of a few lines.
fn say_rows(rt: &impl Print, sheet: &[u32], place: usize, rows: usize) {
    for row in sheet.chunks_exact(ROW_WIDTH).skip(place).take(rows) {
        rt.println(Row(row)).is_ok();
    }
}

// The numbers of a row, parted by blanks.
#[derive(Drop)]
struct Row<'a>(&'a [u32]);

impl fmt::Display for Row<'_> {
    fn fmt<W: fmt::Write>(&self, f: &mut fmt::Formatter<W>) -> fmt::Result {
        for (i, number) in self.0.iter().enumerate() {
            if 0 < i {
                f.write_str(" ")?;
            }
            write!(f, "{number}")?;
        }
        Ok(())
    }
}

// A line where numbers outside the rows have changed; it must never be seen.
fn say_outside(rt: &impl Print, sheet: &[u32], place: usize, rows: usize) {
    let changed = changed_outside(sheet, place, rows);
    if 0 < changed {
        println!(rt; "outside {changed}").is_ok();
    }
}

// How many numbers outside the rows are not blank.
fn changed_outside(sheet: &[u32], place: usize, rows: usize) -> usize {
    let reported = place..place.saturating_add(rows);
    sheet
        .iter()
        .enumerate()
        .filter(|(i, number)| **number != BLANK && !reported.contains(&(i / ROW_WIDTH)))
        .count()
}
