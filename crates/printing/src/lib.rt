// What the program prints, as text put into lent bytes.
#![tactic(auto)]

ghost use Rattle.std.specs.Prelude.{◌≡◌, [], ◌∷◌, ◌++◌, map, ◌+◌, ◌≤◌, ◌<◌, pos, nat_abs, length};
ghost use Rattle.printing.specs.Text.{line_of, head_text, row_text, rows_text, report_text, refusal_text};
ghost use Rattle.placing.specs.Placing.{HasRoom, Puts};
ghost use Rattle.printing.specs.Putting.{Printable, Printed};

use itoa::{Buffer, Integer};
use numbers::ROW_WIDTH;
use placing::{put_byte, put_bytes};

// The numbers of a report's first line: A, D, n, m, the row count and the score.
#[derive(Clone, Copy, Debug, PartialEq, Eq)]
pub struct Head {
    pub alphabet: u32,
    pub depth: u32,
    pub first: u32,
    pub second: u32,
    pub rows: u32,
    pub score: i64,
}

// Bytes enough for any report.
pub const TEXT_BYTES: usize = 65536;

const LINE_FEED: u8 = b'\n';

const BLANK: u8 = b' ';

// Puts a report at the start of the buffer, and answers how many bytes it has.
pub fn put_report(buffer: &mut [u8; TEXT_BYTES], head: Head, sheet: &[u32]) -> usize
    requires { Printable head.alphabet head.rows sheet.now }
    ensures { Printed (report_text head.alphabet head.depth head.first head.second head.rows head.score sheet.now) buffer.old buffer.new result }
{
    let at = put_head(buffer, head);
    put_rows(
        buffer,
        at,
        sheet,
        head.rows as usize,
        head.alphabet as usize,
    )
}

// Puts a refusal's line at the start of the buffer, and answers how many bytes it has.
pub fn put_refusal(buffer: &mut [u8; TEXT_BYTES], number: u32) -> usize
    ensures { Printed (refusal_text number) buffer.old buffer.new result }
{
    let at = put_bytes(buffer, 0, b"refused ");
    put_line(buffer, at, &[], i64::from(number))
}

// Puts a line of four numbers and a last one at the start of the buffer, and answers how many bytes it has.
pub fn put_five(buffer: &mut [u8; TEXT_BYTES], numbers: &[u32; 4], last: i64) -> usize
    ensures { Printed (line_of (map pos numbers.now ++ (last ∷ []))) buffer.old buffer.new result }
{
    put_line(buffer, 0, numbers, last)
}

fn put_head(buffer: &mut [u8], head: Head) -> usize
    requires { HasRoom (head_text head.alphabet head.depth head.first head.second head.rows head.score) 0 buffer.old }
    ensures { Puts (head_text head.alphabet head.depth head.first head.second head.rows head.score) 0 buffer.old buffer.new result }
{
    let numbers = [
        head.alphabet,
        head.depth,
        head.first,
        head.second,
        head.rows,
    ];
    put_line(buffer, 0, &numbers, head.score)
}

// Puts a line for each of the sheet's first rows.
fn put_rows(buffer: &mut [u8], at: usize, sheet: &[u32], rows: usize, alphabet: usize) -> usize
    requires printable { Printable alphabet rows sheet.now }
    requires has_room { HasRoom (rows_text alphabet rows sheet.now) at buffer.old }
    ensures { Puts (rows_text alphabet rows sheet.now) at buffer.old buffer.new result }
{
    let mut next = at;
    for row in sheet.chunks_exact(ROW_WIDTH).take(rows) {
        next = put_row(buffer, next, row, alphabet);
    }
    next
}

fn put_row(buffer: &mut [u8], at: usize, row: &[u32], alphabet: usize) -> usize
    requires { (3 + alphabet ≤ length row.now) × HasRoom (row_text alphabet row.now) at buffer.old }
    ensures { Puts (row_text alphabet row.now) at buffer.old buffer.new result }
{
    let last = 2 + alphabet;
    put_line(buffer, at, &row[..last], i64::from(row[last]))
}

// Puts a line: numbers, and a last one that may be negative.
fn put_line(buffer: &mut [u8], at: usize, numbers: &[u32], last: i64) -> usize
    requires { HasRoom (line_of (map pos numbers.now ++ (last ∷ []))) at buffer.old }
    ensures { Puts (line_of (map pos numbers.now ++ (last ∷ []))) at buffer.old buffer.new result }
{
    let mut next = at;
    for &number in numbers {
        let end = put_number(buffer, next, number);
        next = put_byte(buffer, end, BLANK);
    }
    let end = put_number(buffer, next, last);
    put_byte(buffer, end, LINE_FEED)
}

// Puts a number in decimal digits, after a minus sign where it is negative. Not by `write!`: a writing's clauses say nothing of an `Err`, and cannot
// say that there is none where there is room, which `Printed` needs.
fn put_number<I: Integer>(buffer: &mut [u8], at: usize, number: I) -> usize
    requires { HasRoom (I.text number) at buffer.old }
    ensures { Puts (I.text number) at buffer.old buffer.new result }
{
    let mut digits = Buffer::new();
    put_bytes(buffer, at, digits.format(number).as_bytes())
}

// How far a number is from 0. What may not change: it is named in docs/PROMISES.md.
pub fn magnitude(z: i64) -> u64
    ensures { result ≡ nat_abs z }
{
    z.unsigned_abs()
}
