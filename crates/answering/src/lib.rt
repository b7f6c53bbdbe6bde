// The answer to a sitting file: it is read, sat at desk 0 of a new store, and reported on.
#![tactic(auto)]

ghost use Rattle.std.specs.Prelude.{◌≡◌, true, ◌≤◌, length, Ok};
ghost use Rattle.store.specs.Layout.{store_size};
ghost use Rattle.store.specs.Sound.{soundb};
ghost use Rattle.store.specs.Meaning.{meaning};
ghost use Rattle.calls.specs.Refusals.{outcome_of};
ghost use Rattle.printing.specs.Putting.{Printed};
ghost use Rattle.sitting_file.specs.Format.{read_of};
ghost use Rattle.judgement.specs.Judgement.{room_made};
ghost use Rattle.judgement.specs.Sitting.{seated, fed_both, run_of, Means, Feeds};
ghost use Rattle.judgement.specs.Answers.{Answers};
ghost use Rattle.judgement.specs.Refusals.{numbered};
ghost use Rattle.judgement.specs.Prints.{CanPrint, text_from, Prints, PrintsInput};

mod streamed;

use judgement::Refusal;
use printing::{Head, TEXT_BYTES};
use sitting_file::{INPUT_BYTES, Shape, judged_bytes};
pub use streamed::answer_stream;

// 2,048 + 24 times 256 numbers.
pub const STORE_NUMBERS: usize = 8192;

// 512 rows of 11 numbers.
pub const SHEET_NUMBERS: usize = 5632;

// How many contexts the store has room for, all of them reserved by the one desk.
const ROOM: u32 = 256;

// The plain penalty.
const WEIGHT: u32 = 4;

const DESK: u32 = 0;

// The answer to a file, with its report's rows on the sheet.
pub fn sitting_answer(
    file: &[u8],
    store: &mut [u32; STORE_NUMBERS],
    sheet: &mut [u32; SHEET_NUMBERS],
) -> Result<Head, Refusal>
    ensures { Answers file.now store.old sheet.old (numbered result) store.new sheet.new }
{
    let shape = sitting_file::read(file)?;
    seat(store, shape);
    feed_file(file, shape, store)?;
    let reported = report::report(store, DESK, sheet, 0)?;
    Ok(Head {
        alphabet: shape.alphabet,
        depth: shape.depth,
        first: shape.first,
        second: shape.second,
        rows: reported.rows,
        score: reported.score,
    })
}

// Puts the answer to a program's input at the start of the buffer as text, and answers how many bytes it has. Of the input, which may be longer,
// `many` bytes were read: those are the file.
pub fn input_text(
    input: &[u8; INPUT_BYTES],
    many: usize,
    store: &mut [u32; STORE_NUMBERS],
    sheet: &mut [u32; SHEET_NUMBERS],
    buffer: &mut [u8; TEXT_BYTES],
) -> usize
    ensures { PrintsInput input.now many store.old sheet.old buffer.old result store.new sheet.new buffer.new }
{
    let end = judged_bytes(many);
    sitting_text(&input[..end], store, sheet, buffer)
}

// Puts the answer to a file at the start of the buffer as text, and answers how many bytes it has. What may not change: it promises the text of any file, and
// `input_text` that of a program's input.
pub fn sitting_text(
    file: &[u8],
    store: &mut [u32; STORE_NUMBERS],
    sheet: &mut [u32; SHEET_NUMBERS],
    buffer: &mut [u8; TEXT_BYTES],
) -> usize
    ensures { Prints file.now store.old sheet.old buffer.old result store.new sheet.new buffer.new }
{
    let answer = sitting_answer(file, store, sheet);
    put_answer(buffer, answer, sheet)
}

// Puts an answer's text, with the rows that stand on the sheet.
fn put_answer(buffer: &mut [u8; TEXT_BYTES], answer: Result<Head, Refusal>, sheet: &[u32]) -> usize
    requires { CanPrint (numbered answer) sheet.now }
    ensures { Printed (text_from (numbered answer) sheet.now) buffer.old buffer.new result }
{
    match answer {
        Ok(head) => printing::put_report(buffer, head, sheet),
        Err(why) => printing::put_refusal(buffer, u32::from(why)),
    }
}

// Makes the store and opens its desk for the file's alphabet and depth. Neither is refused: the room and the opening are within their limits.
fn seat(store: &mut [u32], shape: Shape)
    requires { store_size room_made ≤ length store.old }
    ensures { Means store.new (seated shape) }
{
    let _ = store::make(store, ROOM);
    let _ = desks::open(store, DESK, shape.alphabet, shape.depth, WEIGHT, ROOM);
}

// Feeds the file's first sample and then its second: they are its last bytes.
fn feed_file(file: &[u8], shape: Shape, store: &mut [u32]) -> Result<(), calls::Refusal>
    requires { (read_of file.now ≡ Ok shape) × Means store.old (seated shape) }
    ensures { Feeds (outcome_of result) store.new (run_of file.now shape) }
{
    let n = shape.first as usize;
    let m = shape.second as usize;
    let from = file.len() - (n + m);
    let middle = from + n;
    let first = &file[from..middle];
    let second = &file[middle..];
    feed_both(store, first, second)
}

// Feeds two samples, one after the other, up to the first feed that is refused. That the store is sound stays a clause: it is written here.
fn feed_both(store: &mut [u32], first: &[u8], second: &[u8]) -> Result<(), calls::Refusal>
    requires { soundb store.old ≡ true }
    ensures { Feeds (outcome_of result) store.new (fed_both first.now second.now (meaning store.old)) }
{
    feeding::feed_all(store, DESK, 0, first).ending?;
    feeding::feed_all(store, DESK, 1, second).ending
}
