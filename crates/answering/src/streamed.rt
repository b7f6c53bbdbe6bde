// The program between a reader and a writer.
ghost use Rattle.answering.specs.Streamed.{AnswersStream};

use crate::{SHEET_NUMBERS, STORE_NUMBERS, input_text};
use printing::TEXT_BYTES;
use sitting_file::INPUT_BYTES;
use std::io::{Read, Write};
use streams::{read_full, write_full};

// Answers the sitting file that a reader holds, at the store lent, and says whether all of the text could be written. A yes or no, as `write_full` gives it: no
// plainer as a Result, of whose error the programs would tell nothing.
pub fn answer_stream<R: Read, W: Write>(
    from: &mut R,
    to: &mut W,
    store: &mut [u32; STORE_NUMBERS],
) -> bool
    ensures { AnswersStream (R.remaining from.old) (R.remaining from.new) (W.contents to.old) (W.contents to.new) store.old result store.new }
{
    let mut input = [0u8; INPUT_BYTES];
    let many = read_full(from, &mut input);
    let mut sheet = [0u32; SHEET_NUMBERS];
    let mut text = [0u8; TEXT_BYTES];
    let end = input_text(&input, many, store, &mut sheet, &mut text);
    write_full(to, &text[..end])
}
