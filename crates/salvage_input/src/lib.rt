// What the program that salvages makes of its input: the saved file, and the line that tells what was lost.
#![tactic(auto)]

ghost use Rattle.std.specs.Prelude.{◌≡◌, min, ◌+◌, ◌≤◌, pos};
ghost use Rattle.numbers.specs.Limits.{longest};
ghost use Rattle.printing.specs.Putting.{Printed};
ghost use Rattle.salvage.specs.Saving.{lost_more};
ghost use Rattle.salvage_input.specs.Filter.{most_told, loss_text, FiltersInput};

use printing::{TEXT_BYTES, put_five, put_refusal};
use salvage::Lost;
use sitting_file::{INPUT_BYTES, judged_bytes};

// How many bytes the saved file and the line have, of the fixed memory that is lent for them (no heap is the project's rule).
#[derive(Clone, Copy, Debug, PartialEq, Eq)]
pub struct Lengths {
    pub file: usize,
    pub line: usize,
}

// The greatest number that is printed.
pub const MOST_TOLD: u64 = 9223372036854775807;

// Puts the file that is saved of a program's input and the line that tells what was lost at the start of the bytes lent. Of the input, `many` bytes
// were read, and `beyond` were counted after them. What may not change: `FiltersInput` promises an answer to every `many`, so it is no slice.
pub fn salvage_input(
    input: &[u8; INPUT_BYTES],
    many: usize,
    beyond: u64,
    file: &mut [u8; INPUT_BYTES],
    line: &mut [u8; TEXT_BYTES],
) -> Lengths
    ensures { FiltersInput input.now many beyond file.old line.old result file.new line.new }
{
    let end = judged_bytes(many);
    match salvage::salvage(&input[..end], file) {
        Ok(done) => Lengths {
            file: done.size,
            line: put_losses(line, done.lost, beyond),
        },
        Err(why) => Lengths {
            file: 0,
            line: put_refusal(line, u32::from(why)),
        },
    }
}

// Puts the line of what was lost, with so many more bytes cut off.
fn put_losses(line: &mut [u8; TEXT_BYTES], lost: Lost, beyond: u64) -> usize
    requires { (lost.first.missing ≤ longest) × (lost.first.dropped ≤ longest) × (lost.second.missing ≤ longest) × (lost.second.dropped ≤ longest) }
    ensures { Printed (loss_text (lost_more beyond lost)) line.old line.new result }
{
    let numbers = [
        lost.first.missing as u32,
        lost.first.dropped as u32,
        lost.second.missing as u32,
        lost.second.dropped as u32,
    ];
    put_five(line, &numbers, cut_told(lost.cut, beyond))
}

// How many bytes are told as cut off.
fn cut_told(cut: u64, beyond: u64) -> i64
    ensures { result ≡ pos (min (cut + beyond) most_told) }
{
    cut.saturating_add(beyond).min(MOST_TOLD) as i64
}
