// Reads sitting files: A, D, n, m, n symbols, m symbols, each a number in groups of seven bits.
#![tactic(auto)]

ghost use Rattle.std.specs.Prelude.{◌≡◌, min, ◌+◌};
ghost use Rattle.sitting_file.specs.Format.{refusal_number, judged_number, number_at, header_of, symbols_from, read_of};
ghost use Rattle.sitting_file.specs.Input.{input_bytes};
ghost use Rattle.sitting_file.specs.Samples.{InLimits};

use numbers::{DEEPEST, FEWEST_SYMBOLS, LONGEST, MOST_SYMBOLS};

// What an accepted file announces: A, D, n and m. Its symbols are its last n + m bytes.
#[derive(Clone, Copy, Debug, PartialEq, Eq)]
pub struct Shape {
    pub alphabet: u32,
    pub depth: u32,
    pub first: u32,
    pub second: u32,
}

// Why a file is refused.
#[derive(Clone, Copy, Debug, PartialEq, Eq)]
pub enum Refusal {
    EndsEarly,
    NotShortest,
    OutsideLimits,
    BytesLeft,
}

// Document 01's number of a refusal.
impl From<Refusal> for u32 {
    ghost from_gives = { λ why n. n ≡ refusal_number why };

    fn from(why: Refusal) -> u32 {
        match why {
            Refusal::EndsEarly => 13,
            Refusal::NotShortest => 14,
            Refusal::OutsideLimits => 15,
            Refusal::BytesLeft => 16,
        }
    }
}

// How many bytes of its input a program reads at most.
pub const INPUT_BYTES: usize = 4608;

// A byte below this is the last group of its number.
pub const HIGH_BIT: u32 = 128;

// Whether a file is a sitting's, and why not. The promise is an equation, so it allows one answer to each file.
#[tactic(auto, unfolding(crate::specs::Format::body_of))]
pub fn read(file: &[u8]) -> Result<Shape, Refusal>
    ensures { result ≡ read_of file.now }
{
    let (shape, at) = header(file)?;
    symbols_from(file, at, shape)
}

// How many of so many bytes of input are judged.
pub fn judged_bytes(many: usize) -> usize
    ensures { result ≡ min many input_bytes }
{
    many.min(INPUT_BYTES)
}

// The header at the start of a file, whatever follows it, and the place after it. One answer to each file, as for `read`.
#[tactic(auto, unfolding(crate::specs::Format::header_up_to))]
pub fn header(file: &[u8]) -> Result<(Shape, usize), Refusal>
    ensures { result ≡ header_of file.now }
{
    let (alphabet, at) = number_at(file, 0, FEWEST_SYMBOLS, MOST_SYMBOLS)?;
    let (depth, at) = number_at(file, at, 0, DEEPEST)?;
    let (first, at) = number_at(file, at, 0, LONGEST)?;
    let (second, at) = number_at(file, at, 0, LONGEST)?;
    let shape = Shape {
        alphabet,
        depth,
        first,
        second,
    };
    Ok((shape, at))
}

// The symbols of a file whose header has been read, and nothing after them.
#[tactic(auto, using(crate::proofs::Places::symbol_refused, crate::proofs::Places::symbol_read, crate::proofs::Places::all_read, crate::proofs::Places::more_bytes))]
fn symbols_from(file: &[u8], from: usize, shape: Shape) -> Result<Shape, Refusal>
    requires { InLimits shape }
    ensures { result ≡ symbols_from file.now shape (shape.first + shape.second) from }
{
    let mut at = from;
    for _ in 0..shape.first + shape.second {
        let (_, next) = number_at(file, at, 0, shape.alphabet - 1)?;
        at = next;
    }
    if at < file.len() {
        return Err(Refusal::BytesLeft);
    }
    Ok(shape)
}

// The number that stands at a place, and the place after it. It has two groups at most. The limits and the place stay apart: no plainer as a range, which has a
// flag of its own, or as a reader that goes on, which each contract would have to follow.
#[tactic(auto, unfolding(crate::specs::Format::first_group, crate::specs::Format::second_group))]
fn number_at(file: &[u8], at: usize, low: u32, high: u32) -> Result<(u32, usize), Refusal>
    ensures { result ≡ number_at file.now at low high }
{
    if file.len() <= at {
        return Err(Refusal::EndsEarly);
    }
    let lowest = u32::from(file[at]);
    let next = at + 1;
    if lowest < HIGH_BIT {
        return judged(low, high, lowest, next);
    }
    if file.len() <= next {
        return Err(Refusal::EndsEarly);
    }
    let highest = u32::from(file[next]);
    if highest == 0 || HIGH_BIT <= highest {
        return Err(Refusal::NotShortest);
    }
    judged(low, high, lowest - HIGH_BIT + HIGH_BIT * highest, next + 1)
}

// A number that has been read whole, judged by its limits.
#[tactic(auto, unfolding(crate::specs::Format::judged_number))]
fn judged(low: u32, high: u32, value: u32, next: usize) -> Result<(u32, usize), Refusal>
    ensures { result ≡ judged_number low high value next }
{
    if (low..=high).contains(&value) {
        Ok((value, next))
    } else {
        Err(Refusal::OutsideLimits)
    }
}
