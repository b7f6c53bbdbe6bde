// Writes sitting files: A, D, n and m in their shortest forms, then the symbols, a byte each.
#![tactic(auto)]

ghost use Rattle.std.specs.Prelude.{◌≡◌, [], ◌++◌, ◌+◌, ◌<◌, ◌≤◌, length};
ghost use Rattle.placing.specs.Placing.{HasRoom, Puts};
ghost use Rattle.sitting_file.specs.Samples.{InLimits, Below};
ghost use Rattle.sitting_file.specs.Verdict.{two_groups, shortest, written, with_header};
ghost use Rattle.writing.specs.Writing.{all_below, good_values, refusal_number, writing_outcome, WritesFile};

use numbers::{DEEPEST, FEWEST_SYMBOLS, LONGEST, MOST_SYMBOLS};
use placing::{put_byte, put_bytes};
use sitting_file::{HIGH_BIT, Shape};

// Why a file is not written.
#[derive(Clone, Copy, Debug, PartialEq, Eq)]
pub enum Refusal {
    BadValues,
    BufferShort,
}

// Document 02's number of a refusal.
impl From<Refusal> for u32 {
    ghost from_gives = { λ why n. n ≡ refusal_number why };

    fn from(why: Refusal) -> u32 {
        match why {
            Refusal::BadValues => 15,
            Refusal::BufferShort => 19,
        }
    }
}

// A sitting whose values are within their limits: the numbers of its header, and its samples.
#[derive(Clone, Copy)]
struct Sitting<'a> {
    shape: Shape,
    first: &'a [u8],
    second: &'a [u8],
    ghost in_limits: { InLimits shape },
    ghost first_below: { Below shape.alphabet first.now },
    ghost second_below: { Below shape.alphabet second.now },
}

impl Sitting<'_> {
    // How many bytes its file has. A and D have a byte each.
    fn file_size(&self) -> usize
        ensures { result ≡ 2 + (length (shortest self.now.shape.first) + length (shortest self.now.shape.second)) + (self.now.shape.first + self.now.shape.second) }
    {
        let shape = self.shape;
        2 + number_size(shape.first)
            + number_size(shape.second)
            + (shape.first + shape.second) as usize
    }

    // Puts its file at the start of bytes that have room for it, and answers its length.
    fn put_file(&self, file: &mut [u8]) -> usize
        requires { HasRoom (written (with_header self.now.shape (self.now.first.now ++ self.now.second.now))) 0 file.old }
        ensures { Puts (written (with_header self.now.shape (self.now.first.now ++ self.now.second.now))) 0 file.old file.new result }
    {
        let at = self.put_header(file);
        let middle = put_bytes(file, at, self.first);
        put_bytes(file, middle, self.second)
    }

    // Puts the four numbers of its header at the start, and answers the place after them.
    fn put_header(&self, file: &mut [u8]) -> usize
        requires { HasRoom (written (with_header self.now.shape [])) 0 file.old }
        ensures { Puts (written (with_header self.now.shape [])) 0 file.old file.new result }
    {
        let past_alphabet = put_number(file, 0, self.shape.alphabet);
        let past_depth = put_number(file, past_alphabet, self.shape.depth);
        let past_first = put_number(file, past_depth, self.shape.first);
        put_number(file, past_first, self.shape.second)
    }
}

// Writes the file of a sitting at the start of the bytes lent, and answers how many bytes it has. Those past its end stay.
pub fn write(
    first: &[u8],
    second: &[u8],
    alphabet: u32,
    depth: u32,
    file: &mut [u8],
) -> Result<usize, Refusal>
    ensures { WritesFile alphabet depth first.now second.now file.old (writing_outcome result) file.new }
{
    if !good_values(first, second, alphabet, depth) {
        return Err(Refusal::BadValues);
    }
    let shape = Shape {
        alphabet,
        depth,
        first: first.len() as u32,
        second: second.len() as u32,
    };
    let sitting = Sitting {
        shape,
        first,
        second,
    };
    if file.len() < sitting.file_size() {
        return Err(Refusal::BufferShort);
    }
    let size = sitting.put_file(file);
    Ok(size)
}

// Whether A, D, the lengths and the symbols are within their limits. The four values stay apart until they are: a `Sitting` is one whose values are good.
#[tactic(auto, unfolding(crate::specs::Writing::good_values))]
fn good_values(first: &[u8], second: &[u8], alphabet: u32, depth: u32) -> bool
    ensures { result ≡ good_values alphabet depth first.now second.now }
{
    (FEWEST_SYMBOLS..=MOST_SYMBOLS).contains(&alphabet)
        && depth <= DEEPEST
        && first.len() <= LONGEST as usize
        && second.len() <= LONGEST as usize
        && all_below(first, alphabet)
        && all_below(second, alphabet)
}

// Whether each symbol is below A.
fn all_below(symbols: &[u8], alphabet: u32) -> bool
    ensures { result ≡ all_below alphabet symbols.now }
{
    symbols.iter().all(|&a| u32::from(a) < alphabet)
}

// How many bytes a number's shortest form has.
#[tactic(auto, unfolding(sitting_file::specs::Verdict::shortest))]
fn number_size(value: u32) -> usize
    ensures { (result ≡ length (shortest value)) × (result ≤ 2) }
{
    if value < HIGH_BIT { 1 } else { 2 }
}

// Puts a number in its shortest form at a place, and answers the place after it.
#[tactic(auto, using(placing::proofs::Laws::room_front, placing::proofs::Laws::room_back, placing::proofs::Laws::puts_then), unfolding(sitting_file::specs::Verdict::shortest))]
fn put_number(file: &mut [u8], at: usize, number: u32) -> usize
    requires { (number < two_groups) × HasRoom (shortest number) at file.old }
    ensures { Puts (shortest number) at file.old file.new result }
{
    if number < HIGH_BIT {
        return put_byte(file, at, number as u8);
    }
    let next = put_byte(file, at, (HIGH_BIT + number % HIGH_BIT) as u8);
    put_byte(file, next, (number / HIGH_BIT) as u8)
}
