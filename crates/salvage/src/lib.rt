// Salvages damaged sitting files: each sample is kept up to its first byte that is no symbol, and what was lost is told.
#![tactic(auto)]

ghost use Rattle.std.specs.Prelude.{◌≡◌, take, drop};
ghost use Rattle.sitting_file.specs.Format.{header_of};
ghost use Rattle.salvage.specs.Salvage.{kept_bytes, gone_of, refusal_number, salvage_outcome, Within, Salvages};
ghost use Rattle.salvage.specs.declared.Refusal.TheVariants.{Header};

use sitting_file::{Shape, header};
use writing::write;

// What is gone of a sample: how many of its bytes did not exist, and how many that did were dropped.
#[derive(Clone, Copy, Debug, PartialEq, Eq)]
pub struct Gone {
    pub missing: u64,
    pub dropped: u64,
}

// What is lost of a damaged file: of each sample, and how many bytes after both were cut off.
#[derive(Clone, Copy, Debug, PartialEq, Eq)]
pub struct Lost {
    pub first: Gone,
    pub second: Gone,
    pub cut: u64,
}

// Why nothing is salvaged: a fault in the header, as the reader has it, or too few bytes lent for the file.
#[derive(Clone, Copy, Debug, PartialEq, Eq)]
pub enum Refusal {
    Header(sitting_file::Refusal),
    BufferShort,
}

// What is salvaged: how many bytes the saved file has, and what is lost of the damaged one.
#[derive(Clone, Copy, Debug, PartialEq, Eq)]
pub struct Salvaged {
    pub size: usize,
    pub lost: Lost,
}

// A fault that the reader finds in the header.
impl From<sitting_file::Refusal> for Refusal {
    ghost from_gives = { λ fault why. why ≡ Header fault };

    fn from(fault: sitting_file::Refusal) -> Refusal {
        Refusal::Header(fault)
    }
}

// The documents' number of a refusal.
impl From<Refusal> for u32 {
    ghost from_gives = { λ why n. n ≡ refusal_number why };

    fn from(why: Refusal) -> u32 {
        match why {
            Refusal::Header(fault) => u32::from(fault),
            Refusal::BufferShort => 19,
        }
    }
}

// Writes what can be saved of a damaged file at the start of the bytes lent, as a whole file. Those past its end stay.
pub fn salvage(damaged: &[u8], file: &mut [u8]) -> Result<Salvaged, Refusal>
    ensures { Salvages damaged.now file.old (salvage_outcome result file.new) file.new × Within result file.new }
{
    let (shape, at) = header(damaged)?;
    save(damaged, shape, at, file)
}

// The same for a file whose header has been read.
fn save(damaged: &[u8], shape: Shape, at: usize, file: &mut [u8]) -> Result<Salvaged, Refusal>
    requires { header_of damaged.now ≡ Ok (shape, at) }
    ensures { Salvages damaged.now file.old (salvage_outcome result file.new) file.new × Within result file.new }
{
    let n = shape.first as usize;
    let m = shape.second as usize;
    let (first, first_gone) = sample_at(damaged, at, n, shape.alphabet);
    let (second, second_gone) = sample_at(damaged, at + n, m, shape.alphabet);
    let lost = Lost {
        first: first_gone,
        second: second_gone,
        cut: damaged.len().saturating_sub(at + n + m) as u64,
    };
    // What is kept is a sitting's, so the writer refuses too few bytes alone.
    match write(first, second, shape.alphabet, shape.depth, file) {
        Ok(size) => Ok(Salvaged { size, lost }),
        Err(_) => Err(Refusal::BufferShort),
    }
}

// What is kept of a sample of which so many bytes are wanted from a place on, and what is gone of it.
#[tactic(auto, using(crate::proofs::Keeping::kept_fits))]
fn sample_at(bytes: &[u8], from: usize, wanted: usize, alphabet: u32) -> (&[u8], Gone)
    ensures { (result.0.now ≡ kept_bytes alphabet (take wanted (drop from bytes.now))) × (result.1 ≡ gone_of alphabet wanted (take wanted (drop from bytes.now))) }
{
    let there = part(bytes, from, wanted);
    let saved = kept(there, alphabet);
    let gone = Gone {
        missing: (wanted - there.len()) as u64,
        dropped: (there.len() - saved.len()) as u64,
    };
    (saved, gone)
}

// The bytes wanted from a place on, as far as they exist.
fn part(bytes: &[u8], from: usize, wanted: usize) -> &[u8]
    ensures { result.now ≡ take wanted (drop from bytes.now) }
{
    let rest = &bytes[from.min(bytes.len())..];
    &rest[..wanted.min(rest.len())]
}

// The bytes before the first that is not below A.
fn kept(bytes: &[u8], alphabet: u32) -> &[u8]
    ensures { result.now ≡ kept_bytes alphabet bytes.now }
{
    let end = bytes.iter().position(|&b| alphabet <= u32::from(b));
    &bytes[..end.unwrap_or(bytes.len())]
}
