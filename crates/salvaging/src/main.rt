// Salvages a damaged sitting file: reads it from standard input, writes what is saved of it to standard output, and to standard error one line that
// tells what was lost, or the refusal.
#![tactic(auto)]

ghost use Rattle.std.specs.Prelude.{◌≤◌};

use printing::TEXT_BYTES;
use salvage_input::{MOST_TOLD, salvage_input};
use sitting_file::INPUT_BYTES;
use std::io::Read;
use streams::{read_full, write_full};

// How many bytes are read at a time to be counted.
const PIECE: usize = 65536;

// How many bytes the next reading finds: a piece, or fewer where the input ends.
fn count_piece<R: Read>(input: &mut R) -> usize
    ensures { result ≤ PIECE }
{
    let mut space = [0u8; PIECE];
    read_full(input, &mut space)
}

// How many bytes of an input follow those that filled the buffer. A proved loop has to end: this one does where more would not be told. `io::copy` into
// a sink does not serve: where a reading fails it does not say how many bytes it found before.
fn count_beyond<R: Read>(input: &mut R) -> u64 {
    let mut counted: u64 = 0;
    while counted < MOST_TOLD {
        let piece = count_piece(input);
        counted += piece as u64;
        if piece < PIECE {
            break;
        }
    }
    counted
}

// Reads, counts, lends and writes. Of the bytes read and the count, what is put out is what all of standard input asks for (salvage_input/specs/Filter
// `FiltersInput`); that these are the input's is not proved, as no contract knows what the system reads.
fn main(rt: HostRuntime) {
    let mut stdin = rt.stdin();
    let mut input = [0u8; INPUT_BYTES];
    let many = read_full(&mut stdin, &mut input);
    let beyond = if many < INPUT_BYTES {
        0
    } else {
        count_beyond(&mut stdin)
    };
    let mut file = [0u8; INPUT_BYTES];
    let mut line = [0u8; TEXT_BYTES];
    let ends = salvage_input(&input, many, beyond, &mut file, &mut line);
    let told: &[u8] = if write_full(&mut rt.stdout(), &file[..ends.file]) {
        &line[..ends.line]
    } else {
        b"the saved file could not be written\n"
    };
    write_full(&mut rt.stderr(), told);
}
