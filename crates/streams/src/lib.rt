// Reading and writing as the programs do it: a reading or a writing that fails ends there, and the program goes on.
#![tactic(auto)]

ghost use Rattle.std.specs.Prelude.{◌≡◌, ◌≤◌, length, take, true};
ghost use Rattle.std.specs.Io.KnownBytes.{Consumes, Appends};

use std::io::{Read, Write};

// Reads until the buffer is full, the input ends or a reading fails, and answers how many bytes it put at the buffer's start. For an empty buffer
// nothing is read. What may not change: where the input ends early `read_exact` does not say how many bytes it found, which `bytes` promises.
pub fn read_full<R: Read>(from: &mut R, buffer: &mut [u8]) -> usize
    ensures within { result ≤ length buffer.new }
    ensures taken { result ≡ length (take result buffer.new) }
    ensures bytes { Consumes (R.remaining from.old) (R.remaining from.new) (take result buffer.new) }
{
    let mut done = 0;
    while done < buffer.len() {
        let found = read_some(from, &mut buffer[done..]);
        if found == 0 {
            break;
        }
        done += found;
    }
    done
}

// One reading: how many bytes it found, 0 where it failed. No plainer as an Option: a reading that fails ends there as one that finds nothing does.
fn read_some<R: Read>(from: &mut R, buffer: &mut [u8]) -> usize
    ensures within { result ≤ length buffer.new }
    ensures bytes { Consumes (R.remaining from.old) (R.remaining from.new) (take result buffer.new) }
{
    from.read(buffer).unwrap_or(0)
}

// Writes a text, and answers whether all of it was written. What may not change: its callers ask no more, and it is named in docs/PROMISES.md.
pub fn write_full<W: Write>(to: &mut W, text: &[u8]) -> bool
    ensures { result ≡ true → Appends (W.contents to.old) (W.contents to.new) text.now }
{
    to.write_all(text).is_ok()
}
