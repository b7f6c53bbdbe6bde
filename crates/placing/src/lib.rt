// Bytes put into lent bytes at a place, one piece after another.
#![tactic(auto)]

ghost use Rattle.std.specs.Prelude.{[], ◌∷◌};
ghost use Rattle.placing.specs.Placing.{HasRoom, Puts};

// Puts a piece at a place, and answers the place after it. The bytes and the place stay two values: a struct that held the lent bytes would ask of each
// function a clause more, that it still holds the same ones, so it is no plainer. Byte by byte and not by `copy_from_slice`, by which the library for C would need
// `memmove` from outside.
pub fn put_bytes(buffer: &mut [u8], at: usize, piece: &[u8]) -> usize
    requires { HasRoom piece.now at buffer.old }
    ensures { Puts piece.now at buffer.old buffer.new result }
{
    for (i, &byte) in piece.iter().enumerate() {
        buffer[at + i] = byte;
    }
    at + piece.len()
}

// Puts one byte at a place, and answers the place after it.
pub fn put_byte(buffer: &mut [u8], at: usize, byte: u8) -> usize
    requires { HasRoom (byte ∷ []) at buffer.old }
    ensures { Puts (byte ∷ []) at buffer.old buffer.new result }
{
    put_bytes(buffer, at, &[byte])
}
