// The numbers of a script: runs of decimal digits. Every other byte only parts them.
ghost use Rattle.std.specs.Prelude.{◌≤◌, length};
ghost use Rattle.std.specs.Iterator.{at_most};

// A script, as far as it has not been read.
#[derive(Drop)]
pub(crate) struct Script<'a> {
    rest: &'a [u8],
}

impl<'a> Script<'a> {
    pub(crate) fn new(text: &'a [u8]) -> Script<'a> {
        Script { rest: text }
    }

    // The next number; 0 where there is none.
    pub(crate) fn number(&mut self) -> u32
        ensures { length self.new.rest.now ≤ length self.old.rest.now }
    {
        self.next().unwrap_or(0)
    }

    // As many numbers as a call has.
    pub(crate) fn numbers<const N: usize>(&mut self) -> [u32; N]
        ensures { length self.new.rest.now ≤ length self.old.rest.now }
    {
        let mut numbers = [0; N];
        for number in numbers.iter_mut() {
            *number = self.number();
        }
        numbers
    }

    // Reads a symbol for each byte of a part.
    pub(crate) fn symbols(&mut self, symbols: &mut [u8])
        ensures { length self.new.rest.now ≤ length self.old.rest.now }
    {
        for symbol in symbols {
            // Symbols above a byte are above every alphabet, and so is the largest byte.
            *symbol = u8::try_from(self.number()).unwrap_or(u8::MAX);
        }
    }
}

impl Iterator for Script<'_> {
    type Item = u32;

    // Nothing is read twice.
    ghost next_gives = { λ s _ t. length t.rest.now ≤ length s.rest.now };

    // Every number has a digit.
    ghost remaining = { λ s. at_most (length s.rest.now) };

    fn next(&mut self) -> Option<u32> {
        let first = self.rest.iter().position(u8::is_ascii_digit)?;
        let text = &self.rest[first..];
        let digits = text.iter().take_while(|byte| byte.is_ascii_digit()).count();
        self.rest = &text[digits..];
        Some(number_of(&text[..digits]))
    }
}

// What digits stand for. No number of a script is above the largest of 32 bits.
fn number_of(digits: &[u8]) -> u32 {
    digits
        .iter()
        .filter_map(|digit| char::from(*digit).to_digit(10))
        .fold(0, |value: u32, digit| {
            value.saturating_mul(10).saturating_add(digit)
        })
}
