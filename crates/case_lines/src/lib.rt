// What the lines of the cases' program are made of.
#![tactic(auto)]

ghost use Rattle.std.specs.Prelude.{◌≡◌, take, Some};
ghost use Rattle.hexadecimal.specs.Hex.{encoded};

use answer::{Refusal, number};
use std::{fmt, io};

// Bytes, printed as hex.
#[derive(Clone, Copy)]
pub struct Hex<'a>(pub &'a [u8]);

impl fmt::Display for Hex<'_> {
    ghost output = { λ hex. Some (encoded hex.0.now) };

    fn fmt<W: fmt::Write>(&self, f: &mut fmt::Formatter<W>) -> fmt::Result {
        for b in self.0 {
            let byte = *b;
            write!(f, "{byte:02x}")?;
        }
        Ok(())
    }
}

// Prints what a call answered, by its number (rules R2.0 to R2.11).
pub fn print_answer<T: Copy>(rt: &impl Print, answer: Result<T, Refusal>) -> io::Result<()> {
    print!(rt; " {}", number(answer))
}

// The first n bytes, or all where there are fewer.
pub fn front(bytes: &[u8], n: usize) -> &[u8]
    ensures { result.now ≡ take n bytes.now }
{
    &bytes[..bytes.len().min(n)]
}
