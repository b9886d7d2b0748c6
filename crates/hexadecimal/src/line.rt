// A line of hex, taken in byte by byte.
ghost use Rattle.std.specs.Prelude.{◌≡◌};
ghost use Rattle.hexadecimal.specs.Line.{fresh_line, fed, stored, count_of};

use crate::digits::digit_value;

// How many bytes the longest line stands for.
const LONGEST: usize = 4096;

// What is kept of a line while it is read: how many bytes its digits made, and the value of a last digit that has no second yet.
// The bytes are in a buffer beside it, which stays where the next line begins: so a line is copied and compared without it. A line
// that can become good no more is kept as `None`.
#[derive(Clone, Copy, PartialEq, Eq)]
pub struct Line {
    pub bytes: usize,
    pub half: Option<u8>,
}

// A line of which nothing was read yet.
pub fn fresh() -> Option<Line>
    ensures { result ≡ fresh_line }
{
    Some(Line {
        bytes: 0,
        half: None,
    })
}

// The line with the byte b behind it. A second digit puts a byte into the buffer.
#[tactic(auto, unfolding(crate::specs::Line::fed, crate::specs::Line::stored, crate::specs::Line::taken))]
pub fn feed(buffer: &mut [u8; 4096], line: Option<Line>, b: u8) -> Option<Line>
    ensures { (result ≡ fed line b) × (buffer.new ≡ stored line b buffer.old) }
{
    let Line { bytes, half } = line?;
    let value = digit_value(b)?;
    if bytes >= LONGEST {
        return None;
    }
    let Some(first) = half else {
        return Some(Line {
            bytes,
            half: Some(value),
        });
    };
    // A digit's value is below 16, which its type does not say.
    buffer[bytes] = first % 16 * 16 + value;
    Some(Line {
        bytes: bytes + 1,
        half: None,
    })
}

// How many bytes the line stands for, ended here; `None` for a line that is not good.
#[tactic(auto, unfolding(crate::specs::Line::count_of, crate::specs::Line::ends_good))]
pub fn count(line: Option<Line>) -> Option<usize>
    ensures { result ≡ count_of line }
{
    match line {
        Some(Line { bytes, half: None }) => Some(bytes),
        _ => None,
    }
}
