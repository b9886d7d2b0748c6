// The answers of the public calls: what a call gives when all is done, or why it refuses.
#![tactic(auto)]

ghost use Rattle.std.specs.Prelude.{◌≡◌, Some};
ghost use Rattle.answer.specs.Number.{refusal_number, number_of};
ghost use Rattle.answer.specs.Sentence.{sentence};

use std::error::Error;
use std::fmt;

// Why a call refuses. Rules R2.1 (row 1) to R2.11 (row 11) number the refusals.
#[derive(Clone, Copy, Debug, PartialEq, Eq)]
pub enum Refusal {
    // The key does not have 16 or 32 bytes.
    KeyLength = 1,
    // The IV does not have 1 to 128 bytes.
    IvLength = 2,
    // The tag is not to have 12 to 16 bytes.
    TagLength = 3,
    // The associated data has more than 65,536 bytes.
    AdLong = 4,
    // The text has more than 65,536 bytes.
    TextLong = 5,
    // The sealed bytes are fewer than the tag's.
    SealedShort = 6,
    // The output is shorter than what is to be written.
    OutputShort = 7,
    // The tag is not the one that these bytes have.
    TagDiffers = 8,
    // The channel is in another phase, or dead.
    WrongPhase = 9,
    // The number lies too far below the highest accepted.
    Stale = 10,
    // The number was accepted before.
    Used = 11,
}

// The refusal's number, that of its row.
impl From<Refusal> for u8 {
    ghost from_gives = { λ refusal number. number ≡ refusal_number refusal };

    fn from(refusal: Refusal) -> u8 {
        refusal as u8
    }
}

// What a reader is told of the refusal.
impl fmt::Display for Refusal {
    ghost output = { λ refusal. Some (sentence refusal) };

    fn fmt<W: fmt::Write>(&self, f: &mut fmt::Formatter<W>) -> fmt::Result {
        match self {
            Refusal::KeyLength => f.write_str("the key has neither 16 nor 32 bytes"),
            Refusal::IvLength => f.write_str("the IV does not have 1 to 128 bytes"),
            Refusal::TagLength => f.write_str("the tag is not to have 12 to 16 bytes"),
            Refusal::AdLong => f.write_str("the associated data has more than 65,536 bytes"),
            Refusal::TextLong => f.write_str("the text has more than 65,536 bytes"),
            Refusal::SealedShort => f.write_str("the sealed bytes are fewer than the tag's"),
            Refusal::OutputShort => f.write_str("the output is shorter than what is to be written"),
            Refusal::TagDiffers => f.write_str("the tag is not the one that these bytes have"),
            Refusal::WrongPhase => f.write_str("the channel is in another phase, or dead"),
            Refusal::Stale => f.write_str("the number lies too far below the highest accepted"),
            Refusal::Used => f.write_str("the number was accepted before"),
        }
    }
}

impl Error for Refusal {}

// The answer's number: 0 where all is done (rule R2.0), and else the refusal's.
pub fn number<T: Copy>(answer: Result<T, Refusal>) -> u8
    ensures { result ≡ number_of answer }
{
    match answer {
        Ok(_) => 0,
        Err(refusal) => u8::from(refusal),
    }
}
