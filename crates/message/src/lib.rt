// The message in progress: begun over its associated data, longer by each piece of ciphertext, and its tag at the end.
#![tactic(auto)]

ghost use Rattle.std.specs.Prelude.{◌≡◌, ◌+◌, ◌^◌, ◌<◌, length, take};
ghost use Rattle.hash_field.specs.Element.{value_of};
ghost use Rattle.pieces.specs.Piece.{sixteen};
ghost use Rattle.message.specs.Message.{no_message, message_begun, message_after, whole_sum};

use ghash::{absorb, hash_bytes, length_block};
use hash_field::Element;
use pieces::block::sixteen_of;
use pieces::{Held, absorb_bytes};

// The message in progress, all zeros where there is none.
#[repr(C)]
#[derive(Clone, Copy)]
pub struct Message {
    pub number: u64,
    // The hash so far, over the associated data and every whole block of ciphertext.
    pub sum: Element,
    // The ciphertext bytes behind the last whole block, and zeros; `text` tells how many, in the struct that C holds.
    pub part: [u8; 16],
    // Not 0 while a message is open. A number, no enum or `Option`: C holds the struct and may hand in any.
    pub phase: u32,
    // The bytes of associated data, and of text so far.
    pub ad: u32,
    pub text: u32,
}

// No message: every field zero.
pub fn no_message() -> Message
    ensures { result ≡ no_message }
{
    Message {
        number: 0,
        sum: Element::ZERO,
        part: [0u8; 16],
        phase: 0,
        ad: 0,
        text: 0,
    }
}

// A message under a number, with its associated data in the hash and no text yet.
pub fn message_begun(h: Element, n: u64, ad: &[u8]) -> Message
    requires { length ad.now < 2 ^ 32 }
    ensures { result ≡ message_begun (value_of h) n ad.now }
{
    Message {
        number: n,
        sum: hash_bytes(h, Element::ZERO, ad),
        part: [0u8; 16],
        phase: 1,
        ad: ad.len() as u32,
        text: 0,
    }
}

// The message with bytes of ciphertext taken in.
#[tactic(auto, unfolding(crate::specs::Message::message_after))]
pub fn message_after(h: Element, m: Message, bytes: &[u8]) -> Message
    requires { m.text + length bytes.now < 2 ^ 32 }
    ensures { result ≡ message_after (value_of h) m bytes.now }
{
    let held = (m.text % 16) as usize;
    let Held { sum, part } = absorb_bytes(h, m.sum, &m.part[..held], bytes);
    Message {
        sum,
        part,
        text: m.text + bytes.len() as u32,
        ..m
    }
}

// The hash of the whole message, its lengths behind it.
#[tactic(auto, using(ghash::proofs::HashLaws::hash_behind), unfolding(crate::specs::Message::whole_sum))]
pub fn message_sum(h: Element, m: Message) -> Element
    ensures { value_of result ≡ whole_sum (value_of h) m }
{
    let held = (m.text % 16) as usize;
    let hashed = hash_bytes(h, m.sum, &m.part[..held]);
    absorb(h, hashed, length_block(m.ad as usize, m.text as usize))
}

// The block's first t bytes, and zeros.
#[tactic(auto, using(pieces::proofs::SixteenLaws::sixteen_taken))]
pub fn cut(block: [u8; 16], t: u32) -> [u8; 16]
    ensures { result ≡ sixteen (take t block) }
{
    if 16 <= t {
        return block;
    }
    let n = t as usize;
    sixteen_of(&block[..n], b"")
}
