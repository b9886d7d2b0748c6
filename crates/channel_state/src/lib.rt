// A channel and what its calls make of it: a new one, a message begun, a piece taken in, a message's tag, a message ended.
#![tactic(auto)]

ghost use Rattle.std.specs.Prelude.{◌≡◌, ◌++◌, ◌+◌, ◌^◌, ◌≤◌, ◌<◌, length, take, drop};
ghost use Rattle.pieces.specs.Piece.{sixteen};
ghost use Rattle.message.specs.Message.{no_message};
ghost use Rattle.channel_state.specs.State.{dead_channel, new_channel, begun_with, piece_of, message_with, with_message};
ghost use Rattle.channel_state.specs.State.{rounds_in, message_tag};

use aes::Cipher;
use hash_field::Element;
use ledger::{Ledger, accept, fresh};
use message::{Message, cut, message_after, message_begun, message_sum, no_message};
use mode::hash_key;
use pieces::{counter_at, crypt_at, iv_of};
use sbox::Table;
use schedule::expand;

// A station's mark: the first four bytes of every IV of its channel.
#[repr(C)]
#[derive(Clone, Copy)]
pub struct Mark(pub [u8; 4]);

// A message's number: the last eight bytes of its IV, the highest first.
#[repr(C)]
#[derive(Clone, Copy)]
pub struct Number(pub u64);

// A channel. All zeros is the dead one.
#[repr(C)]
#[derive(Clone, Copy)]
pub struct Channel {
    pub words: [u32; 60],
    pub h: Element,
    pub mark: [u8; 4],
    // How many rounds, and the tag's length in bytes, which no living channel has as 0. Numbers, no enum or `Option`: C holds the
    // struct and may hand in any.
    pub rounds: u32,
    pub tag: u32,
    pub ledger: Ledger,
    pub message: Message,
}

// The dead channel.
pub fn dead() -> Channel
    ensures { result ≡ dead_channel }
{
    Channel {
        words: [0u32; 60],
        h: Element::ZERO,
        mark: [0u8; 4],
        rounds: 0,
        tag: 0,
        ledger: fresh(),
        message: no_message(),
    }
}

// The channel that a key, a mark and a tag length open.
#[tactic(auto, using(hash_field::proofs::ElementLaws::element_is), unfolding(crate::specs::State::new_channel, aes::specs::Cipher::enciphered))]
pub fn new_channel(key: &[u8], mark: Mark, tag_len: usize) -> Channel
    requires in_bounds { (16 ≤ length key.now) × (length key.now ≤ 32) }
    requires tag_len_bound { tag_len ≤ 16 }
    ensures { result ≡ new_channel key.now mark.0 tag_len }
{
    let table = Table::new();
    let words = expand(&table, key);
    let cipher = Cipher {
        table: &table,
        words: &words,
        rounds: key.len() / 4 + 6,
    };
    let Mark(mark) = mark;
    Channel {
        words,
        h: hash_key(cipher),
        mark,
        rounds: cipher.rounds as u32,
        tag: tag_len as u32,
        ledger: fresh(),
        message: no_message(),
    }
}

// The channel with a message begun under the number n, which is used from then on.
#[tactic(auto, unfolding(crate::specs::State::begun_with))]
pub fn begun(c: Channel, n: u64, ad: &[u8]) -> Channel
    requires { length ad.now < 2 ^ 32 }
    ensures { result ≡ begun_with c n ad.now }
{
    Channel {
        ledger: accept(c.ledger, n),
        message: message_begun(c.h, n, ad),
        ..c
    }
}

// The ciphertext of a piece of the open message, written to the front of `out`.
#[tactic(auto, unfolding(crate::specs::State::piece_of))]
pub fn crypt_piece(out: &mut [u8], c: &Channel, piece: &[u8])
    requires { length piece.now ≤ length out.old }
    ensures { out.new ≡ piece_of c.now piece.now ++ drop (length piece.now) out.old }
{
    let table = Table::new();
    let iv = iv_of(c.mark, c.message.number);
    let before = c.message.text as usize;
    crypt_at(out, cipher(c, &table), iv, before, piece);
}

// The channel with ciphertext bytes taken into its open message.
pub fn with_bytes(c: Channel, bytes: &[u8]) -> Channel
    requires { c.message.text + length bytes.now < 2 ^ 32 }
    ensures { result ≡ with_message c (message_with c bytes.now) }
{
    Channel {
        message: message_after(c.h, c.message, bytes),
        ..c
    }
}

// The channel with no message; all else stays.
pub fn ended(c: Channel) -> Channel
    ensures { result ≡ with_message c no_message }
{
    Channel {
        message: no_message(),
        ..c
    }
}

// The tag of the open message, zeros past the tag's length.
#[tactic(auto, unfolding(crate::specs::State::message_tag))]
pub fn message_tag(c: &Channel) -> [u8; 16]
    ensures { result ≡ sixteen (take c.now.tag (message_tag c.now)) }
{
    let table = Table::new();
    let sum = message_sum(c.h, c.message);
    let first = counter_at(iv_of(c.mark, c.message.number), 0);
    let mask = Element::from(cipher(c, &table).encipher(first));
    cut(<[u8; 16]>::from(sum ^ mask), c.tag)
}

// The channel's cipher. It has as many rounds as one of the two key lengths asks for, also where the field holds no such count.
fn cipher<'a>(c: &'a Channel, table: &'a Table) -> Cipher<'a>
    ensures words { result.words.now ≡ c.now.words }
    ensures rounds { result.rounds ≡ rounds_in c.now }
{
    Cipher {
        table,
        words: &c.words,
        rounds: if c.rounds == 14 { 14 } else { 10 },
    }
}
