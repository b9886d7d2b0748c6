// A piece of text, which may start or end inside a block: its bytes crypted, and its ciphertext taken into the hash.
#![tactic(auto)]

pub mod block;

ghost use Rattle.std.specs.Prelude.{◌≡◌, ◌++◌, ◌≤◌, ◌<◌, ◌^◌, length, drop};
ghost use Rattle.aes.specs.Under.{enciphered_under};
ghost use Rattle.hash_field.specs.Element.{value_of};
ghost use Rattle.pieces.specs.Piece.{iv_of, counter_at, crypted_at, Absorbed};

use aes::Cipher;
use block::sixteen_of;
use counter::{counter_block, crypt, step, xor_into};
use ghash::{absorb, hash_bytes};
use hash_field::Element;

// A message's IV: the mark, then the number.
pub fn iv_of(mark: [u8; 4], number: u64) -> [u8; 12]
    ensures { result ≡ iv_of mark number }
{
    let mut iv = [0u8; 12];
    iv[..4].copy_from_slice(&mark);
    iv[4..].copy_from_slice(&number.to_be_bytes());
    iv
}

// The counter block of an IV after k blocks of text.
#[tactic(auto, unfolding(crate::specs::Piece::counter_at))]
pub fn counter_at(iv: [u8; 12], k: usize) -> [u8; 16]
    requires { k < 2 ^ 32 }
    ensures { result ≡ counter_at iv k }
{
    counter_block(&iv, (k as u32).wrapping_add(1))
}

// The piece crypted to the front of `out`, where `before` bytes of text went before it.
pub fn crypt_at(out: &mut [u8], cipher: Cipher, iv: [u8; 12], before: usize, piece: &[u8])
    requires before_bound { before < 2 ^ 32 }
    requires piece_in_bounds { length piece.now ≤ length out.old }
    ensures { out.new ≡ crypted_at (enciphered_under cipher.entry) iv before piece.now ++ drop (length piece.now) out.old }
{
    let held = before % 16;
    let counter = counter_at(iv, before / 16);
    if held == 0 {
        crypt(out, cipher, counter, piece);
        return;
    }
    let next = step(counter);
    let block = cipher.encipher(next);
    let n = (16 - held).min(piece.len());
    xor_into(&mut out[..n], &piece[..n], &block[held..]);
    crypt(&mut out[n..], cipher, next, &piece[n..]);
}

// A hash, and the bytes that wait for the rest of their block.
#[derive(Clone, Copy)]
pub struct Held {
    pub sum: Element,
    pub part: [u8; 16],
}

// The hash after the bytes held and then `more`: whole blocks go in, and the rest is held.
pub fn absorb_bytes(h: Element, sum: Element, held: &[u8], more: &[u8]) -> Held
    requires { length held.now < 16 }
    ensures { Absorbed (value_of h) (value_of sum) (held.now ++ more.now) result }
{
    let block = sixteen_of(held, more);
    if held.len() + more.len() < 16 {
        return Held { sum, part: block };
    }
    let first = absorb(h, sum, Element::from(block));
    let rest = &more[16 - held.len()..];
    let (whole, part) = rest.split_at(rest.len() / 16 * 16);
    Held {
        sum: hash_bytes(h, first, whole),
        part: sixteen_of(part, b""),
    }
}
