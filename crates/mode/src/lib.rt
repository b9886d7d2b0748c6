// The parts of AES-GCM's mode (SP 800-38D) beside the counter: the hash key, the first block of a message, and its tag.
#![tactic(auto)]

ghost use Rattle.std.specs.Prelude.{◌≡◌, ◌^◌, ◌≤◌, ◌<◌, length, take};
ghost use Rattle.std.specs.Int.Bits.{bit_or, bit_xor};
ghost use Rattle.std.specs.List.{fold, zip};
ghost use Rattle.octets.specs.Block.{block_bytes};
ghost use Rattle.octets.specs.Bytes.{same};
ghost use Rattle.aes.specs.Under.{enciphered_under};
ghost use Rattle.hash_field.specs.Element.{value_of};
ghost use Rattle.mode.specs.Mode.{hash_key, hashed_iv, first_block, tag_by};

use aes::Cipher;
use counter::counter_block;
use ghash::{absorb, hash_bytes, length_block};
use hash_field::Element;

// The zero block enciphered (SP 800-38D: H).
#[tactic(auto, unfolding(crate::specs::Mode::hash_key))]
pub fn hash_key(cipher: Cipher) -> Element
    ensures { value_of result ≡ hash_key (enciphered_under cipher.entry) }
{
    Element::from(cipher.encipher([0u8; 16]))
}

// The first counter block of a message (SP 800-38D: J0).
#[tactic(auto, unfolding(crate::specs::Mode::first_block))]
pub fn first_block(h: Element, iv: &[u8]) -> [u8; 16]
    requires { length iv.now < 2 ^ 61 }
    ensures { result ≡ first_block (value_of h) iv.now }
{
    if iv.len() == 12 {
        return counter_block(iv, 1);
    }
    hashed_first_block(h, iv)
}

#[tactic(auto, using(crate::proofs::TagLaws::iv_hash), unfolding(hash_field::specs::Element::value_of))]
fn hashed_first_block(h: Element, iv: &[u8]) -> [u8; 16]
    requires { length iv.now < 2 ^ 61 }
    ensures { result ≡ block_bytes (hashed_iv (value_of h) iv.now) }
{
    let sum = hash_bytes(h, Element::ZERO, iv);
    <[u8; 16]>::from(absorb(h, sum, length_block(0, iv.len())))
}

// The whole tag of a ciphertext under its first block j, by the hash key h.
#[tactic(auto, using(crate::proofs::TagLaws::message_hash), unfolding(crate::specs::Mode::tag_by, hash_field::specs::Element::value_of))]
pub fn tag(cipher: Cipher, h: Element, j: [u8; 16], ad: &[u8], text: &[u8]) -> [u8; 16]
    requires ad_len_bound { (length ad.now < 2 ^ 61) × (length text.now < 2 ^ 61) }
    ensures { result ≡ tag_by (value_of h) (enciphered_under cipher.entry) j ad.now text.now }
{
    let after_ad = hash_bytes(h, Element::ZERO, ad);
    let after_text = hash_bytes(h, after_ad, text);
    let sum = absorb(h, after_text, length_block(ad.len(), text.len()));
    let mask = Element::from(cipher.encipher(j));
    <[u8; 16]>::from(sum ^ mask)
}

// Whether the given bytes are the tag's first. Every byte is looked at, also after one that differs.
#[tactic(auto, using(octets::proofs::BytesLaws::same_differences))]
pub fn same_tag(tag: [u8; 16], given: &[u8]) -> bool
    requires { length given.now ≤ 16 }
    ensures { result ≡ same given.now (take (length given.now) tag) }
{
    differences(tag, given) == 0
}

// The bits in which the given bytes and the tag's first ones differ, joined by or.
fn differences(tag: [u8; 16], given: &[u8]) -> u8
    ensures { result ≡ fold (λ before p. bit_or before (bit_xor p.0 p.1)) 0 (zip given.now tag) }
{
    given
        .iter()
        .zip(&tag)
        .fold(0, |before, (a, b)| before | (a ^ b))
}
