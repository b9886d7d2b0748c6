// The hash of SP 800-38D: the elements that it takes in, and the block of lengths that ends it.
#![tactic(auto)]

ghost use Rattle.std.specs.Prelude.{◌≡◌, ◌^◌, ◌≤◌, ◌<◌, length};
ghost use Rattle.std.specs.Int.Bits.{bit_xor};
ghost use Rattle.octets.specs.Block.{number_at, padded};
ghost use Rattle.hash_field.specs.Element.{value_of};
ghost use Rattle.hash_field.specs.Field.{product};
ghost use Rattle.ghash.specs.Hash.{hash_from, length_block};

use hash_field::Element;
use octets::long_at;

// The element that sixteen bytes of s make, from index `at` on, with zeros for those past its end. For whoever reads a block out of a
// list: `hash_bytes` fills its last block by itself, since by a call of this the library would import memset.
pub fn element_at(s: &[u8], at: usize) -> Element
    requires { at ≤ length s.now }
    ensures { value_of result ≡ number_at s.now at }
{
    if s.len() - at >= 16 {
        return Element {
            high: long_at(s, at),
            low: long_at(s, at + 8),
        };
    }
    let rest = &s[at..];
    let mut block = [0u8; 16];
    block[..rest.len()].copy_from_slice(rest);
    Element::from(block)
}

// The hash after one block more: x, where it was `sum`. Here and below h and the sum come apart, since C holds the one in the
// channel and the other in its message: a pair would be made for each call, whose contract had to say that h stays.
pub fn absorb(h: Element, sum: Element, x: Element) -> Element
    ensures { value_of result ≡ product (bit_xor (value_of sum) (value_of x)) (value_of h) }
{
    (sum ^ x) * h
}

// The hash after the blocks of s, zero-padded to whole blocks, where it was `sum` (SP 800-38D: GHASH).
#[tactic(auto, using(crate::proofs::HashLaws::hash_next))]
pub fn hash_bytes(h: Element, sum: Element, s: &[u8]) -> Element
    ensures { value_of result ≡ hash_from (value_of h) (value_of sum) (padded s.now) }
{
    let mut state = sum;
    let (blocks, rest) = s.as_chunks::<16>();
    for block in blocks {
        state = absorb(h, state, Element::from(*block));
    }
    if rest.is_empty() {
        return state;
    }
    let mut last = [0u8; 16];
    last[..rest.len()].copy_from_slice(rest);
    absorb(h, state, Element::from(last))
}

// The block of two lengths in bytes, as their counts of bits. These have to fit in 64 bits, so `mode` asks the same of what it
// hashes: no type of a slice says how long it is.
#[tactic(auto, unfolding(hash_field::specs::Element::value_of))]
pub fn length_block(a: usize, b: usize) -> Element
    requires { (a < 2 ^ 61) × (b < 2 ^ 61) }
    ensures { value_of result ≡ length_block a b }
{
    Element {
        high: (a as u64) * 8,
        low: (b as u64) * 8,
    }
}
