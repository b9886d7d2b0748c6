// The hash field of SP 800-38D: its elements, their sum and their product.
#![tactic(auto)]

ghost use Rattle.std.specs.Prelude.{◌≡◌, ◌*◌, ◌<◌};
ghost use Rattle.std.specs.Int.Bits.{bit_xor};
ghost use Rattle.octets.specs.Block.{number_at, block_bytes};
ghost use Rattle.hash_field.specs.Element.{value_of, times_power};
ghost use Rattle.hash_field.specs.Field.{times_a, sum_of, product};

use octets::long_at;
use std::ops::{BitXor, Mul};

// An element of the hash field: a block's first and last eight bytes, each as a big-endian number.
#[repr(C)]
#[derive(Clone, Copy)]
pub struct Element {
    pub high: u64,
    pub low: u64,
}

impl Element {
    pub const ZERO: Element = Element { high: 0, low: 0 };

    // Times a: every bit one place toward the last byte, and e1 into byte 0 if one fell out.
    fn times_a(self) -> Element
        ensures { value_of result ≡ times_a (value_of self) }
    {
        Element {
            high: (self.high >> 1) ^ ((self.low % 2) * 0xe100000000000000),
            low: (self.low >> 1) | (self.high << 63),
        }
    }

    // The element for the bit 1, zero for the bit 0, without a branch.
    #[tactic(auto, unfolding(crate::specs::Element::value_of))]
    fn times_bit(self, bit: u64) -> Element
        requires { bit < 2 }
        ensures { value_of result ≡ bit * value_of self }
    {
        Element {
            high: bit * self.high,
            low: bit * self.low,
        }
    }
}

// The element that a block's bytes make.
impl From<[u8; 16]> for Element {
    ghost from_gives = { λ block e. value_of e ≡ number_at block 0 };

    #[tactic(auto, unfolding(crate::specs::Element::value_of))]
    fn from(block: [u8; 16]) -> Element {
        Element {
            high: long_at(&block, 0),
            low: long_at(&block, 8),
        }
    }
}

// The sixteen bytes of an element.
impl From<Element> for [u8; 16] {
    ghost from_gives = { λ e block. block ≡ block_bytes (value_of e) };

    fn from(e: Element) -> [u8; 16] {
        ((u128::from(e.high) << 64) | u128::from(e.low)).to_be_bytes()
    }
}

// The sum of two elements.
impl BitXor for Element {
    type Output = Element;

    ghost bitxor_gives = { λ a b r. value_of r ≡ bit_xor (value_of a) (value_of b) };

    fn bitxor(self, rhs: Element) -> Element {
        Element {
            high: self.high ^ rhs.high,
            low: self.low ^ rhs.low,
        }
    }
}

// A product on its way: the sum so far, and y times the power of a whose turn it is.
#[derive(Clone, Copy)]
struct Partial {
    sum: Element,
    power: Element,
}

impl Partial {
    // The sum with y, y·a, y·a^2 and so on added, over those of 64 bits that are set, the highest first.
    fn add_powers(self, bits: u64) -> Partial
        ensures sum_value { value_of result.sum ≡ bit_xor (value_of self.sum) (sum_of 64 bits (value_of self.power)) }
        ensures power_value { value_of result.power ≡ times_power 64 (value_of self.power) }
    {
        let mut partial = self;
        for i in 0..64u32 {
            partial = Partial {
                sum: partial.sum ^ partial.power.times_bit((bits >> (63 - i)) % 2),
                power: partial.power.times_a(),
            };
        }
        partial
    }
}

// The product of two elements.
impl Mul for Element {
    type Output = Element;

    ghost mul_gives = { λ x y r. value_of r ≡ product (value_of x) (value_of y) };

    #[tactic(auto, using(crate::proofs::SumLaws::product_halves), unfolding(crate::specs::Element::value_of))]
    fn mul(self, rhs: Element) -> Element {
        let start = Partial {
            sum: Element::ZERO,
            power: rhs,
        };
        start.add_powers(self.high).add_powers(self.low).sum
    }
}
