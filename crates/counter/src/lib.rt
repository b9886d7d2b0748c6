// The counter blocks, and the text xored with what they encipher to.
#![tactic(auto)]

ghost use Rattle.std.specs.Prelude.{◌≡◌, ◌≤◌, ◌++◌, length, drop};
ghost use Rattle.octets.specs.Bytes.{xored};
ghost use Rattle.aes.specs.Under.{enciphered_under};
ghost use Rattle.counter.specs.Counter.{counter_block, stepped, crypted};

use aes::Cipher;

// The next counter block: one more in the last four bytes, modulo 2^32 (SP 800-38D: inc32).
#[tactic(auto, unfolding(crate::specs::Counter::stepped))]
pub fn step(j: [u8; 16]) -> [u8; 16]
    ensures { result ≡ stepped j }
{
    let w = u32::from_be_bytes([j[12], j[13], j[14], j[15]]);
    counter_block(&j, w.wrapping_add(1))
}

// The first twelve bytes of s, then the word w.
#[tactic(auto, unfolding(crate::specs::Counter::counter_block))]
pub fn counter_block(s: &[u8], w: u32) -> [u8; 16]
    requires { 12 ≤ length s.now }
    ensures { result ≡ counter_block s.now w }
{
    let mut block = [0u8; 16];
    block[..12].copy_from_slice(&s[..12]);
    block[12..].copy_from_slice(&w.to_be_bytes());
    block
}

// The text, xored with the enciphered blocks after j, written to the front of `out` (SP 800-38D: GCTR).
#[tactic(auto, using(crate::proofs::CryptLaws::crypting))]
pub fn crypt(out: &mut [u8], cipher: Cipher, j: [u8; 16], text: &[u8])
    requires text_in_bounds { length text.now ≤ length out.old }
    ensures { out.new ≡ crypted (enciphered_under cipher.entry) j text.now ++ drop (length text.now) out.old }
{
    let mut counter = j;
    for k in 0..text.len().div_ceil(16) {
        // A call's array goes into a new name: the proof of the loop follows it there only.
        let next = step(counter);
        counter = next;
        let at = 16 * k;
        let n = (text.len() - at).min(16);
        let block = cipher.encipher(counter);
        xor_into(&mut out[at..at + n], &text[at..at + n], &block);
    }
}

// The text, xored with the front of the block, written to the front of `out`.
#[tactic(auto, using(crate::proofs::CryptLaws::xored_more))]
pub fn xor_into(out: &mut [u8], text: &[u8], block: &[u8])
    requires text_in_bounds { length text.now ≤ length out.old }
    requires text_in_block { length text.now ≤ length block.now }
    ensures { out.new ≡ xored text.now block.now ++ drop (length text.now) out.old }
{
    // By index: of what is written through `iter_mut` and `zip` a proof knows no byte.
    for i in 0..text.len() {
        out[i] = text[i] ^ block[i];
    }
}
