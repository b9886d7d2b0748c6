// The cipher over many blocks, exported for bench/ to time.
#![tactic(auto)]

ghost use Rattle.std.specs.Prelude.{◌≡◌};
ghost use Rattle.aes.specs.Under.{enciphered_under};
ghost use Rattle.bench_cipher.specs.Blocks.{each_enciphered, blocks_under};

use aes::Cipher;
use sbox::Table;
use schedule::expand;

// Enciphers each whole block of `blocks` where it stands. A key of fewer than 16 or more than 32 bytes leaves them as they are.
#[tactic(auto, unfolding(crate::specs::Blocks::blocks_under, aes::specs::Cipher::enciphered))]
#[unsafe(no_mangle)]
pub extern "C" fn bench_encipher(key: &[u8], blocks: &mut [u8])
    ensures { blocks.new ≡ blocks_under key.now blocks.old }
{
    if !(16..=32).contains(&key.len()) {
        return;
    }
    let table = Table::new();
    let words = expand(&table, key);
    let cipher = Cipher {
        table: &table,
        words: &words,
        rounds: key.len() / 4 + 6,
    };
    encipher_all(cipher, blocks);
}

// The same, by the round keys.
#[tactic(auto, using(crate::proofs::EachLaws::enciphering_more, crate::proofs::EachLaws::enciphering_all))]
fn encipher_all(cipher: Cipher, blocks: &mut [u8])
    ensures { blocks.new ≡ each_enciphered (enciphered_under cipher.entry) blocks.old }
{
    // By index: after a loop over `as_chunks_mut` the proof knows how long `blocks` is, and nothing of what it holds.
    for k in 0..blocks.len() / 16 {
        let at = 16 * k;
        let mut block = [0; 16];
        block.copy_from_slice(&blocks[at..at + 16]);
        blocks[at..at + 16].copy_from_slice(&cipher.encipher(block));
    }
}
