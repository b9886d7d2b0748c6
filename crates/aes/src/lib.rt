// The block cipher of FIPS 197 for keys of 16 and 32 bytes.
//
// Whoever enciphers many blocks keeps a copy of the table and the round keys, and lends both in a `Cipher`.
#![tactic(auto)]

ghost use Rattle.std.specs.Prelude.{◌≡◌, ◌-◌, ◌≤◌, length};
ghost use Rattle.aes.specs.Cipher.{rounded, last_rounded, after_rounds, enciphered};

use sbox::Table;
use schedule::expand;
use state::{add_round_key, block_of, mix_columns, shift_rows, state_of, sub_bytes};

// The block enciphered with a key of 16 to 32 bytes.
#[tactic(auto, unfolding(crate::specs::Cipher::enciphered))]
pub fn encipher(key: &[u8], block: [u8; 16]) -> [u8; 16]
    requires { (16 ≤ length key.now) × (length key.now ≤ 32) }
    ensures { result ≡ enciphered key.now block }
{
    let table = Table::new();
    let words = expand(&table, key);
    let cipher = Cipher {
        table: &table,
        words: &words,
        rounds: key.len() / 4 + 6,
    };
    cipher.encipher(block)
}

// A key made ready: the table, the round keys that `expand` gave, and in how many rounds they are used. All is lent: with a type
// that owned table and round keys a seal took 2,287 bytes of stack, and the header gives it 2,048.
#[derive(Clone, Copy)]
pub struct Cipher<'a> {
    pub table: &'a Table,
    pub words: &'a [u32; 60],
    pub rounds: usize,
    ghost few_rounds: { rounds ≤ 14 },
}

impl Cipher<'_> {
    ghost use Rattle.aes.specs.Under.{enciphered_under};

    // The block enciphered with these round keys, in that many rounds (FIPS 197: CIPHER).
    #[tactic(auto, unfolding(crate::specs::Cipher::enciphered_by))]
    pub fn encipher(self, block: [u8; 16]) -> [u8; 16]
        ensures { result ≡ enciphered_under self.entry block }
    {
        let start = add_round_key(self.words, 0, state_of(block));
        block_of(self.last_round(self.all_but_last(start)))
    }

    // The state after every round but the last.
    #[tactic(auto, using(crate::proofs::CipherLaws::round_more), unfolding(crate::specs::Cipher::after_rounds))]
    fn all_but_last(self, s: [[u8; 4]; 4]) -> [[u8; 4]; 4]
        ensures { result ≡ after_rounds self.entry.words.now (self.entry.rounds - 1) s }
    {
        let mut state = s;
        for k in 1..self.rounds {
            // By a name: a call's result may not be laid straight into an array that the call is passed.
            let next = self.round(k, state);
            state = next;
        }
        state
    }

    #[tactic(auto, unfolding(crate::specs::Cipher::rounded))]
    fn round(self, k: usize, s: [[u8; 4]; 4]) -> [[u8; 4]; 4]
        requires { k ≤ 14 }
        ensures { result ≡ rounded self.entry.words.now k s }
    {
        let mixed = mix_columns(shift_rows(sub_bytes(self.table, s)));
        add_round_key(self.words, k, mixed)
    }

    #[tactic(auto, unfolding(crate::specs::Cipher::last_rounded))]
    fn last_round(self, s: [[u8; 4]; 4]) -> [[u8; 4]; 4]
        ensures { result ≡ last_rounded self.entry.words.now self.entry.rounds s }
    {
        let shifted = shift_rows(sub_bytes(self.table, s));
        add_round_key(self.words, self.rounds, shifted)
    }
}
