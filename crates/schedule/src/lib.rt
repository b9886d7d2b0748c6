// The key schedule: sixty words, of which a key of 16 bytes uses 44 (FIPS 197: KEYEXPANSION).
#![tactic(auto)]

ghost use Rattle.std.specs.Prelude.{◌≡◌, ◌≤◌, ◌<◌, ◌*◌, length};
ghost use Rattle.schedule.specs.Schedule.{key_words_in, in_sixty, round_keys};
ghost use Rattle.schedule.specs.Schedule.{turned, substituted_word, changed};

use octets::word_at;
use sbox::Table;

const ROUND_CONSTANTS: [u8; 10] = [0x01, 0x02, 0x04, 0x08, 0x10, 0x20, 0x40, 0x80, 0x1b, 0x36];

// The round keys of a key of 16 to 32 bytes, with zeros past the words that it uses. `aes` and a new channel ask for such a key
// too: a type for it would be made where these are called, and show no more than the condition.
#[tactic(auto, using(crate::proofs::ScheduleLaws::filling), unfolding(crate::specs::Schedule::round_keys))]
pub fn expand(table: &Table, key: &[u8]) -> [u32; 60]
    requires { (16 ≤ length key.now) × (length key.now ≤ 32) }
    ensures { result ≡ round_keys key.now }
{
    let n = key.len() / 4;
    let mut words = load(key);
    for i in n..4 * (n + 7) {
        words[i] = words[i - n] ^ change(table, n, i, words[i - 1]);
    }
    words
}

// The key's own words, with zeros after them.
#[tactic(auto, using(crate::proofs::ScheduleLaws::filling), unfolding(crate::specs::Schedule::first_words))]
fn load(key: &[u8]) -> [u32; 60]
    requires { length key.now ≤ 32 }
    ensures { result ≡ in_sixty (key_words_in key.now) key.now (key_words_in key.now) }
{
    let mut words = [0; 60];
    for i in 0..key.len() / 4 {
        words[i] = word_at(key, 4 * i);
    }
    words
}

// What word i adds to word i - n, where word i - 1 is `last`.
#[tactic(auto, unfolding(crate::specs::Schedule::changed, crate::specs::Schedule::halfway))]
fn change(table: &Table, n: usize, i: usize, last: u32) -> u32
    requires { (n ≤ i) × (i < 11 * n) }
    ensures { result ≡ changed n i last }
{
    if i % n == 0 {
        sub_word(table, turn(last)) ^ u32::from_be_bytes([ROUND_CONSTANTS[i / n - 1], 0, 0, 0])
    } else if n == 8 && i % 8 == 4 {
        sub_word(table, last)
    } else {
        last
    }
}

// The word turned left by one byte (FIPS 197: ROTWORD).
#[tactic(auto, using(crate::proofs::ScheduleLaws::rotated), unfolding(crate::specs::Schedule::turned))]
fn turn(w: u32) -> u32
    ensures { result ≡ turned w }
{
    w.rotate_left(8)
}

// The word with each of its bytes substituted (FIPS 197: SUBWORD).
#[tactic(auto, unfolding(crate::specs::Schedule::substituted_word))]
fn sub_word(table: &Table, w: u32) -> u32
    ensures { result ≡ substituted_word w }
{
    u32::from_be_bytes(w.to_be_bytes().map(|b| table.substitute(b)))
}
