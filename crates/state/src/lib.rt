// The cipher's state, `state[c][r]` the byte in row r and column c, and the four steps of a round.
#![tactic(auto)]

ghost use Rattle.std.specs.Prelude.{◌≡◌, ◌≤◌};
ghost use Rattle.state.specs.State.{state_of, block_of, shifted_rows};
ghost use Rattle.state.specs.State.{substituted_column, mixed_column, keyed_column};
ghost use Rattle.state.specs.State.{substituted_bytes, mixed_columns, keyed};

use byte_field::double;
use octets::block_from;
use sbox::Table;

// The state that the block fills, down each column. Both are arrays, whose `From` the library has to itself.
pub fn state_of(b: [u8; 16]) -> [[u8; 4]; 4]
    ensures { result ≡ state_of b }
{
    [
        [b[0], b[1], b[2], b[3]],
        [b[4], b[5], b[6], b[7]],
        [b[8], b[9], b[10], b[11]],
        [b[12], b[13], b[14], b[15]],
    ]
}

// Each byte substituted (FIPS 197: SUBBYTES).
pub fn sub_bytes(table: &Table, s: [[u8; 4]; 4]) -> [[u8; 4]; 4]
    ensures { result ≡ substituted_bytes s }
{
    s.map(
        |column|
            ensures { result ≡ substituted_column column }
        { sub_column(table, column) },
    )
}

#[tactic(auto, unfolding(crate::specs::State::substituted_column))]
fn sub_column(table: &Table, s: [u8; 4]) -> [u8; 4]
    ensures { result ≡ substituted_column s }
{
    s.map(|b| table.substitute(b))
}

// Each row turned to the left by its own number (FIPS 197: SHIFTROWS).
pub fn shift_rows(s: [[u8; 4]; 4]) -> [[u8; 4]; 4]
    ensures { result ≡ shifted_rows s }
{
    let [a, b, c, d] = s;
    [
        [a[0], b[1], c[2], d[3]],
        [b[0], c[1], d[2], a[3]],
        [c[0], d[1], a[2], b[3]],
        [d[0], a[1], b[2], c[3]],
    ]
}

// Each row of a column mixed with the three after it (FIPS 197: MIXCOLUMNS).
pub fn mix_columns(s: [[u8; 4]; 4]) -> [[u8; 4]; 4]
    ensures { result ≡ mixed_columns s }
{
    s.map(mix_column)
}

#[tactic(auto, unfolding(crate::specs::State::mixed_column, crate::specs::State::mixed, byte_field::specs::Field::product, byte_field::specs::Field::multiples))]
fn mix_column(s: [u8; 4]) -> [u8; 4]
    ensures { result ≡ mixed_column s }
{
    let [a, b, c, d] = s;
    // Each by itself: doubled by `map`, a column takes so much longer that the cipher has 63 MB/s in place of 75.
    let a2 = double(a);
    let b2 = double(b);
    let c2 = double(c);
    let d2 = double(d);
    [
        a2 ^ (b2 ^ b) ^ c ^ d,
        b2 ^ (c2 ^ c) ^ d ^ a,
        c2 ^ (d2 ^ d) ^ a ^ b,
        d2 ^ (a2 ^ a) ^ b ^ c,
    ]
}

// Four words, from word 4 * round on, xored into the columns (FIPS 197: ADDROUNDKEY).
pub fn add_round_key(words: &[u32; 60], round: usize, s: [[u8; 4]; 4]) -> [[u8; 4]; 4]
    requires { round ≤ 14 }
    ensures { result ≡ keyed words.now round s }
{
    let first = 4 * round;
    // Written out: a closure for `from_fn` would need two clauses of its own, for the bound of `words` and for the result.
    [
        add_word(s[0], words[first]),
        add_word(s[1], words[first + 1]),
        add_word(s[2], words[first + 2]),
        add_word(s[3], words[first + 3]),
    ]
}

#[tactic(auto, unfolding(crate::specs::State::keyed_column))]
fn add_word(s: [u8; 4], w: u32) -> [u8; 4]
    ensures { result ≡ keyed_column s w }
{
    (u32::from_be_bytes(s) ^ w).to_be_bytes()
}

// The block that fills the state.
pub fn block_of(s: [[u8; 4]; 4]) -> [u8; 16]
    ensures { result ≡ block_of s }
{
    block_from(s[0], s[1], s[2], s[3])
}
