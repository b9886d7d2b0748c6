// Digits of hex, and bytes written as such.
ghost use Rattle.std.specs.Prelude.{◌≡◌, ◌+◌, ◌*◌, ◌/◌, ◌%◌, ◌≤◌, ◌<◌, ◌++◌, length, drop};
ghost use Rattle.hexadecimal.specs.Hex.{digit_of, hex_digit, encoded};

// The value of the hex digit b, in either letter case; `None` for a byte that is none. The tests are joined by `|`, and share one
// value, so that no branch parts figures from letters: among digits it would go either way at random, which costs more than all the
// rest.
#[tactic(auto, unfolding(crate::specs::Hex::digit_value))]
pub fn digit_value(b: u8) -> Option<u8>
    ensures { result ≡ digit_of b }
{
    let small = (b'a'..=b'f').contains(&b);
    let capital = (b'A'..=b'F').contains(&b);
    (b.is_ascii_digit() | small | capital).then_some(b % 16 + b / 64 * 9)
}

// The digit of n, in lower case. `char::from_digit` gives an `Option` of a `char`, and what is written are bytes.
#[tactic(auto, unfolding(crate::specs::Hex::hex_digit))]
pub fn hex_digit(n: u8) -> u8
    requires { n < 16 }
    ensures { result ≡ hex_digit n }
{
    if n < 10 { n + b'0' } else { n - 10 + b'a' }
}

// The bytes, as hex, to the front of `out`. By hand, since of what `write!` puts into a slice a proof knows no byte.
pub fn write_hex(out: &mut [u8], bytes: &[u8])
    requires { length bytes.now * 2 ≤ length out.old }
    ensures { out.new ≡ encoded bytes.now ++ drop (length bytes.now * 2) out.old }
{
    for (i, b) in bytes.iter().enumerate() {
        out[i * 2] = hex_digit(b / 16);
        out[i * 2 + 1] = hex_digit(b % 16);
    }
}
