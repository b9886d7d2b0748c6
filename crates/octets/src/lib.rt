// Bytes, and the big-endian numbers that they make.
#![tactic(auto)]

ghost use Rattle.std.specs.Prelude.{◌≡◌, ◌+◌, ◌≤◌, length};
ghost use Rattle.octets.specs.Block.{long_at, block_from};
ghost use Rattle.octets.specs.Word.{word_at};

// The word that stands in s from index `at` on.
pub fn word_at(s: &[u8], at: usize) -> u32
    requires { at + 4 ≤ length s.now }
    ensures { result ≡ word_at s.now at }
{
    u32::from_be_bytes([s[at], s[at + 1], s[at + 2], s[at + 3]])
}

// The number that eight bytes of s make, from index `at` on. No one function for both: no trait is over the widths of
// `from_be_bytes`.
pub fn long_at(s: &[u8], at: usize) -> u64
    requires { at + 8 ≤ length s.now }
    ensures { result ≡ long_at s.now at }
{
    let mut bytes = [0u8; 8];
    bytes.copy_from_slice(&s[at..at + 8]);
    u64::from_be_bytes(bytes)
}

// The block of sixteen bytes that a, b, c and d make, one after the other. Written out: of `as_flattened` the proof did not close.
pub fn block_from(a: [u8; 4], b: [u8; 4], c: [u8; 4], d: [u8; 4]) -> [u8; 16]
    ensures { result ≡ block_from a b c d }
{
    [
        a[0], a[1], a[2], a[3], b[0], b[1], b[2], b[3], c[0], c[1], c[2], c[3], d[0], d[1], d[2],
        d[3],
    ]
}
