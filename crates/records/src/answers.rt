// The lines that answer a record, each written to the front of an output; what is returned is how long the line is.
ghost use Rattle.std.specs.Prelude.{[], ◌∷◌, ◌+◌, ◌*◌, ◌≤◌, ◌<◌, length};
ghost use Rattle.records.specs.Answers.{sealed_line, number_line, Wrote};
ghost use Rattle.records.specs.Records.{line_feed, bad_line, cut_line};
ghost use Rattle.records.specs.Kept.{last_line};

use crate::reader::Reader;
use hexadecimal::digits::write_hex;

// `0 `, then the sealed bytes in hex.
pub fn write_sealed(out: &mut [u8], sealed: &[u8]) -> usize
    requires { length sealed.now * 2 + 3 ≤ length out.old }
    ensures { Wrote (sealed_line sealed.now) out.old out.new result }
{
    out[..2].copy_from_slice(b"0 ");
    write_hex(&mut out[2..], sealed);
    let end = sealed.len() * 2 + 2;
    out[end] = b'\n';
    end + 1
}

// A number alone, as that of a refusal. Its digits are made by hand, since what `write!` writes is known of a `String` alone, which
// needs a heap.
#[tactic(auto, unfolding(crate::specs::Answers::number_line))]
pub fn write_number(out: &mut [u8], n: u8) -> usize
    requires { (n < 100) × (3 ≤ length out.old) }
    ensures { Wrote (number_line n) out.old out.new result }
{
    if n < 10 {
        return write_line(out, &[b'0' + n, b'\n']);
    }
    write_line(out, &[b'0' + n / 10, b'0' + n % 10, b'\n'])
}

// `bad`, for a record with a line that is not good.
pub fn write_bad(out: &mut [u8]) -> usize
    requires { 4 ≤ length out.old }
    ensures { Wrote bad_line out.old out.new result }
{
    write_line(out, b"bad\n")
}

// What is written where the input ends: `cut`, for what remains without its four line feeds, or nothing if it ends with a whole
// record.
pub fn write_last(out: &mut [u8], reader: &Reader<'_>) -> usize
    requires { 4 ≤ length out.old }
    ensures { Wrote (last_line reader.now) out.old out.new result }
{
    if reader.remains() {
        write_line(out, b"cut\n")
    } else {
        0
    }
}

// A line that stands already.
fn write_line(out: &mut [u8], line: &[u8]) -> usize
    requires { length line.now ≤ length out.old }
    ensures { Wrote line.now out.old out.new result }
{
    out[..line.len()].copy_from_slice(line);
    line.len()
}
