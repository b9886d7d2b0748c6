// The line of the vector program that answers a record.
#![tactic(auto)]

ghost use Rattle.std.specs.Prelude.{◌≡◌, ◌≤◌, length};
ghost use Rattle.records.specs.Answers.{Wrote};
ghost use Rattle.vector_lines.specs.Line.{answer_line, record_line};

use gcm::seal;
use records::answers::{write_bad, write_number, write_sealed};
use records::reader::{Reader, Record};

// The longest answer: `0 `, the sealed bytes of the longest text in hex, two digits for each of 4,112, and a line feed. An output
// is a slice with room for it, and no array of that length: several answers are written one behind the other into one buffer,
// each to the part of it that is left.
pub const LONGEST_ANSWER: usize = 8227;

// Writes the line that answers the fields of a record to the front of `out`: the sealed bytes, or a refusal's number. What stands
// behind the line stays. A line of a record stands for 4,096 bytes at most, and the longest sealed form is a text of so many and a
// tag of 16.
pub fn answer_bytes(out: &mut [u8], fields: Record<'_>) -> usize
    requires { (length fields.text.now ≤ 4096) × (LONGEST_ANSWER ≤ length out.old) }
    ensures { Wrote (answer_line fields.entry.key.now fields.entry.iv.now fields.entry.ad.now fields.entry.text.now)
        out.old out.new result }
{
    let Record { key, iv, ad, text } = fields;
    let mut sealed = [0; 4112];
    match seal(key, iv, ad, text, 16, &mut sealed) {
        Ok(count) => write_sealed(out, &sealed[..count]),
        Err(refusal) => write_number(out, u8::from(refusal)),
    }
}

// Writes the line that answers the whole record that was read to the front of `out`: `bad` where a line of it is not good. What
// stands behind the line stays.
pub fn answer_record(out: &mut [u8], reader: &Reader<'_>) -> usize
    requires { LONGEST_ANSWER ≤ length out.old }
    ensures { Wrote (record_line reader.now) out.old out.new result }
{
    match reader.record() {
        Some(fields) => answer_bytes(out, fields),
        None => write_bad(out),
    }
}
