// Chunks of the vector program's input, taken in and answered.
#![tactic(auto)]

ghost use Rattle.std.specs.Prelude.{◌≡◌, ◌+◌, ◌≤◌, ◌<◌, length};
ghost use Rattle.records.specs.Remembered.{Served};
ghost use Rattle.vector_lines.specs.Line.{answer_line};

use records::reader::Reader;
use vector_lines::{LONGEST_ANSWER, answer_record};

// Where a service of a chunk stopped, and how many bytes of the output it wrote.
#[derive(Clone, Copy)]
pub struct Service {
    pub at: usize,
    pub count: usize,
}

// Takes in the chunk from index `at` on, up to the end of the next whole record or of the chunk, and writes the record's
// answer to the front of `out`, or nothing where no record is whole. A chunk and a place go in here and below, as in `scan`.
pub fn serve(out: &mut [u8], reader: &mut Reader<'_>, chunk: &[u8], at: usize) -> Service
    requires { LONGEST_ANSWER ≤ length out.old }
    ensures served { Served answer_line reader.old chunk.now at out.old reader.new result.at out.new result.count }
    ensures at_lt_at { at < length chunk.now → at < result.at }
{
    let end = reader.scan(chunk, at);
    if !reader.is_whole() {
        return Service { at: end, count: 0 };
    }
    let count = answer_record(out, reader);
    reader.restart();
    Service { at: end, count }
}

// Takes in the chunk from index `at` on while the output has room for one more answer, and writes the answers one behind the
// other to the front of `out`. A service says how far it went, so that the loop is no `for`.
pub fn serve_chunk(out: &mut [u8], reader: &mut Reader<'_>, chunk: &[u8], at: usize) -> Service
    requires { LONGEST_ANSWER ≤ length out.old }
    ensures served { Served answer_line reader.old chunk.now at out.old reader.new result.at out.new result.count }
    ensures at_lt_at { at < length chunk.now → at < result.at }
{
    let mut i = at;
    let mut count = 0;
    while i < chunk.len() && LONGEST_ANSWER <= out.len() - count {
        let service = serve(&mut out[count..], reader, chunk, i);
        i = service.at;
        count += service.count;
    }
    Service { at: i, count }
}
