// The vector program: it reads records, hands them on, and writes the answers.
#![tactic(auto)]

ghost use Rattle.std.specs.Prelude.{◌≡◌, Some, ◌≤◌, ◌<◌, length, take};
ghost use Rattle.std.specs.Io.{ReadsAtMost};
ghost use Rattle.records.specs.Answers.{Wrote};
ghost use Rattle.records.specs.Kept.{last_line};
ghost use Rattle.records.specs.Input.{Answered, Ended};
ghost use Rattle.vector_lines.specs.Line.{answer_line};
ghost use Rattle.vectors.specs.End.{turns_left, last_of, is_unwritten, is_unread, handed_of, taken_of, sentence};

use records::answers::write_last;
use records::reader::Reader;
use std::io::{ErrorKind, Read, Write};
use std::process::ExitCode;
use std::{fmt, io};
use vector_chunks::serve_chunk;
use vector_lines::LONGEST_ANSWER;

// One buffer takes the input, and another the answers. What failed is said on standard error, and by the status, so that lost
// output does not look like success. Where standard error cannot be written either, the status alone tells.
fn main(rt: HostRuntime) -> ExitCode {
    let mut chunk = [0; 65536];
    let mut out = [0; 65536];
    match answer_input(&mut rt.stdin(), &mut rt.stdout(), &mut out, &mut chunk) {
        Ok(_) => ExitCode::SUCCESS,
        Err(failure) => {
            let _ = eprintln!(rt; "vectors: {failure}");
            ExitCode::FAILURE
        }
    }
}

// How a run over the whole input ended: how many chunks it came in, and how many bytes were handed out for what remained at its
// end.
#[derive(Clone, Copy)]
struct End {
    chunks: u64,
    last: usize,
}

// What ended a run before the end of the input, and how many chunks were taken in till then.
#[derive(Clone, Copy, Debug)]
enum Failure {
    // The rest of the input is unread.
    Read { chunks: u64 },
    // Answers are lost.
    Write { chunks: u64 },
}

// What standard error is told of it.
impl fmt::Display for Failure {
    ghost output = { λ failure. Some (sentence failure) };

    fn fmt<W: fmt::Write>(&self, f: &mut fmt::Formatter<W>) -> fmt::Result {
        match self {
            Failure::Read { .. } => f.write_str("cannot read"),
            Failure::Write { .. } => f.write_str("cannot write"),
        }
    }
}

// A write failed: how many bytes it was to write. How many of them were written nobody knows.
#[derive(Clone, Copy, Debug)]
struct Unwritten {
    count: usize,
}

// A write failed while a chunk was answered: how far the chunk was taken in.
#[derive(Clone, Copy, Debug)]
struct Stopped {
    at: usize,
}

// Answers each record of the input, and what remains at its end. A read that fails is no end of the input: what remains there is
// not answered, since nobody knows how it goes on. It ends the program, as a write that fails does. A proved loop has to end: this
// one has more turns than there can be chunks.
fn answer_input<R: Read, W: Write>(
    from: &mut R,
    to: &mut W,
    out: &mut [u8],
    chunk: &mut [u8],
) -> Result<End, Failure>
    requires { LONGEST_ANSWER ≤ length out.old }
    ensures { Ended answer_line (turns_left result) (last_of result) (is_unwritten result) (is_unread result) out.new }
{
    // A buffer for each field, all zero at first (rule R13.8).
    let mut key = [0; 4096];
    let mut iv = [0; 4096];
    let mut ad = [0; 4096];
    let mut text = [0; 4096];
    let mut reader = Reader::new(&mut key, &mut iv, &mut ad, &mut text);
    for chunks in 0..u64::MAX {
        let n = read_chunk(from, chunk).map_err(|_| Failure::Read { chunks })?;
        if n == 0 {
            let last = answer_rest(to, out, &reader).map_err(|_| Failure::Write { chunks })?;
            return Ok(End { chunks, last });
        }
        answer_chunk(to, out, &mut reader, &chunk[..n]).map_err(|_| Failure::Write {
            chunks: chunks + 1,
        })?;
    }
    Ok(End {
        chunks: u64::MAX,
        last: 0,
    })
}

// Reads into the chunk, and says how many bytes: none at the end of the input. A read that a signal interrupts is made again.
fn read_chunk<R: Read>(from: &mut R, chunk: &mut [u8]) -> io::Result<usize>
    ensures { ReadsAtMost result chunk.new }
{
    for _ in 0..u64::MAX {
        match from.read(chunk) {
            Err(e) if e.kind() == ErrorKind::Interrupted => {}
            got => return got,
        }
    }
    from.read(chunk)
}

// Answers what remains where the input ends, and says how many bytes were handed out for it.
fn answer_rest<W: Write>(
    to: &mut W,
    out: &mut [u8],
    reader: &Reader<'_>,
) -> Result<usize, Unwritten>
    requires { 4 ≤ length out.old }
    ensures { Wrote (last_line reader.now) out.old out.new (handed_of result) }
{
    let count = write_last(out, reader);
    hand_out(to, &out[..count])
}

// Hands bytes out, and says how many.
fn hand_out<W: Write>(to: &mut W, bytes: &[u8]) -> Result<usize, Unwritten>
    ensures { handed_of result ≡ length bytes.now }
{
    let count = bytes.len();
    match to.write_all(bytes) {
        Ok(()) => Ok(count),
        Err(_) => Err(Unwritten { count }),
    }
}

// Answers each record that the chunk makes whole. A service says how far it went, so that the loop is no `for`.
fn answer_chunk<W: Write>(
    to: &mut W,
    out: &mut [u8],
    reader: &mut Reader<'_>,
    chunk: &[u8],
) -> Result<(), Stopped>
    requires { LONGEST_ANSWER ≤ length out.old }
    ensures answered { Answered answer_line reader.old (take (taken_of result chunk.now) chunk.now) reader.new }
    ensures at_nonzero { 0 < length chunk.now → 0 < taken_of result chunk.now }
{
    let mut at = 0;
    while at < chunk.len() {
        let service = serve_chunk(out, reader, chunk, at);
        at = service.at;
        hand_out(to, &out[..service.count]).map_err(|_| Stopped { at })?;
    }
    Ok(())
}
