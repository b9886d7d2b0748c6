// The channel's cases: a line has what each call answered, by the numbers of rules R2.0 to R2.11.
//
// Zeros enough for every length are lent by the program.
#![tactic(auto)]

use case_lines::{Hex, front, print_answer};
use channel::{Step, abandon, begin, feed, finish};
use channel_state::{Channel, Mark, Number};
use std::io;

const MARK: Mark = Mark(*b"\x0a\x0b\x0c\x0d");

// Numbers around the oldest one that a ledger takes.
pub fn numbers(rt: &impl Print) -> io::Result<()> {
    rt.print("begin 200, 72, 73, 73 again:")?;
    try_numbers(rt, fresh(), &[200, 72, 73, 73])?;
    rt.print("after 2^64-1, begin 2^64-129 and 2^64-128:")?;
    let after_the_highest = abandon(begun(u64::MAX, b"")).channel;
    try_numbers(rt, after_the_highest, &[u64::MAX - 128, u64::MAX - 127])?;
    rt.print("a fresh channel begins 0:")?;
    try_numbers(rt, fresh(), &[0])
}

// Begins a message under each number and abandons it, so that the channel is ready for the next.
fn try_numbers(rt: &impl Print, c: Channel, numbers: &[u64]) -> io::Result<()> {
    let mut channel = c;
    for n in numbers {
        let begun = print_step(rt, begin(channel, Number(*n), b""))?;
        channel = abandon(begun).channel;
    }
    rt.print("\n")
}

// A message whose pieces start and end inside blocks, and the same one by the sealer.
pub fn in_pieces(rt: &impl Print) -> io::Result<()> {
    let text = *b"The night mail for the outer stations left at ten, and nobody saw it pass by us.";
    let ad = *b"mail, northern line.";
    rt.print("in pieces of 1, 15, 16, 17, 31 and 0: ")?;
    let fed = feed_pieces(rt, begun(258, &ad), &text)?;
    let tag = finish(fed).answer.unwrap_or([0u8; 16]);
    println!(rt; "{}", Hex(&tag))?;
    seal_at_once(rt, &text, &ad)
}

// Feeds the text in pieces, each with an output just as long, and prints what they are sealed to.
fn feed_pieces(rt: &impl Print, c: Channel, text: &[u8]) -> io::Result<Channel> {
    let mut out = [0u8; 80];
    let mut channel = c;
    let mut rest = text;
    for n in [1usize, 15, 16, 17, 31, 0] {
        let piece = front(rest, n);
        rest = &rest[piece.len()..];
        let room = piece.len().min(80);
        channel = feed(channel, piece, &mut out[..room]).channel;
        print!(rt; "{}", Hex(&out[..room]))?;
    }
    Ok(channel)
}

fn seal_at_once(rt: &impl Print, text: &[u8], ad: &[u8]) -> io::Result<()> {
    let iv = *b"\x0a\x0b\x0c\x0d\x00\x00\x00\x00\x00\x00\x01\x02";
    let mut sealed = [0u8; 96];
    let _ = gcm::seal(&[0u8; 16], &iv, ad, text, 16, &mut sealed);
    println!(rt; "sealed at once: {}", Hex(&sealed))
}

// Each kind of refusal that a channel knows besides a number's.
pub fn refusals(rt: &impl Print, zeros: &[u8]) -> io::Result<()> {
    let long = front(zeros, 65537);
    refuse_openings(rt)?;
    refuse_without_message(rt)?;
    refuse_second_calls(rt)?;
    refuse_lengths(rt, long)?;
    refuse_room(rt)
}

fn refuse_openings(rt: &impl Print) -> io::Result<()> {
    refuse_opening(rt, "key of 24", &[0u8; 24], 16)?;
    refuse_opening(rt, "tag of 11", &[0u8; 16], 11)?;
    refuse_opening(rt, "key of 24 and a tag of 11", &[0u8; 24], 11)
}

fn refuse_opening(rt: &impl Print, name: &str, key: &[u8], tag_len: usize) -> io::Result<()> {
    print!(rt; "opening with a {name}:")?;
    print_step(rt, channel::open(key, MARK, tag_len))?;
    rt.print("\n")
}

fn refuse_without_message(rt: &impl Print) -> io::Result<()> {
    let dead = opened(b"");
    rt.print("begin, feed, finish, abandon on the dead channel:")?;
    print_step(rt, begin(dead, Number(1), b""))?;
    print_calls_on_a_message(rt, dead)?;
    rt.print("feed, finish, abandon with no message open:")?;
    print_calls_on_a_message(rt, fresh())
}

fn print_calls_on_a_message(rt: &impl Print, c: Channel) -> io::Result<()> {
    print_step(rt, feed(c, b"a", &mut [0u8; 1]))?;
    print_step(rt, finish(c))?;
    print_step(rt, abandon(c))?;
    rt.print("\n")
}

fn refuse_second_calls(rt: &impl Print) -> io::Result<()> {
    rt.print("begin while a message is open:")?;
    print_step(rt, begin(begun(1, b""), Number(2), b""))?;
    rt.print("\nfinish twice:")?;
    let finished = print_step(rt, finish(begun(1, b"")))?;
    print_step(rt, finish(finished))?;
    rt.print("\n")
}

fn refuse_lengths(rt: &impl Print, long: &[u8]) -> io::Result<()> {
    rt.print("begin over 65,537 bytes of associated data:")?;
    print_step(rt, begin(fresh(), Number(1), long))?;
    rt.print("\nfeed 65,537 bytes at once:")?;
    print_step(rt, feed(begun(1, b""), long, &mut [0u8; 1]))?;
    rt.print("\n")
}

fn refuse_room(rt: &impl Print) -> io::Result<()> {
    let mut out = [0xffu8; 15];
    rt.print("feed 16 bytes into an output of 15:")?;
    print_step(rt, feed(begun(1, b""), &[0u8; 16], &mut out))?;
    println!(rt; ", the output still {}", Hex(&out))
}

// A channel with a key and a tag of 16 bytes.
fn opened(key: &[u8]) -> Channel {
    channel::open(key, MARK, 16).channel
}

fn fresh() -> Channel {
    opened(&[0u8; 16])
}

// A fresh channel with a message open.
fn begun(n: u64, ad: &[u8]) -> Channel {
    begin(fresh(), Number(n), ad).channel
}

// Prints what a call answered, and gives the channel that it handed back.
fn print_step<T: Copy>(rt: &impl Print, step: Step<T>) -> io::Result<Channel> {
    print_answer(rt, step.answer)?;
    Ok(step.channel)
}
