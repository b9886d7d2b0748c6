// The cases that are run, rules R10.9 (the window) to R10.14 (lengths at their limits) among them: a line behind each one's
// name, bytes in hex.
#![tactic(auto)]

use case_lines::Hex;
use std::io;

// As many zeros as the longest case takes, and an output for the longest that is sealed.
fn main(rt: HostRuntime) -> io::Result<()> {
    let zeros = [0u8; 65553];
    let mut room = [0xffu8; 65552];
    run(&rt, &zeros, &mut room)
}

fn run(rt: &impl Print, zeros: &[u8], room: &mut [u8]) -> io::Result<()> {
    encipher_examples(rt)?;
    sealing_cases::seal_zeros(rt)?;
    sealing_cases::refusals(rt, zeros)?;
    sealing_cases::limits(rt, zeros, room)?;
    sealing_cases::wrong_seals(rt)?;
    channel_cases::numbers(rt)?;
    channel_cases::in_pieces(rt)?;
    channel_cases::refusals(rt, zeros)
}

// FIPS 197's example block under its keys of 128 and 256 bits.
fn encipher_examples(rt: &impl Print) -> io::Result<()> {
    let block = *b"\x00\x11\x22\x33\x44\x55\x66\x77\x88\x99\xaa\xbb\xcc\xdd\xee\xff";
    let key = *b"\
        \x00\x01\x02\x03\x04\x05\x06\x07\x08\x09\x0a\x0b\x0c\x0d\x0e\x0f\
        \x10\x11\x12\x13\x14\x15\x16\x17\x18\x19\x1a\x1b\x1c\x1d\x1e\x1f";
    let short = aes::encipher(&key[..16], block);
    println!(rt; "enciphered with key 000102..0f: {}", Hex(&short))?;
    let long = aes::encipher(&key, block);
    println!(rt; "enciphered with key 000102..1f: {}", Hex(&long))
}
