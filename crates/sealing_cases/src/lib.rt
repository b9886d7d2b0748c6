// The cases of seal and open: a line has what each call answered, by the numbers of rules R2.0 to R2.8, and its output.
//
// Zeros enough for every length are lent by the program.
#![tactic(auto)]

use answer::Refusal;
use case_lines::{Hex, front, print_answer};
use std::io;

// What a call gets beside its text or its sealed bytes.
#[derive(Clone, Copy)]
struct Given<'a> {
    key: &'a [u8],
    iv: &'a [u8],
    ad: &'a [u8],
    tag_len: usize,
}

impl Given<'_> {
    // Key, IV and AD of so many zeros, and a tag's length.
    fn zeros(zeros: &[u8], key: usize, iv: usize, ad: usize, tag_len: usize) -> Given<'_> {
        Given {
            key: front(zeros, key),
            iv: front(zeros, iv),
            ad: front(zeros, ad),
            tag_len,
        }
    }

    // A key of 16 zeros, an IV of 12, no AD and a tag of 16 bytes.
    fn usual() -> Given<'static> {
        Given {
            key: &[0u8; 16],
            iv: &[0u8; 12],
            ad: b"",
            tag_len: 16,
        }
    }
}

fn seal(given: Given<'_>, text: &[u8], out: &mut [u8]) -> Result<usize, Refusal> {
    gcm::seal(given.key, given.iv, given.ad, text, given.tag_len, out)
}

fn open(given: Given<'_>, sealed: &[u8], out: &mut [u8]) -> Result<usize, Refusal> {
    gcm::open(given.key, given.iv, given.ad, sealed, given.tag_len, out)
}

// Sixteen zero bytes sealed with a key of 16 zeros and an IV of 12, and opened again.
pub fn seal_zeros(rt: &impl Print) -> io::Result<()> {
    let mut sealed = [0xffu8; 32];
    let mut text = [0xffu8; 16];
    let _ = seal(Given::usual(), &[0u8; 16], &mut sealed);
    println!(rt; "16 zero bytes sealed: {}", Hex(&sealed))?;
    let _ = open(Given::usual(), &sealed, &mut text);
    println!(rt; "and opened again: {}", Hex(&text))
}

// Lengths that are refused.
pub fn refusals(rt: &impl Print, zeros: &[u8]) -> io::Result<()> {
    refuse_keys_and_ivs(rt, zeros)?;
    refuse_tags(rt, zeros)?;
    rt.print("AD of 65,537")?;
    refuse_both(rt, Given::zeros(zeros, 16, 12, 65537, 16))?;
    rt.print("seal of 65,537 bytes:")?;
    refuse_call(rt, seal, front(zeros, 65537), &mut [0xffu8; 32])?;
    rt.print("open of 65,537 bytes and a tag:")?;
    refuse_call(rt, open, front(zeros, 65553), &mut [0xffu8; 16])?;
    rt.print("seal of 17 bytes into an output of 32:")?;
    refuse_call(rt, seal, front(zeros, 17), &mut [0xffu8; 32])
}

fn refuse_keys_and_ivs(rt: &impl Print, zeros: &[u8]) -> io::Result<()> {
    for n in [15usize, 17, 24, 31, 33] {
        print!(rt; "key of {n}")?;
        refuse_both(rt, Given::zeros(zeros, n, 12, 0, 16))?;
    }
    for n in [0usize, 129] {
        print!(rt; "IV of {n}")?;
        refuse_both(rt, Given::zeros(zeros, 16, n, 0, 16))?;
    }
    Ok(())
}

fn refuse_tags(rt: &impl Print, zeros: &[u8]) -> io::Result<()> {
    for n in [11usize, 17] {
        print!(rt; "tag of {n}")?;
        refuse_both(rt, Given::zeros(zeros, 16, 12, 0, n))?;
    }
    rt.print("key of 24 and tag of 11")?;
    refuse_both(rt, Given::zeros(zeros, 24, 12, 0, 11))
}

// The shortest and the longest that is taken, sealed and opened again.
pub fn limits(rt: &impl Print, zeros: &[u8], room: &mut [u8]) -> io::Result<()> {
    pass(rt, "IV of 1", Given::zeros(zeros, 16, 1, 0, 16))?;
    pass(rt, "IV of 128", Given::zeros(zeros, 16, 128, 0, 16))?;
    pass(rt, "AD of 65,536", Given::zeros(zeros, 16, 12, 65536, 16))?;
    pass_longest_text(rt, front(zeros, 65536), room)
}

// What only an open refuses.
pub fn wrong_seals(rt: &impl Print) -> io::Result<()> {
    rt.print("open of 15 bytes, tag of 16:")?;
    refuse_call(rt, open, &[0u8; 15], &mut [0xffu8; 16])?;
    rt.print("open of 32 zero bytes, which no text has for its sealed form:")?;
    refuse_call(rt, open, &[0u8; 32], &mut [0xffu8; 16])
}

// Both calls on 32 zero bytes. The output would be too short for the seal, which is the last thing that it looks at.
fn refuse_both(rt: &impl Print, given: Given<'_>) -> io::Result<()> {
    let mut out = [0xffu8; 32];
    print_call(rt, ": seal", seal, given, &[0u8; 32], &mut out)?;
    print_call(rt, ", open", open, given, &[0u8; 32], &mut out)?;
    println!(rt; ", the output still {}", Hex(&out))
}

fn refuse_call<F: Fn(Given<'_>, &[u8], &mut [u8]) -> Result<usize, Refusal>>(
    rt: &impl Print,
    call: F,
    bytes: &[u8],
    out: &mut [u8],
) -> io::Result<()>
    requires { F.IsAlwaysCallable call }
{
    print_call(rt, "", call, Given::usual(), bytes, out)?;
    println!(rt; ", the output still {}", Hex(out))
}

// Sixteen zero bytes sealed and opened again.
fn pass(rt: &impl Print, name: &str, given: Given<'_>) -> io::Result<()> {
    let mut sealed = [0xffu8; 32];
    let mut text = [0xffu8; 16];
    print!(rt; "{name}")?;
    print_call(rt, ": seal", seal, given, &[0u8; 16], &mut sealed)?;
    print!(rt; " {}\n{name}", Hex(&sealed))?;
    print_call(rt, ": open", open, given, &sealed, &mut text)?;
    println!(rt; " {}", Hex(&text))
}

// The counts and the last bytes, which are the tag or zeros, stand for the bytes, which are too many for a line.
fn pass_longest_text(rt: &impl Print, text: &[u8], sealed: &mut [u8]) -> io::Result<()> {
    let mut opened = [0u8; 65536];
    rt.print("text of 65,536: seal")?;
    print_count_and_last(rt, ", tag ", seal, text, sealed)?;
    rt.print("text of 65,536: open")?;
    print_count_and_last(rt, ", its last bytes ", open, sealed, &mut opened)
}

fn print_count_and_last<F: Fn(Given<'_>, &[u8], &mut [u8]) -> Result<usize, Refusal>>(
    rt: &impl Print,
    name: &str,
    call: F,
    bytes: &[u8],
    out: &mut [u8],
) -> io::Result<()>
    requires { F.IsAlwaysCallable call }
{
    let count = print_call(rt, "", call, Given::usual(), bytes, out)?;
    print!(rt; ", bytes {count}")?;
    if let Some(last) = out.last_chunk::<16>() {
        println!(rt; "{name}{}", Hex(last))?;
    }
    Ok(())
}

// A call, its answer printed behind a name; the count is returned.
fn print_call<F: Fn(Given<'_>, &[u8], &mut [u8]) -> Result<usize, Refusal>>(
    rt: &impl Print,
    name: &str,
    call: F,
    given: Given<'_>,
    bytes: &[u8],
    out: &mut [u8],
) -> io::Result<usize>
    requires { F.IsAlwaysCallable call }
{
    rt.print(name)?;
    let answer = call(given, bytes, out);
    print_answer(rt, answer)?;
    Ok(answer.unwrap_or(0))
}
