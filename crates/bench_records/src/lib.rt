// The record reader without a sealer behind it, exported for bench/ to time.
#![tactic(auto)]

ghost use Rattle.std.specs.Prelude.{◌≡◌};
ghost use Rattle.bench_records.specs.Count.{whole_records};

use records::reader::Reader;

// How many whole records the input has. The buffers are lent, since stores to an array that nobody reads would be left out. A scan
// says how far it went, so that the loop is no `for`.
#[unsafe(no_mangle)]
pub extern "C" fn bench_records(
    key: &mut [u8; 4096],
    iv: &mut [u8; 4096],
    ad: &mut [u8; 4096],
    text: &mut [u8; 4096],
    input: &[u8],
) -> usize
    ensures { result ≡ whole_records input.now }
{
    let mut reader = Reader::new(key, iv, ad, text);
    let mut count = 0;
    let mut at = 0;
    while at < input.len() {
        at = reader.scan(input, at);
        if reader.is_whole() {
            reader.restart();
            count += 1;
        }
    }
    count
}
