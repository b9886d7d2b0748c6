// Ewplander for C and Rust: each call is the one by value. C has no `Result`, so the answer is told as its number (rules R2.0 to
// R2.11), and a count or a tag is stored.
#![tactic(auto)]

ghost use Rattle.told.specs.Call.{OpeningCall, BeginCall, FeedCall, FinishCall, AbandonCall};
ghost use Rattle.ewplander.specs.Call.{SealCall, OpenCall};

use answer::number;
use channel_state::Channel;

// Seals as `gcm::seal` does, answers its number, and stores how many bytes were written.
#[unsafe(no_mangle)]
pub extern "C" fn ewplander_seal(
    key: &[u8],
    iv: &[u8],
    ad: &[u8],
    text: &[u8],
    tag_len: usize,
    out: &mut [u8],
    count: &mut usize,
) -> u32
    ensures { SealCall key.now iv.now ad.now text.now tag_len out.old result count.new out.new }
{
    let sealed = gcm::seal(key, iv, ad, text, tag_len, out);
    *count = sealed.unwrap_or(0);
    u32::from(number(sealed))
}

// Opens as `gcm::open` does, answers its number, and stores how many bytes were written.
#[unsafe(no_mangle)]
pub extern "C" fn ewplander_open(
    key: &[u8],
    iv: &[u8],
    ad: &[u8],
    sealed: &[u8],
    tag_len: usize,
    out: &mut [u8],
    count: &mut usize,
) -> u32
    ensures { OpenCall key.now iv.now ad.now sealed.now tag_len out.old result count.new out.new }
{
    let opened = gcm::open(key, iv, ad, sealed, tag_len, out);
    *count = opened.unwrap_or(0);
    u32::from(number(opened))
}

// Opens a channel as `channel::open` does, and stores it; a refusal stores the dead one.
#[unsafe(no_mangle)]
pub extern "C" fn ewplander_channel_open(
    channel: &mut Channel,
    key: &[u8],
    mark: &[u8; 4],
    tag_len: usize,
) -> u32
    ensures { OpeningCall key.now mark.now tag_len result channel.new }
{
    let opened = told::opened(key, mark, tag_len);
    *channel = opened.channel;
    opened.number
}

// Begins a message as `channel::begin` does. A refusal leaves the channel as it is.
#[unsafe(no_mangle)]
pub extern "C" fn ewplander_channel_begin(channel: &mut Channel, number: u64, ad: &[u8]) -> u32
    ensures { BeginCall channel.old number ad.now result channel.new }
{
    let begun = told::begun(*channel, number, ad);
    *channel = begun.channel;
    begun.number
}

// Feeds a piece as `channel::feed` does, and stores how many bytes were written. A refusal leaves channel and output as they are.
#[unsafe(no_mangle)]
pub extern "C" fn ewplander_channel_feed(
    channel: &mut Channel,
    piece: &[u8],
    out: &mut [u8],
    count: &mut usize,
) -> u32
    ensures { FeedCall channel.old piece.now out.old result channel.new out.new count.new }
{
    let fed = told::fed(*channel, piece, out, count);
    *channel = fed.channel;
    fed.number
}

// Finishes the message as `channel::finish` does, and stores its tag. A refusal leaves the channel as it is and stores zeros.
#[unsafe(no_mangle)]
pub extern "C" fn ewplander_channel_finish(channel: &mut Channel, tag: &mut [u8; 16]) -> u32
    ensures { FinishCall channel.old result channel.new tag.new }
{
    let finished = told::finished(*channel, tag);
    *channel = finished.channel;
    finished.number
}

// Abandons the message as `channel::abandon` does. A refusal leaves the channel as it is.
#[unsafe(no_mangle)]
pub extern "C" fn ewplander_channel_abandon(channel: &mut Channel) -> u32
    ensures { AbandonCall channel.old result channel.new }
{
    let abandoned = told::abandoned(*channel);
    *channel = abandoned.channel;
    abandoned.number
}
