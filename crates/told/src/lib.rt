// The calls of a channel by value, each with its answer told as a number (rules R2.0 to R2.11).
#![tactic(auto)]

ghost use Rattle.std.specs.Prelude.{◌≡◌};
ghost use Rattle.answer.specs.Number.{number_of};
ghost use Rattle.told.specs.Call.{OpeningCall, BeginCall, FeedCall, FinishCall, AbandonCall};

use answer::number;
use channel::Step;
use channel_state::{Channel, Mark, Number};

// What a call answered, as the number that C reads, and the channel that it handed back.
#[derive(Clone, Copy)]
pub struct Told {
    pub number: u32,
    pub channel: Channel,
}

// A step with its answer told as a number.
impl<T: Copy> From<Step<T>> for Told {
    ghost from_gives = { λ step told. (told.number ≡ number_of step.answer) × (told.channel ≡ step.channel) };

    fn from(step: Step<T>) -> Told {
        Told {
            number: u32::from(number(step.answer)),
            channel: step.channel,
        }
    }
}

// A channel opened as `channel::open` does; the dead one on a refusal.
pub fn opened(key: &[u8], mark: &[u8; 4], tag_len: usize) -> Told
    ensures { OpeningCall key.now mark.now tag_len result.number result.channel }
{
    Told::from(channel::open(key, Mark(*mark), tag_len))
}

// A message begun as `channel::begin` does; the channel as it was on a refusal.
pub fn begun(c: Channel, number: u64, ad: &[u8]) -> Told
    ensures { BeginCall c number ad.now result.number result.channel }
{
    Told::from(channel::begin(c, Number(number), ad))
}

// A piece fed as `channel::feed` does, with the count of bytes written in `count`; channel and output as they were on a refusal.
pub fn fed(c: Channel, piece: &[u8], out: &mut [u8], count: &mut usize) -> Told
    ensures { FeedCall c piece.now out.old result.number result.channel out.new count.new }
{
    let fed = channel::feed(c, piece, out);
    *count = fed.answer.unwrap_or(0);
    Told::from(fed)
}

// A message finished as `channel::finish` does, with its tag in `tag`; the channel as it was and zeros on a refusal.
pub fn finished(c: Channel, tag: &mut [u8; 16]) -> Told
    ensures { FinishCall c result.number result.channel tag.new }
{
    let finished = channel::finish(c);
    *tag = finished.answer.unwrap_or([0u8; 16]);
    Told::from(finished)
}

// A message abandoned as `channel::abandon` does; the channel as it was on a refusal.
pub fn abandoned(c: Channel) -> Told
    ensures { AbandonCall c result.number result.channel }
{
    Told::from(channel::abandon(c))
}
