// The sealing channel: messages sealed in pieces under a station's mark, each with a number of its own that is never used twice.
//
// A channel goes in by value and comes back (rule R12.8). Whatever its fields hold, a call answers; every length may be handed in.
#![tactic(auto)]

ghost use Rattle.channel.specs.Promise.{OpeningPromise, BeginPromise, FeedPromise, FinishPromise, AbandonPromise};

use answer::Refusal;
use channel_answers::{begin_answer, feed_answer, is_idle, opening_answer};
use channel_state::{
    Channel, Mark, Number, begun, crypt_piece, dead, ended, message_tag, new_channel, with_bytes,
};

// What a call gives: the channel, and a value of its own or the refusal.
#[derive(Clone, Copy)]
pub struct Step<T> {
    pub channel: Channel,
    pub answer: Result<T, Refusal>,
}

// Opens a channel; a refusal hands back the dead one.
#[tactic(auto, unfolding(channel_state::specs::State::opening_of))]
pub fn open(key: &[u8], mark: Mark, tag_len: usize) -> Step<()>
    ensures { OpeningPromise key.now mark.0 tag_len result }
{
    match opening_answer(key.len(), tag_len) {
        Ok(()) => Step {
            channel: new_channel(key, mark, tag_len),
            answer: Ok(()),
        },
        Err(refusal) => Step {
            channel: dead(),
            answer: Err(refusal),
        },
    }
}

// Begins a message under a number, which is used from then on, over its whole associated data. A refusal leaves the channel as it
// is.
#[tactic(auto, unfolding(channel_state::specs::State::begin_of))]
pub fn begin(c: Channel, number: Number, ad: &[u8]) -> Step<()>
    ensures { BeginPromise c number.0 ad.now result }
{
    let n = number.0;
    match begin_answer(&c, n, ad.len()) {
        Ok(()) => Step {
            channel: begun(c, n, ad),
            answer: Ok(()),
        },
        Err(refusal) => Step {
            channel: c,
            answer: Err(refusal),
        },
    }
}

// Seals a piece of text: as many bytes as it has are written to the front of `out`, and counted. A refusal leaves channel and
// output as they are.
#[tactic(auto, unfolding(channel_state::specs::State::feed_of, channel_state::specs::State::feed_out))]
pub fn feed(c: Channel, piece: &[u8], out: &mut [u8]) -> Step<usize>
    ensures { FeedPromise c piece.now out.old result out.new }
{
    match feed_answer(&c, piece.len(), out.len()) {
        Ok(()) => {
            crypt_piece(out, &c, piece);
            let n = piece.len();
            Step {
                channel: with_bytes(c, &out[..n]),
                answer: Ok(n),
            }
        }
        Err(refusal) => Step {
            channel: c,
            answer: Err(refusal),
        },
    }
}

// Ends the message with its tag, zeros past the tag's length. A refusal leaves the channel as it is.
#[tactic(auto, unfolding(channel_state::specs::State::end_number, channel_state::specs::State::end_of, channel_state::specs::State::tag_out))]
pub fn finish(c: Channel) -> Step<[u8; 16]>
    ensures { FinishPromise c result }
{
    if is_idle(&c) {
        return Step {
            channel: c,
            answer: Err(Refusal::WrongPhase),
        };
    }
    let tag = message_tag(&c);
    Step {
        channel: ended(c),
        answer: Ok(tag),
    }
}

// Ends the message without a tag; its number stays used. A refusal leaves the channel as it is.
#[tactic(auto, unfolding(channel_state::specs::State::end_number, channel_state::specs::State::end_of))]
pub fn abandon(c: Channel) -> Step<()>
    ensures { AbandonPromise c result }
{
    if is_idle(&c) {
        return Step {
            channel: c,
            answer: Err(Refusal::WrongPhase),
        };
    }
    let idle = ended(c);
    Step {
        channel: idle,
        answer: Ok(()),
    }
}
