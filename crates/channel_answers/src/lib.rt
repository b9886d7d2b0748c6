// What each call of a channel answers. The phase is looked at first.
#![tactic(auto)]

ghost use Rattle.std.specs.Prelude.{◌≡◌, ◌+◌, ◌<◌, ◌≤◌, ◌^◌, OnOk};
ghost use Rattle.answer.specs.Number.{number_of};
ghost use Rattle.channel_state.specs.State.{busy, idle, opening_number, begin_number, feed_number};

use answer::Refusal;
use channel_state::Channel;
use ledger::verdict;
use rows::{ad_bad, key_bad, tag_bad, text_bad, too_short};

// The answer to opening a channel: row 1, then row 3.
#[tactic(auto, unfolding(channel_state::specs::State::opening_number, rows::specs::Rows::key_bad, rows::specs::Rows::tag_bad))]
pub fn opening_answer(key: usize, tag: usize) -> Result<(), Refusal>
    ensures numbered { number_of result ≡ opening_number key tag }
    ensures fits { OnOk result ((16 ≤ key) × (key ≤ 32) × (tag ≤ 16)) }
{
    if key_bad(key) {
        return Err(Refusal::KeyLength);
    }
    if tag_bad(tag) {
        return Err(Refusal::TagLength);
    }
    Ok(())
}

// The answer to a begin: 9, then row 4, then what the ledger says of the number.
#[tactic(auto, unfolding(channel_state::specs::State::begin_number))]
pub fn begin_answer(c: &Channel, n: u64, ad: usize) -> Result<(), Refusal>
    ensures numbered { number_of result ≡ begin_number c.now n ad }
    ensures fits { OnOk result (ad < 2 ^ 32) }
{
    if is_busy(c) {
        return Err(Refusal::WrongPhase);
    }
    if ad_bad(ad) {
        return Err(Refusal::AdLong);
    }
    verdict(c.ledger, n)
}

// The answer to a feed: 9, then row 5 over the text with this piece, then row 7.
#[tactic(auto, unfolding(channel_state::specs::State::feed_number))]
pub fn feed_answer(c: &Channel, piece: usize, room: usize) -> Result<(), Refusal>
    requires { piece < 2 ^ 63 }
    ensures numbered { number_of result ≡ feed_number c.now piece room }
    ensures fits { OnOk result ((c.now.message.text + piece < 2 ^ 32) × (piece ≤ room)) }
{
    if is_idle(c) {
        return Err(Refusal::WrongPhase);
    }
    if text_bad(c.message.text as usize + piece) {
        return Err(Refusal::TextLong);
    }
    if too_short(room, piece) {
        return Err(Refusal::OutputShort);
    }
    Ok(())
}

// Dead, or with a message open.
#[tactic(auto, unfolding(channel_state::specs::State::busy))]
fn is_busy(c: &Channel) -> bool
    ensures { result ≡ busy c.now }
{
    c.tag == 0 || c.message.phase != 0
}

// Dead, or with no message open.
#[tactic(auto, unfolding(channel_state::specs::State::idle))]
pub fn is_idle(c: &Channel) -> bool
    ensures { result ≡ idle c.now }
{
    c.tag == 0 || c.message.phase == 0
}
