// The ledger of a sealing channel: which message numbers were accepted.
#![tactic(auto)]

mod window;

ghost use Rattle.std.specs.Prelude.{◌≡◌};
ghost use Rattle.answer.specs.Number.{number_of};
ghost use Rattle.ledger.specs.Ledger.{fresh_ledger, verdict_of, accepted_by};

use answer::Refusal;
use window::{has_mark, mark, raise};

// How far below the highest accepted number a number is stale.
const REACH: u64 = 128;

// The highest accepted number, and 128 marks: bit d of `near`, or bit d - 64 of `far`, tells that high - d was accepted.
#[repr(C)]
#[derive(Clone, Copy)]
pub struct Ledger {
    pub high: u64,
    pub near: u64,
    pub far: u64,
}

// The ledger that accepted nothing.
pub fn fresh() -> Ledger
    ensures { result ≡ fresh_ledger }
{
    Ledger {
        high: 0,
        near: 0,
        far: 0,
    }
}

// Whether the number n may be accepted; it is refused as `Stale` or `Used`.
#[tactic(auto, unfolding(crate::specs::Ledger::verdict_of))]
pub fn verdict(l: Ledger, n: u64) -> Result<(), Refusal>
    ensures { number_of result ≡ verdict_of l n }
{
    let Some(below) = l.high.checked_sub(n) else {
        return Ok(());
    };
    if REACH <= below {
        return Err(Refusal::Stale);
    }
    if has_mark(l, below) {
        return Err(Refusal::Used);
    }
    Ok(())
}

// The ledger with the number n accepted.
#[tactic(auto, using(crate::proofs::HistoryLaws::raised_high), unfolding(crate::specs::Ledger::accepted_by))]
pub fn accept(l: Ledger, n: u64) -> Ledger
    ensures { result ≡ accepted_by l n }
{
    let raised = raise(l, n);
    mark(raised, raised.high - n)
}
