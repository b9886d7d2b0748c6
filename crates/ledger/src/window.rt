// The window of a ledger: its marks are read, set and shifted as one number of 128 bits.
ghost use Rattle.std.specs.Prelude.{◌≡◌, ◌<◌};
ghost use Rattle.ledger.specs.History.{reach};
ghost use Rattle.ledger.specs.Ledger.{window_of, ledger_of, mark_at, shifted_by, raised_to, marked_at};

use super::{Ledger, REACH};

// Whether the number d below the highest is marked.
#[tactic(auto, unfolding(crate::specs::Ledger::mark_at))]
pub fn has_mark(l: Ledger, d: u64) -> bool
    requires { d < reach }
    ensures { result ≡ mark_at (window_of l) d }
{
    (window(l) >> d) % 2 == 1
}

// The same marks, with n as the highest number if it is higher.
#[tactic(auto, unfolding(crate::specs::Ledger::raised_to))]
pub fn raise(l: Ledger, n: u64) -> Ledger
    ensures { result ≡ raised_to l n }
{
    if n <= l.high {
        return l;
    }
    with_window(n, shift(window(l), n - l.high))
}

// The number d below the highest is marked, if the window reaches it.
#[tactic(auto, unfolding(crate::specs::Ledger::marked_at, crate::specs::Ledger::with_mark))]
pub fn mark(l: Ledger, d: u64) -> Ledger
    ensures { result ≡ marked_at l d }
{
    let w = window(l);
    let marked = if d < REACH { w | (1 << d) } else { w };
    with_window(l.high, marked)
}

// Each mark of a window k places up; those that leave it are forgotten.
#[tactic(auto, unfolding(crate::specs::Ledger::shifted_by))]
fn shift(w: u128, k: u64) -> u128
    ensures { result ≡ shifted_by w k }
{
    if REACH <= k {
        return 0;
    }
    w << k
}

// The window as one number: bit d tells that the number d below the highest was accepted.
#[tactic(auto, unfolding(crate::specs::Ledger::window_of))]
fn window(l: Ledger) -> u128
    ensures { result ≡ window_of l }
{
    (u128::from(l.far) << 64) | u128::from(l.near)
}

// The ledger of a highest number and a window. C has no number of 128 bits to read, so a ledger keeps the window as two.
#[tactic(auto, unfolding(crate::specs::Ledger::ledger_of))]
fn with_window(high: u64, w: u128) -> Ledger
    ensures { result ≡ ledger_of high w }
{
    Ledger {
        high,
        near: (w & 0xffff_ffff_ffff_ffff) as u64,
        far: (w >> 64) as u64,
    }
}
