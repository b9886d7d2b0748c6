// Hex: its digits, and lines of them taken in byte by byte.
#![tactic(auto)]

pub mod digits;
pub mod line;
