// Records of four lines of hex, and the lines that answer them.
#![tactic(auto)]

pub mod answers;
pub mod reader;
