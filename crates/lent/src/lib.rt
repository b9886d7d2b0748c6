// What the proofs of functions that lend a struct share: no code, but laws (proofs/).
#![tactic(auto)]
