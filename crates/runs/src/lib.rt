// What holds over any list of calls on a channel: no code, but definitions (specs/) and theorems (proofs/).
#![tactic(auto)]
