// The three demands (rules R8.1 to R8.3) and the numbers to check by (rules R10.2 to R10.9): no code, but statements (specs/)
// and their proofs (proofs/).
#![tactic(auto)]
