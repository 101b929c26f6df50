// No code: the table of a set, a map and a bound as a definition (specs/), and what it means (proofs/).
#![tactic(auto)]
