// No code: the demands as theorems about the definitions (specs/ states them, proofs/ proves them).
#![tactic(auto)]
