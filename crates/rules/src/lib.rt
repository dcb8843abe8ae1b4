// The rules of the keeper as definitions (specs/), and what follows from them (proofs/).
#![tactic(auto)]
