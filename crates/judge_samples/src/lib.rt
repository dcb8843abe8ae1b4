// The definition of a verdict on small files, on both sides of each limit (specs/ and proofs/).
#![tactic(auto)]
