// The definitions of demand 3 on small runs, right ones and wrong ones (specs/ and proofs/).
#![tactic(auto)]
