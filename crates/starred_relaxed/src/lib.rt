// The trials of request E11, of relaxed queries, written out (specs/) and proved (proofs/).
#![tactic(auto)]
