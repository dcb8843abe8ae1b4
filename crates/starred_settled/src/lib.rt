// The trials of request E6, of updates past their writing, written out (specs/) and proved (proofs/).
#![tactic(auto)]
