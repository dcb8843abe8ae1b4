// The trials of request E2, with 32 and 33 items, written out (specs/) and proved (proofs/).
#![tactic(auto)]
