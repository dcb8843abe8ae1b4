// The trials of request E4, of those who wait in line, written out (specs/) and proved (proofs/).
#![tactic(auto)]
