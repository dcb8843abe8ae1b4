// The trials of request E8, of what is counted of reads, written out (specs/) and proved (proofs/).
#![tactic(auto)]
