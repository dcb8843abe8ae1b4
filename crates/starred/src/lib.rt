// The starred trials of document 01, written out (specs/) and proved of the rules (proofs/).
#![tactic(auto)]
