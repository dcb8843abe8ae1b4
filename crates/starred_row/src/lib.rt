// Starred trial I of document 01, a full row of versions, written out (specs/) and proved (proofs/).
#![tactic(auto)]
