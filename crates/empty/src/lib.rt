// The empty programs of document 01 (specs/), none of which meets what the keeper promises (proofs/).
#![tactic(auto)]
