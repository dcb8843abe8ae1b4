// Request E13: the multiversion serialization graph of a run, and that it has no circle (specs/ and proofs/).
#![tactic(auto)]
