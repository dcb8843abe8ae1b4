// Request E13: small runs, and marks made up, whose graphs are computed (specs/ and proofs/).
#![tactic(auto)]
