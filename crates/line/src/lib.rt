// Request E4's promise: who waits in line is served (specs/ and proofs/).
#![tactic(auto)]
