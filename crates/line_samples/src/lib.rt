// Request E4's promise on small runs, and that what it supposes is needed (specs/ and proofs/).
#![tactic(auto)]
