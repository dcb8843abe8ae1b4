// Demand 3: what a run of calls amounts to, transactions one after another (specs/ and proofs/).
#![tactic(auto)]
