// The finest cut of small programs, those of source document 004 among them (specs/ and proofs/).
#![tactic(auto)]
