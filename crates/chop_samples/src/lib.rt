// The judgement on small choppings, those of source document 004 among them (specs/ and proofs/).
#![tactic(auto)]
