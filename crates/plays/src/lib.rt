// What a trial is, a script of calls and their answers (specs/), and how it is computed (proofs/).
#![tactic(auto)]
