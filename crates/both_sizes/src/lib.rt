// What is promised of the keeper, of every size with a place for each slot: so of 16 slots and of 32.
#![tactic(auto)]
