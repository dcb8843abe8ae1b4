#![tactic(auto)]

// The file that the recorder writes is the journal of its script's calls and of the answers to them,
// and the judge accepts it: theorems alone, no code.
