#![tactic(auto)]

// No code: the finest cut as it is put out, read as a chopping, says its pieces, and is accepted.
