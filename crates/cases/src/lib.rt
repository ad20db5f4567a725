// Document 01's cases marked P ('From the water'), one of them turned round by document 02, §4, in a single table with one claim over it: specs/Cases.antt has
// the table, proofs/Cases.antt the claim. There is no code here: each case is computed by the definitions that stand in the contracts of the crates below.

#![tactic(auto)]
