// Closed cases of the definitions beside document 01's key cases, with the oracle's bits: specs/ClosedCases.antt has the
// tables, proofs/ClosedCases.antt the theorems. No work is done here.
#![tactic(auto)]
