// Demand 3 of document 01 as one claim over every list of calls, in `specs` and `proofs`. It has no code.
#![tactic(auto)]
