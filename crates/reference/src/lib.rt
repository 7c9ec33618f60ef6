// The reference machine (document 01, 'The machine') and its theorems, in `specs` and `proofs`. It has no code.
#![tactic(auto)]
