// No code: the complete runs of a small floor are defined in specs/ and their theorems proved in proofs/.
#![tactic(auto)]
