// The machine's state as it lies in lent memory: definitions and their laws; no code.
#![tactic(auto)]
