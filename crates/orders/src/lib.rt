// The three orders in which a trial takes steps (document 02, slip 1), over the reference machine: definitions and theorems. No code.
#![tactic(auto)]
