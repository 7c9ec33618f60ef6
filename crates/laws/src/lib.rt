// Blocks and parts of a memory, and the laws of tests, lists and memory that all crates share. They speak of no floor. No code.
#![tactic(auto)]
