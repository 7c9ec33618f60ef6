// Test code: the lines of a script and their numbers, drawn numbers, lent memory to look at, and printing. It uses no crate of the library.
// Every function answers for any input, so none has a `requires`.
#![tactic(auto)]

pub mod bytes;
pub mod draws;
pub mod fields;
pub mod memory;
pub mod records;
pub mod show;
