// What crosses the boundary to C and Rust as numbers: a floor record as 54 numbers, and an answer as one word. Helpers of `kalomivund`.
#![tactic(auto)]

pub mod numbers;
pub mod word;
