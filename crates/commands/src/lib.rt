// Test code: the commands of a script that need no state of the machine, on sheets, searches and pairs of routes; the setup of numbers that
// they are given, and what they answer.
#![tactic(auto)]

pub mod answers;
pub mod pairs;
pub mod routes;
pub mod setup;
pub mod sheets;
