// The steps of document 01 over the state in lent memory: a step as a number, which steps are there and open, and what an open step
// does. The functions are helpers of `machine`, whose entries check what they require.
#![tactic(auto)]

mod naming;
mod openness;
mod taking;

pub use naming::{asked_by, is_named, is_there};
pub use openness::{is_open, is_silent, waits};
pub use taking::{rows_for, take};

// A step; carriers count from 0.
#[derive(Clone, Copy)]
pub enum Step {
    // Carrier i plans.
    Plan(usize),
    // The oldest message from one carrier to another is delivered.
    Deliver { from: usize, to: usize },
}

// What a step that was taken answers.
#[derive(Clone, Copy)]
pub enum Taken {
    // Planned and kept.
    Kept,
    // Planned and sent.
    Sent,
    // Delivered.
    Delivered,
}
