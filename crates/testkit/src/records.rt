// Looking at answers and states in lent memory: where their numbers stand, written out for each number of carriers.
use crate::memory::{at, same_part, strided, wide_at};

// Whether the records of n carriers in a memory, from a place on and each a stride behind the one before, are these answers.
pub fn answers_are(m: &[u16], from: usize, stride: usize, n: usize, answers: &[u16]) -> bool {
    (0..n).all(|i| same_part(m, strided(from, stride, i), answers, strided(0, 65, i), 65))
}

// Whether n numbers, the first at a place and each a stride behind the one before, are all 0.
fn are_zero(m: &[u16], from: usize, stride: usize, n: usize) -> bool {
    (0..n).all(|i| at(m, strided(from, stride, i)) == 0)
}

// The pairs of n carriers. Kept beside `first_channel`: two tables, written out so that they are no code of the library again.
fn pairs(n: usize) -> usize {
    match n {
        1 => 0,
        2 => 1,
        3 => 3,
        4 => 6,
        5 => 10,
        6 => 15,
        7 => 21,
        _ => 28,
    }
}

// The place of the first channel: behind the count (2 numbers), the carriers (67 each) and the views (65 a pair).
fn first_channel(n: usize) -> usize {
    match n {
        1 => 69,
        2 => 201,
        3 => 398,
        4 => 660,
        5 => 987,
        6 => 1379,
        7 => 1836,
        _ => 2358,
    }
}

// Whether nobody is due, from 3 on, and every channel, of 261 numbers, is empty.
pub fn at_rest(m: &[u16], n: usize) -> bool {
    are_zero(m, 3, 67, n) && are_zero(m, first_channel(n), 261, pairs(n))
}

// The taken count in memory: thousands and rest.
pub fn taken_in(m: &[u16]) -> usize {
    1000 * wide_at(m, 0) + wide_at(m, 1)
}
