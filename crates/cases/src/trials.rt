// Trials in the three orders: the report is the memory that is lent, the state is a memory of its own.
use crate::tally::{End, Tally};
use commands::answers::Answer;
use commands::setup::{floor_of, walls_of};
use testkit::fields::field;
use testkit::memory::{buffer, front, narrow, same};

// A seed from its high and its low half.
fn seed_of(high: u16, low: u16) -> u32 {
    u32::from(high) * 65536 + u32::from(low)
}

// Whether a state after a number of steps is silent as every order's must be.
fn is_right(setup: &[u16], state: &[u16], steps: usize) -> bool {
    Tally::new().noted(setup, state, End::Silent(steps)).right == 1
}

// Trial: an order, the high and the low half of a seed, and how many numbers are lent for the state.
pub fn trial(text: &[u8], setup: &[u16], m: &mut [u16]) -> Answer {
    let mut space = buffer();
    let state = front(&mut space, field(text, 3));
    let order = narrow(field(text, 0));
    let seed = seed_of(narrow(field(text, 1)), narrow(field(text, 2)));
    match trial::trial(floor_of(setup), walls_of(setup), order, seed, state, m) {
        Ok(steps) => Answer::Steps(steps).only_if(is_right(setup, state, steps)),
        Err(r) => Answer::Refused(r).only_if(same(state, &buffer())),
    }
}
