// Every order of the steps of a small floor: all sequences of open steps until silence, depth first. A list of choices among the steps of
// the setup is followed from the fresh state; where it leads to a step that is not open, or to silence, its last choice moves on.
use crate::tally::{End, Tally};
use crate::{calls, tally};
use commands::answers;
use commands::answers::Answer;
use testkit::draws;
use testkit::memory::{at, narrow, plus, put, wide_at};

// Follows a list of choices from the fresh state by single steps to one that is refused, and answers how many had a use. There it is silent
// if no step is open, cut if another one is, and odd if the refusal does not say what the step waits for, or there is none.
fn follow(setup: &[u16], m: &mut [u16], choices: &[u16]) -> (End, usize) {
    calls::fresh(setup, m);
    for k in 0..16 {
        let x = draws::choice(setup, wide_at(choices, k));
        if let Answer::Refused(r) = calls::step(setup, m, x) {
            if !answers::waits(usize::from(x), r) {
                return (End::Odd, plus(k, 1));
            }
            if calls::is_silent(setup, m) {
                return (End::Silent(k), k);
            }
            return (End::Cut, plus(k, 1));
        }
    }
    (End::Odd, 17)
}

// The last of the first k choices that can moves on, and those behind it are the first again; whether there is one.
fn next(choices: &mut [u16], k: usize, count: usize) -> bool {
    for left in (0..k).rev() {
        let c = plus(usize::from(at(choices, left)), 1);
        if c < count {
            put(choices, left, narrow(c));
            return true;
        }
        put(choices, left, 0);
    }
    false
}

// All orders of a floor.
pub fn every(setup: &[u16], m: &mut [u16]) -> Tally {
    let mut choices = [0u16; 16];
    let mut t = Tally::new();
    for _ in 0..1000000 {
        let (end, used) = follow(setup, m, &choices);
        t = t.noted(setup, m, end);
        if !next(&mut choices, used, wide_at(setup, 100)) {
            return t;
        }
    }
    t.odd()
}
