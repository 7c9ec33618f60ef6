// Drawn orders of drawn floors: half by single steps, half by runs.
use crate::calls;
use crate::tally::{End, Tally};
use commands::answers::Answer;
use commands::{answers, setup};
use testkit::fields::field;
use testkit::memory::{narrow, part, plus};
use testkit::{draws, memory};

// How many steps an answer to step x, or to a run where x is 0, says were taken: none by a step that waits, and by any other refusal more
// than there can be.
fn gained(x: usize, came: Answer) -> usize {
    match came {
        Answer::Refused(r) => if answers::waits(x, r) { 0 } else { 65536 },
        Answer::Silent(n) | Answer::Spent(n) | Answer::Ended(n) => n,
        _ => 1,
    }
}

// A run of the first steps of a drawn list, 0 to 31 of them, with a drawn budget of 0 to 15.
fn one_run(setup: &[u16], m: &mut [u16], seed: usize) -> Answer {
    let list = draws::draw_list(setup, seed);
    calls::run(setup, m, part(&list, 0, seed / 16 % 32), narrow(seed % 16))
}

// A run; or a single step, drawn from those of the setup: the steps taken.
fn one(setup: &[u16], m: &mut [u16], seed: usize, runs: bool) -> usize {
    if runs {
        return gained(0, one_run(setup, m, draws::beside(seed, 4)));
    }
    let x = draws::draw_step(setup, seed);
    gained(usize::from(x), calls::step(setup, m, x))
}

// To silence from the fresh state, by runs where the seed is even, by single steps where it is odd; odd where there is no end.
fn go(setup: &[u16], m: &mut [u16], seed: usize) -> End {
    calls::fresh(setup, m);
    let mut next_seed = seed;
    let mut taken = 0;
    for _ in 0..100000 {
        if calls::is_silent(setup, m) {
            return End::Silent(taken);
        }
        next_seed = draws::next(next_seed);
        taken = plus(taken, one(setup, m, next_seed, seed % 2 == 0));
    }
    End::Odd
}

// One drawn order of a floor with drawn starts, docks and walls.
fn draw_one(tally: Tally, setup: &[u16], m: &mut [u16], cells: usize, seed: usize) -> Tally {
    let mut drawn = setup::cleared();
    memory::copy(setup, memory::front(&mut drawn, 201));
    draws::draw_floor(&mut drawn, cells, seed);
    let end = go(&drawn, m, seed);
    tally.noted(&drawn, m, end)
}

// drawn: a number of orders, on floors of a number of cells, with seeds from one on.
pub fn drawn(text: &[u8], setup: &[u16], m: &mut [u16]) -> Tally {
    let mut t = Tally::new();
    for k in 0..field(text, 0) {
        t = draw_one(t, setup, m, field(text, 1), plus(field(text, 2), k));
    }
    t
}
