// What is looked at where an order has come to silence.
use crate::calls;
use commands::answers::Answer;
use commands::{pairs, setup};
use std::io;
use std::io::Write;
use testkit::memory::{plus, wide_at, zeros};
use testkit::{records, show};

// Where an order has come to.
#[derive(Clone, Copy)]
pub enum End {
    // Silence, with the number of steps taken.
    Silent(usize),
    // A step that is not open while another one is: it is no order.
    Cut,
    // No silence, or an answer that is neither taken nor what the step waits for.
    Odd,
}

// How many orders came to silence, and of how many each of the other things holds.
#[derive(Clone, Copy)]
pub struct Tally {
    // Silent.
    pub orders: usize,
    // All is as it must be.
    pub right: usize,
    // As many steps were taken as the ceiling says.
    pub full: usize,
    // A carrier has none.
    pub failing: usize,
    // All steps taken.
    pub steps: usize,
    // Orders that did not come to silence, or met an answer that is neither taken nor what the step waits for.
    pub odd: usize,
}

// another planner: whether the second planner's answers are the records from a place on, each a stride behind the one before.
pub fn second_says(setup: &[u16], m: &[u16], from: usize, stride: usize) -> bool {
    let mut other = zeros();
    oracle::second_plan(setup::floor_of(setup), setup::walls_of(setup), &mut other);
    records::answers_are(m, from, stride, wide_at(setup, 4), &other)
}

// One more where it holds, up to a million.
fn counted(n: usize, holds: bool) -> usize {
    if holds {
        n.saturating_add(1).min(1000000)
    } else {
        n
    }
}

impl Tally {
    // No order yet.
    pub fn new() -> Self {
        Self {
            orders: 0,
            right: 0,
            full: 0,
            failing: 0,
            steps: 0,
            odd: 0,
        }
    }

    // An order that came to silence with that number taken. What must be: the answers are both planners', no two of them in conflict, the
    // taken count in memory is the number of steps that were answered as taken, that number is at most the ceiling, and the state rests.
    fn silent(self, setup: &[u16], m: &[u16], taken: usize) -> Self {
        let n = wide_at(setup, 4);
        let most = machine::ceiling(n).unwrap_or(0);
        let mut planned = zeros();
        let failing = calls::is_failing(setup, &mut planned);
        let right = records::answers_are(m, 4, 67, n, &planned)
            && second_says(setup, m, 4, 67)
            && pairs::are_free(setup, &planned)
            && records::taken_in(m) == taken
            && taken <= most
            && records::at_rest(m, n);
        Self {
            orders: counted(self.orders, true),
            right: counted(self.right, right),
            full: counted(self.full, taken == most),
            failing: counted(self.failing, failing),
            steps: plus(self.steps, taken),
            odd: self.odd,
        }
    }

    // One more order that is odd.
    pub fn odd(self) -> Self {
        let mut more = self;
        more.odd = counted(self.odd, true);
        more
    }

    // One more order.
    pub fn noted(self, setup: &[u16], m: &[u16], end: End) -> Self {
        match end {
            End::Silent(taken) => self.silent(setup, m, taken),
            End::Cut => self,
            End::Odd => self.odd(),
        }
    }

    // The figures.
    pub fn say<W: Write>(self, out: &mut W) -> io::Result<Answer> {
        for n in [
            self.orders,
            self.right,
            self.full,
            self.failing,
            self.steps,
            self.odd,
        ] {
            show::number(out, n)?;
        }
        Ok(Answer::Shown)
    }
}
