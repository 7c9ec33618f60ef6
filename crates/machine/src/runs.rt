// The run: the open steps of a list in turn, as many as the budget allows.
ghost use Rattle.std.specs.Prelude.{◌≡◌, map, length};
ghost use Rattle.encoding.specs.Numbers.{asked_by};
ghost use Rattle.encoding.specs.Calls.{machine_of};
ghost use Rattle.encoding.specs.InnerSteps.{silent_in};
ghost use Rattle.encoding.specs.InnerRuns.{run_in};
ghost use Rattle.machine.specs.Answers.{ending_meant};
ghost use Rattle.steps.specs.Inner.{bare, Workable};
ghost use Rattle.machine.specs.Inner.{Attempted, Tallied, ends_with};

use floor::Floor;
use search::Rows;
use state::State;

// How a run ended.
#[derive(Clone, Copy)]
pub enum Ending {
    // No step is open.
    Silent,
    // The budget is used up and unread steps are left.
    Spent,
    // The list is read to its end.
    Ended,
}

// A run that was made: the number of steps taken, and how it ended.
#[derive(Clone, Copy)]
pub struct Run {
    pub taken: usize,
    pub ending: Ending,
}

// How far a run has come: the steps taken, and the steps read.
#[derive(Clone, Copy)]
pub struct Tally {
    pub taken: usize,
    pub read: usize,
}

// Takes the step that a number names if it is open, and passes over it otherwise; whether it was taken.
fn try_step(f: Floor, walls: &[u16], free: Rows, m: &mut [u16], x: u16) -> bool
    requires { Workable f walls.now free m.old }
    ensures { Attempted (machine_of f walls.now) m.old (asked_by x) result m.new }
{
    match steps::asked_by(x) {
        Some(s) if steps::is_open(f, m, s) => {
            steps::take(f, walls, free, m, s);
            true
        }
        _ => false,
    }
}

// Reads the list from the front while steps are left and fewer are taken than the budget.
pub fn run_all(
    f: Floor,
    walls: &[u16],
    free: Rows,
    m: &mut [u16],
    numbers: &[u16],
    budget: usize,
) -> Tally
    requires { Workable f walls.now free m.old }
    ensures { Tallied (run_in (machine_of f walls.now) m.old
        (map asked_by numbers.now) budget) budget
        (length numbers.now) result.taken result.read m.new }
{
    let mut taken: usize = 0;
    for (read, x) in numbers.iter().enumerate() {
        if taken >= budget {
            return Tally { taken, read };
        }
        taken += usize::from(try_step(f, walls, free, m, *x));
    }
    Tally {
        taken,
        read: numbers.len(),
    }
}

// How a run ended: silent, if no step is open then; otherwise spent, if the budget is used up and steps are left; otherwise
// ended.
#[tactic(auto, unfolding(crate::specs::Answers::ending_meant, crate::specs::Inner::ends_with, reference::specs::Ending::ends_as))]
pub fn how_ended(s: &State, tally: Tally, budget: usize, listed: usize) -> Ending
    ensures { ending_meant result ≡
        ends_with (silent_in (bare s.now.floor) s.now.memory.now) tally.taken budget tally.read listed }
{
    if steps::is_silent(s.floor, s.memory) {
        Ending::Silent
    } else if tally.taken == budget && tally.read < listed {
        Ending::Spent
    } else {
        Ending::Ended
    }
}
