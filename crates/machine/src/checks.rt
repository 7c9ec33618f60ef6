// The refusals of the entries, in document 01's order: the floor's, 9, 10, 7, then what a single step waits for: 8, 12, 13.
ghost use Rattle.std.specs.Prelude.{◌≡◌, length};
ghost use Rattle.laws.specs.Verdict.{demand_each};
ghost use Rattle.floor.specs.Answers.{verdict_of};
ghost use Rattle.reference.specs.Table.{step};
ghost use Rattle.encoding.specs.Calls.{place_verdict, state_verdict};
ghost use Rattle.encoding.specs.InnerCalls.{single_verdict_in};
ghost use Rattle.steps.specs.Answers.{step_meant};
ghost use Rattle.steps.specs.Inner.{bare};
ghost use Rattle.machine.specs.Inner.{named_at};

use floor::{Floor, Reason, Refusal};
use state::State;
use steps::Step;

// The refusals of a lent place for a state.
pub fn lent_place(f: Floor, walls: &[u16], lent: usize) -> Result<(), Refusal>
    ensures { verdict_of result ≡ place_verdict f walls.now lent }
{
    floor::check(f, walls)?;
    floor::check_length(state::state_size(f.carriers as usize), lent)
}

// The refusals of a lent state.
pub fn lent_state(f: Floor, walls: &[u16], m: &[u16]) -> Result<(), Refusal>
    ensures { verdict_of result ≡ state_verdict f walls.now m.now }
{
    lent_place(f, walls, m.len())?;
    if !state::valid(f, m) {
        return Err(Refusal {
            reason: Reason::NoState,
            place: 0,
        });
    }
    Ok(())
}

// The refusals of a single step on a checked state: 7, then what it waits for.
pub fn ready(s: &State, x: Step) -> Result<(), Refusal>
    ensures { verdict_of result ≡ single_verdict_in (bare s.now.floor) s.now.memory.now (step (step_meant x)) }
{
    if !steps::is_there(s.floor, x) {
        return Err(Refusal {
            reason: Reason::Unknown,
            place: 0,
        });
    }
    steps::waits(s.floor, s.memory, x)
}

// 7 with the position of the first number of a list that names no step that is there.
pub fn all_named(f: Floor, numbers: &[u16]) -> Result<(), Refusal>
    ensures { verdict_of result ≡ demand_each 7 0 (named_at f numbers.now) (length numbers.now) }
{
    match numbers.iter().position(|x| !steps::is_named(f, *x)) {
        Some(place) => Err(Refusal {
            reason: Reason::Unknown,
            place,
        }),
        None => Ok(()),
    }
}
