// The machine of document 01 over lent memory: the fresh state, the single step, the run, the step ceiling.
#![tactic(auto)]

mod checks;
mod handbook;
mod runs;

ghost use Rattle.std.specs.Prelude.{◌≡◌, ◌≤◌, length};
ghost use Rattle.laws.specs.Verdict.{passed, value, demand_each};
ghost use Rattle.floor.specs.Answers.{verdict_of};
ghost use Rattle.encoding.specs.Calls.{machine_of, place_verdict, state_verdict, fresh_memory, reply_to, memory_after, single_call, run_call};
ghost use Rattle.encoding.specs.InnerCalls.{reply_in, memory_in};
ghost use Rattle.machine.specs.Answers.{stepped_reply, run_told, ran_reply, taken_number};
ghost use Rattle.machine.specs.Inner.{named_at};
ghost use Rattle.machine.specs.Ceiling.{figure_of, most_steps};

pub use checks::lent_place;
use floor::{Floor, Reason, Refusal};
pub use runs::{Ending, Run};
use state::State;
use steps::Taken;

// Puts the fresh state of a floor into lent memory.
pub fn fresh(f: Floor, walls: &[u16], state: &mut [u16]) -> Result<(), Refusal>
    ensures answers { verdict_of result ≡ place_verdict f walls.now (length state.old) }
    ensures stores { state.new ≡ fresh_memory f walls.now state.old }
{
    checks::lent_place(f, walls, state.len())?;
    state::write_fresh(state, f.carriers as usize);
    Ok(())
}

// A single step on a checked state.
fn step_on(f: Floor, walls: &[u16], state: &mut [u16], number: u16) -> Result<Taken, Refusal>
    requires { state_verdict f walls.now state.old ≡ passed }
    ensures answers { stepped_reply result ≡
        reply_in (machine_of f walls.now) state.old (single_call state.old number) }
    ensures stores { state.new ≡
        memory_in (machine_of f walls.now) state.old (single_call state.old number) }
{
    let Some(s) = steps::asked_by(number) else {
        return Err(Refusal {
            reason: Reason::Unknown,
            place: 0,
        });
    };
    let now = State {
        floor: f,
        memory: state,
    };
    checks::ready(&now, s)?;
    let free = steps::rows_for(f, walls, s);
    Ok(steps::take(f, walls, free, state, s))
}

// Takes a single step on a lent state: plan i is 100 + i, deliver j to i is 200 + 10 j + i.
pub fn step(f: Floor, walls: &[u16], state: &mut [u16], number: u16) -> Result<Taken, Refusal>
    ensures answers { stepped_reply result ≡ reply_to f walls.now state.old
        (single_call state.old number) }
    ensures stores { state.new ≡
        memory_after f walls.now state.old (single_call state.old number) }
{
    checks::lent_state(f, walls, state)?;
    step_on(f, walls, state, number)
}

// A run on a checked state whose list names steps.
fn run_on(f: Floor, walls: &[u16], state: &mut [u16], numbers: &[u16], budget: u16) -> Run
    requires state_value { state_verdict f walls.now state.old ≡ passed }
    requires named_value { demand_each 7 0 (named_at f numbers.now) (length numbers.now) ≡ passed }
    ensures answers { value (run_told result) ≡
        reply_in (machine_of f walls.now) state.old (run_call state.old numbers.now budget) }
    ensures stores { state.new ≡
        memory_in (machine_of f walls.now) state.old (run_call state.old numbers.now budget) }
    ensures within { result.taken ≤ budget }
{
    let free = search::free_rows(f, walls);
    let tally = runs::run_all(f, walls, free, state, numbers, budget as usize);
    let now = State {
        floor: f,
        memory: state,
    };
    Run {
        taken: tally.taken,
        ending: runs::how_ended(&now, tally, budget as usize, numbers.len()),
    }
}

// Takes a run on a lent state: the open steps of a list in turn, as many as the budget allows.
pub fn run(
    f: Floor,
    walls: &[u16],
    state: &mut [u16],
    numbers: &[u16],
    budget: u16,
) -> Result<Run, Refusal>
    ensures answers { ran_reply result ≡
        reply_to f walls.now state.old (run_call state.old numbers.now budget) }
    ensures stores { state.new ≡
        memory_after f walls.now state.old (run_call state.old numbers.now budget) }
    ensures within { taken_number result ≤ budget }
{
    checks::lent_state(f, walls, state)?;
    checks::all_named(f, numbers)?;
    Ok(run_on(f, walls, state, numbers, budget))
}

// The most steps for n carriers, read from the handbook's table.
#[tactic(auto, unfolding(floor::specs::Answers::outcome_by), using(crate::proofs::CeilingLaws::most_cases))]
pub fn ceiling(n: usize) -> Result<usize, Refusal>
    ensures { figure_of result ≡ most_steps n }
{
    if n < 1 || n > Floor::MAX_CARRIERS as usize {
        return Err(Refusal {
            reason: Reason::Limits,
            place: 5,
        });
    }
    Ok(handbook::most_steps(n))
}
