// Trying delivery orders (document 02, slip 1): a whole run from fresh to silent in one of three orders, every step taken
// reported with its answer.
#![tactic(auto)]

mod choice;
mod generator;
mod places;
mod play;

ghost use Rattle.std.specs.Prelude.{◌≡◌, length};
ghost use Rattle.floor.specs.Answers.{verdict_of};
ghost use Rattle.trial.specs.Inner.{room_verdict};
ghost use Rattle.trial.specs.Entry.{tried_outcome, trial_outcome, state_tried, report_tried};

use choice::Order;
use floor::{Floor, Refusal};
pub use places::{answer_number, count, number_of, step_at};
pub use play::most_steps;

// The refusals of a trial but that of its order: the floor's, 9 for the state, 9 for the report.
fn roomy(f: Floor, walls: &[u16], state: usize, report: usize) -> Result<(), Refusal>
    ensures { verdict_of result ≡ room_verdict f walls.now state report }
{
    machine::lent_place(f, walls, state)?;
    floor::check_length(2 * play::most_steps(f.carriers as usize), report)
}

// Plays a whole run of a floor from fresh to silent in an order, 1 to 3; order 3 draws from the seed. The report gets two
// numbers a step: the step's number, and its answer, 0 kept, 1 sent, 2 delivered. The state is the silent one afterwards. The number
// of steps taken is answered, as many as the report has entries.
pub fn trial(
    f: Floor,
    walls: &[u16],
    order: u16,
    seed: u32,
    state: &mut [u16],
    report: &mut [u16],
) -> Result<usize, Refusal>
    ensures answers { tried_outcome result ≡
        trial_outcome f walls.now order seed (length state.old) (length report.old) }
    ensures stores { state.new ≡
        state_tried f walls.now order seed state.old (length report.old) }
    ensures reports { report.new ≡
        report_tried f walls.now order seed (length state.old) report.old }
{
    roomy(f, walls, state.len(), report.len())?;
    let order = Order::try_from(order)?;
    Ok(play::play(f, walls, order, seed, state, report))
}
