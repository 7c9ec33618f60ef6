// A step as a number: its decimal digits are kind, sender, receiver.
ghost use Rattle.std.specs.Prelude.{◌≡◌, ◌&&◌, ltb};
ghost use Rattle.reference.specs.Step.{is_there};
ghost use Rattle.encoding.specs.Numbers.{asked_by};
ghost use Rattle.reference.specs.Table.{is_named};
ghost use Rattle.steps.specs.Answers.{step_meant, asked_meant};
ghost use Rattle.steps.specs.Inner.{bare};

use crate::Step;
use floor::Floor;

// The step that a number names, or none.
#[tactic(auto, unfolding(crate::specs::Answers::asked_meant, crate::specs::Answers::step_meant), using(crate::proofs::OpenLaws::step_cases))]
pub fn asked_by(x: u16) -> Option<Step>
    ensures { asked_meant result ≡ asked_by x }
{
    match x {
        101..=109 => Some(Step::Plan(x as usize - 101)),
        210..=299 if x % 10 != 0 => Some(Step::Deliver {
            from: (x as usize - 200) / 10 - 1,
            to: x as usize % 10 - 1,
        }),
        _ => None,
    }
}

// Whether a delivery names a sender above a receiver that is there. A function of its own: written into the `match` below, both arms are
// computed for every step, and a run over a long list takes up to twice the time.
fn way_there(from: usize, to: usize, n: usize) -> bool
    ensures { result ≡ (ltb from to && ltb to n) }
{
    from < to && to < n
}

// Whether a step is there on a floor: its carriers are, the sender above the receiver.
#[tactic(auto, unfolding(crate::specs::Answers::step_meant, reference::specs::Step::is_there, crate::specs::Inner::bare, encoding::specs::Calls::machine_of))]
pub fn is_there(f: Floor, x: Step) -> bool
    ensures { result ≡ is_there (bare f) (step_meant x) }
{
    match x {
        Step::Plan(i) => i < f.carriers as usize,
        Step::Deliver { from, to } => way_there(from, to, f.carriers as usize),
    }
}

// Whether a number names a step that is there on a floor.
#[tactic(auto, unfolding(reference::specs::Table::is_named, crate::specs::Answers::asked_meant))]
pub fn is_named(f: Floor, x: u16) -> bool
    ensures { result ≡ is_named (bare f) (asked_by x) }
{
    asked_by(x).is_some_and(|s| is_there(f, s))
}
