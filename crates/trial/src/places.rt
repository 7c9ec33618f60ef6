// The places of the ranking of steps, and steps as numbers.
ghost use Rattle.std.specs.Prelude.{◌≡◌, ◌<◌, ◌≤◌, true};
ghost use Rattle.reference.specs.Step.{plan, deliver, is_there};
ghost use Rattle.steps.specs.Answers.{step_meant, taken_meant};
ghost use Rattle.steps.specs.Inner.{bare};
ghost use Rattle.orders.specs.Orders.{places, step_at};
ghost use Rattle.trial.specs.Report.{number_of, answer_number};

use floor::Floor;
use steps::{Step, Taken};

// How many steps n carriers have.
#[tactic(auto, using(orders::proofs::PlaceLaws::places_half, crate::proofs::StepLaws::count_fits, crate::proofs::StepLaws::count_most))]
pub fn count(n: usize) -> usize
    requires { n ≤ 8 }
    ensures { (result ≡ places n) × (result ≤ 36) }
{
    n * (n + 1) / 2
}

// The step at a place: the plans, then the deliveries of each sender.
pub fn step_at(n: usize, p: usize) -> Step
    requires { (n ≤ 8) × (p < places n) }
    ensures { step_meant result ≡ step_at n p }
{
    if p < n {
        return Step::Plan(p);
    }
    let mut d: usize = p - n;
    for j in 0..n {
        let below = n - (j + 1);
        if d < below {
            return Step::Deliver {
                from: j,
                to: j + 1 + d,
            };
        }
        d -= below;
    }
    unreachable!()
}

// Plan i as a number, 100 + i with carriers counted from 1.
#[tactic(auto, unfolding(crate::specs::Report::number_of))]
fn plan_number(i: usize) -> u16
    requires { i < 8 }
    ensures { result ≡ number_of (plan i) }
{
    (101 + i) as u16
}

// Deliver j to i as a number, 200 + 10 j + i with carriers counted from 1.
#[tactic(auto, unfolding(crate::specs::Report::number_of))]
fn delivery_number(j: usize, i: usize) -> u16
    requires { (j < 8) × (i < 8) }
    ensures { result ≡ number_of (deliver j i) }
{
    (200 + 10 * (j + 1) + (i + 1)) as u16
}

// A step that is there as a number.
pub fn number_of(f: Floor, x: Step) -> u16
    requires { (is_there (bare f) (step_meant x) ≡ true) × (f.carriers ≤ 8) }
    ensures { result ≡ number_of (step_meant x) }
{
    match x {
        Step::Plan(i) => plan_number(i),
        Step::Deliver { from, to } => delivery_number(from, to),
    }
}

// The answer of a step as a number: 0 kept, 1 sent, 2 delivered.
#[tactic(auto, unfolding(steps::specs::Answers::taken_meant, crate::specs::Report::answer_number))]
pub fn answer_number(x: Taken) -> u16
    ensures { result ≡ answer_number (taken_meant x) }
{
    match x {
        Taken::Kept => 0,
        Taken::Sent => 1,
        Taken::Delivered => 2,
    }
}
