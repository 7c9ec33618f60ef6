// Which steps are open in a state, what a step waits for, and whether any is open. `is_open`, `waits` and `is_silent` take the floor
// and the memory apart, not as a `State`: docs/ names them, so they ask what they asked before.
ghost use Rattle.std.specs.Prelude.{◌≡◌, true, ◌+◌, ◌≤◌, ◌<◌, eqb, length, get_or};
ghost use Rattle.laws.specs.Verdict.{demand, demand_each, each};
ghost use Rattle.floor.specs.Answers.{verdict_of};
ghost use Rattle.reference.specs.Step.{plan, deliver, is_there};
ghost use Rattle.encoding.specs.Places.{due_place, state_size};
ghost use Rattle.encoding.specs.InnerSteps.{capacity_in, waits_in, open_in, silent_in};
ghost use Rattle.steps.specs.Answers.{step_meant};
ghost use Rattle.steps.specs.Inner.{bare, capacity_at, FullSought, plan_shut, sender_shut};

use crate::Step;
use floor::{Floor, Reason, Refusal};
use state::State;

// Whether the channel from carrier i to carrier k below it has fewer than depth messages.
#[tactic(auto, unfolding(crate::specs::Inner::capacity_at))]
fn has_capacity(s: &State, i: usize, k: usize) -> bool
    requires { (i < k) × (k < s.now.floor.carriers) }
    ensures { result ≡ capacity_at s.now.floor.carriers s.now.floor.depth s.now.memory.now i k }
{
    s.memory[state::channel_place(s.floor.carriers as usize, k, i)] < s.floor.depth
}

// The smallest carrier to which the channel from carrier i is full, if one is.
#[tactic(auto, using(crate::proofs::OpenLaws::full_search))]
fn first_full(s: &State, i: usize) -> Option<usize>
    requires { i < s.now.floor.carriers }
    ensures { FullSought (demand_each 13 1 (capacity_at s.now.floor.carriers s.now.floor.depth s.now.memory.now i)
        s.now.floor.carriers) s.now.floor.carriers result }
{
    let n = s.floor.carriers as usize;
    for k in i + 1..n {
        if !has_capacity(s, i, k) {
            return Some(k);
        }
    }
    None
}

// Whether the plan of carrier i is open: it is there and due, and no channel from it is full.
#[tactic(auto, unfolding(encoding::specs::Places::state_size), using(crate::proofs::OpenLaws::plan_cases))]
fn plan_open(s: &State, i: usize) -> bool
    ensures { result ≡ open_in (bare s.now.floor) s.now.memory.now (plan i) }
{
    let n = s.floor.carriers as usize;
    i < n && s.memory[state::due_place(i)] == 1 && first_full(s, i).is_none()
}

// Whether the delivery from carrier j to carrier i is open: it is there, and so is a message.
#[tactic(auto, using(crate::proofs::OpenLaws::delivery_cases))]
fn delivery_open(s: &State, j: usize, i: usize) -> bool
    ensures { result ≡ open_in (bare s.now.floor) s.now.memory.now (deliver j i) }
{
    let n = s.floor.carriers as usize;
    j < i && i < n && s.memory[state::channel_place(n, i, j)] != 0
}

// Whether a step is open. Kept, alike in form with `waits`: a `match` on the two steps.
#[tactic(auto, unfolding(crate::specs::Answers::step_meant))]
pub fn is_open(f: Floor, m: &[u16], x: Step) -> bool
    requires { (f.carriers ≤ 8) × (state_size f.carriers ≤ length m.now) }
    ensures { result ≡ open_in (bare f) m.now (step_meant x) }
{
    let s = State {
        floor: f,
        memory: m,
    };
    match x {
        Step::Plan(i) => plan_open(&s, i),
        Step::Deliver { from, to } => delivery_open(&s, from, to),
    }
}

// 8 unless carrier i is due.
#[tactic(auto, unfolding(encoding::specs::Places::state_size, floor::specs::Answers::verdict_of, laws::specs::Verdict::demand))]
fn due_waits(s: &State, i: usize) -> Result<(), Refusal>
    requires { i < s.now.floor.carriers }
    ensures { verdict_of result ≡ demand (eqb (get_or s.now.memory.now (due_place i) 0) 1) 8 0 }
{
    if s.memory[state::due_place(i)] != 1 {
        return Err(Refusal {
            reason: Reason::NotDue,
            place: 0,
        });
    }
    Ok(())
}

// 13 with the smallest receiver whose channel from carrier i is full.
#[tactic(auto, unfolding(encoding::specs::InnerSteps::capacity_in, crate::specs::Inner::capacity_at, crate::specs::Inner::bare, encoding::specs::Calls::machine_of, floor::specs::Answers::verdict_of))]
fn capacity_waits(s: &State, i: usize) -> Result<(), Refusal>
    requires { i < s.now.floor.carriers }
    ensures { verdict_of result ≡ demand_each 13 1 (capacity_in (bare s.now.floor) s.now.memory.now i) s.now.floor.carriers }
{
    match first_full(s, i) {
        Some(k) => Err(Refusal {
            reason: Reason::ChannelFull,
            place: 1 + k,
        }),
        None => Ok(()),
    }
}

// What the plan of carrier i waits for: that it is due, then capacity in its channels.
fn plan_waits(s: &State, i: usize) -> Result<(), Refusal>
    requires { i < s.now.floor.carriers }
    ensures { verdict_of result ≡ waits_in (bare s.now.floor) s.now.memory.now (plan i) }
{
    let due = due_waits(s, i);
    due?;
    capacity_waits(s, i)
}

// What the delivery from carrier j to carrier i waits for: 12 with the addressee unless a message is there.
#[tactic(auto, unfolding(encoding::specs::InnerSteps::waits_in, crate::specs::Inner::bare, encoding::specs::Calls::machine_of, floor::specs::Answers::verdict_of, laws::specs::Verdict::demand))]
fn delivery_waits(s: &State, j: usize, i: usize) -> Result<(), Refusal>
    requires { (j < i) × (i < s.now.floor.carriers) }
    ensures { verdict_of result ≡ waits_in (bare s.now.floor) s.now.memory.now (deliver j i) }
{
    if s.memory[state::channel_place(s.floor.carriers as usize, i, j)] == 0 {
        return Err(Refusal {
            reason: Reason::NothingSent,
            place: 1 + i,
        });
    }
    Ok(())
}

// What a step that is there waits for.
pub fn waits(f: Floor, m: &[u16], x: Step) -> Result<(), Refusal>
    requires x_value { is_there (bare f) (step_meant x) ≡ true }
    requires carriers_bound { (f.carriers ≤ 8) × (state_size f.carriers ≤ length m.now) }
    ensures { verdict_of result ≡ waits_in (bare f) m.now (step_meant x) }
{
    let s = State {
        floor: f,
        memory: m,
    };
    match x {
        Step::Plan(i) => plan_waits(&s, i),
        Step::Deliver { from, to } => delivery_waits(&s, from, to),
    }
}

// Whether no plan is open.
fn plans_shut(s: &State) -> bool
    ensures { result ≡ each s.now.floor.carriers (plan_shut s.now.floor s.now.memory.now) }
{
    (0..s.floor.carriers as usize).all(|i| !plan_open(s, i))
}

// Whether no delivery from carrier j is open.
fn sender_shut(s: &State, j: usize) -> bool
    requires { j < s.now.floor.carriers }
    ensures { result ≡ sender_shut s.now.floor s.now.memory.now j }
{
    (0..s.floor.carriers as usize - (j + 1)).all(|d| !delivery_open(s, j, j + 1 + d))
}

// Whether no delivery is open.
fn deliveries_shut(s: &State) -> bool
    ensures { result ≡ each s.now.floor.carriers (sender_shut s.now.floor s.now.memory.now) }
{
    (0..s.floor.carriers as usize).all(|j| sender_shut(s, j))
}

// Whether no step is open.
#[tactic(auto, using(crate::proofs::OpenLaws::silent_is))]
pub fn is_silent(f: Floor, m: &[u16]) -> bool
    requires { (f.carriers ≤ 8) × (state_size f.carriers ≤ length m.now) }
    ensures { result ≡ silent_in (bare f) m.now }
{
    let s = State {
        floor: f,
        memory: m,
    };
    plans_shut(&s) && deliveries_shut(&s)
}
