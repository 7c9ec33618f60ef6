// Taking an open step: a plan or a delivery, its answer, and the memory after it.
ghost use Rattle.std.specs.Prelude.{◌≡◌, true, ◌∷◌, ◌≤◌, ◌<◌, length};
ghost use Rattle.search.specs.Answers.{answer_of};
ghost use Rattle.reference.specs.Step.{plan};
ghost use Rattle.encoding.specs.Places.{state_size};
ghost use Rattle.encoding.specs.Calls.{machine_of};
ghost use Rattle.encoding.specs.InnerSteps.{news_in, planned_in, delivered_in, best_in, open_in};
ghost use Rattle.steps.specs.Answers.{step_meant};
ghost use Rattle.steps.specs.Inner.{bare, Placed, Workable, RowsFor, Did, Took};

use crate::{Step, Taken};
use floor::Floor;
use route::Route;
use search::Rows;

// The best answer of carrier i to its views; `free` is made of the floor and its walls once.
fn find(f: Floor, walls: &[u16], free: Rows, m: &[u16], i: usize) -> Option<Route>
    requires i_lt_carriers { i < f.carriers }
    requires workable { Workable f walls.now free m.now }
    ensures { answer_of result ≡ best_in (machine_of f walls.now) m.now i }
{
    let n = f.carriers as usize;
    let a = state::views_start(n, i);
    let e = state::views_end(n, i);
    search::best_route(f, free, i as u16 + 1, &m[a..e])
}

// Carrier i plans an answer: whether it is news, which is then sent.
#[tactic(auto, unfolding(encoding::specs::Places::state_size, encoding::specs::InnerSteps::planned_in))]
fn record_plan(m: &mut [u16], n: usize, i: usize, tag: u16, cells: Route) -> bool
    requires { (i < n) × (n ≤ 8) × (state_size n ≤ length m.old) }
    ensures answers { result ≡ news_in m.old i (tag ∷ cells) }
    ensures stores { m.new ≡ planned_in n m.old i (tag ∷ cells) }
{
    let news = state::is_news(m, i, tag, cells);
    state::set_planned(m, i, tag, cells);
    if news {
        state::send(m, n, i, tag, cells);
    }
    news
}

// Carrier i plans: its answer is sent if it is news, otherwise kept.
fn plan_now(f: Floor, walls: &[u16], free: Rows, m: &mut [u16], i: usize) -> Taken
    requires i_lt_carriers { i < f.carriers }
    requires workable { Workable f walls.now free m.old }
    ensures { Did (machine_of f walls.now) m.old (plan i) result m.new }
{
    let (tag, cells) = planner::told(find(f, walls, free, m, i));
    if record_plan(m, f.carriers as usize, i, tag, cells) {
        Taken::Sent
    } else {
        Taken::Kept
    }
}

// The oldest message from carrier j to carrier i is delivered.
fn deliver_now(m: &mut [u16], n: usize, j: usize, i: usize)
    requires { (j < i) × (i < n) × (n ≤ 8) × (state_size n ≤ length m.old) }
    ensures { m.new ≡ delivered_in n m.old j i }
{
    let view = state::view_place(n, i, j);
    let channel = state::channel_place(n, i, j);
    let oldest = state::message_place(channel, 0);
    records::copy(m, oldest, view);
    state::pop(m, channel);
    state::set_due(m, i);
}

// The free cells where a step needs them: a plan does, a delivery does not.
#[tactic(auto, unfolding(crate::specs::Answers::step_meant, crate::specs::Inner::RowsFor))]
pub fn rows_for(f: Floor, walls: &[u16], x: Step) -> Rows
    requires { ((1 ≤ f.width) × (f.width ≤ 32) × (f.height ≤ 32)) × (f.walls ≤ length walls.now) }
    ensures { RowsFor f walls.now result (step_meant x) }
{
    match x {
        Step::Plan(_) => search::free_rows(f, walls),
        Step::Deliver { .. } => [0u32; Floor::MAX_HEIGHT as usize],
    }
}

// What an open step does.
fn act(f: Floor, walls: &[u16], free: Rows, m: &mut [u16], x: Step) -> Taken
    requires x_value { open_in (bare f) m.old (step_meant x) ≡ true }
    requires placed { Placed f walls.now (length m.old) }
    requires rows_for { RowsFor f walls.now free (step_meant x) }
    ensures { Did (machine_of f walls.now) m.old (step_meant x) result m.new }
{
    match x {
        Step::Plan(i) => plan_now(f, walls, free, m, i),
        Step::Deliver { from, to } => {
            deliver_now(m, f.carriers as usize, from, to);
            Taken::Delivered
        }
    }
}

// Takes an open step, and counts it.
pub fn take(f: Floor, walls: &[u16], free: Rows, m: &mut [u16], x: Step) -> Taken
    requires x_value { open_in (bare f) m.old (step_meant x) ≡ true }
    requires placed { Placed f walls.now (length m.old) }
    requires rows_for { RowsFor f walls.now free (step_meant x) }
    ensures { Took (machine_of f walls.now) m.old (step_meant x) result m.new }
{
    let taken = act(f, walls, free, m, x);
    state::tick(m);
    taken
}
