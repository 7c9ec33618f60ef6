// A carrier's part of the state: planned, due, its answer.
ghost use Rattle.std.specs.Prelude.{◌≡◌, [], ◌∷◌, ◌+◌, ◌*◌, ◌≤◌, ◌<◌, length};
ghost use Rattle.laws.specs.Memory.{put, part};
ghost use Rattle.reference.specs.Step.{same_cells};
ghost use Rattle.encoding.specs.Places.{planned_place, due_place};
ghost use Rattle.encoding.specs.InnerSteps.{news_in};

use crate::places::{answer_place, due_place, planned_place};
use route::Route;

// Whether the record of an answer stands at a place.
#[tactic(auto, using(crate::proofs::RecordLaws::records_compared))]
fn is_record(m: &[u16], at: usize, tag: u16, cells: Route) -> bool
    requires { at + 65 ≤ length m.now }
    ensures { result ≡ same_cells (part m.now at 65) (tag ∷ cells) }
{
    m[at] == tag && m[at + 1..at + records::SIZE] == cells[..]
}

// Whether an answer is news from carrier i: it had not planned before, or its answer changed.
#[tactic(auto, unfolding(encoding::specs::InnerSteps::news_in))]
pub fn is_news(m: &[u16], i: usize, tag: u16, cells: Route) -> bool
    requires { (i < 8) × (69 + 67 * i ≤ length m.now) }
    ensures { result ≡ news_in m.now i (tag ∷ cells) }
{
    m[planned_place(i)] != 1 || !is_record(m, answer_place(i), tag, cells)
}

// Carrier i's part: whether it has planned, whether it is due, and its answer.
pub fn write(m: &mut [u16], i: usize, planned: u16, due: u16, tag: u16, cells: Route)
    requires { (i < 8) × (69 + 67 * i ≤ length m.old) }
    ensures { m.new ≡ put m.old (planned_place i) (planned ∷ (due ∷ (tag ∷ cells))) }
{
    m[planned_place(i)] = planned;
    m[due_place(i)] = due;
    records::store(m, answer_place(i), tag, cells);
}

// Carrier i has planned this answer and is no longer due.
pub fn set_planned(m: &mut [u16], i: usize, tag: u16, cells: Route)
    requires { (i < 8) × (69 + 67 * i ≤ length m.old) }
    ensures { m.new ≡ put m.old (planned_place i) (1 ∷ (0 ∷ (tag ∷ cells))) }
{
    write(m, i, 1, 0, tag, cells);
}

// Carrier i becomes due.
#[tactic(auto, using(laws::proofs::PutLaws::put_one))]
pub fn set_due(m: &mut [u16], i: usize)
    requires { (i < 8) × (69 + 67 * i ≤ length m.old) }
    ensures { m.new ≡ put m.old (due_place i) (1 ∷ []) }
{
    m[due_place(i)] = 1;
}
