// The sequential planner of document 01: carriers 1 to n, each best against the answers above it; one with none stays at its start.
#![tactic(auto)]

mod tags;

ghost use Rattle.std.specs.Prelude.{List, ◌≡◌, ℕ, ◌+◌, ◌*◌, ◌-◌, ◌≤◌, ◌<◌, length, IfSome, IfOk};
ghost use Rattle.floor.specs.Answers.{verdict_of};
ghost use Rattle.route.specs.Sequential.{sequential};
ghost use Rattle.search.specs.Rows.{Searchable};
ghost use Rattle.layers.specs.Table.{search_grid_of, Tidy};
ghost use Rattle.layers.specs.FreeTable.{IsFreeTable};
ghost use Rattle.planner.specs.Plan.{respond_with, plan_verdict};
ghost use Rattle.planner.specs.Records.{with_answer, plan_memory};
ghost use Rattle.records.specs.Records.{records, stored};
ghost use Rattle.records.specs.Seen.{seen};
ghost use Rattle.planner.specs.Answers.{planned_outcome, plan_result, Plannable};

use floor::{Floor, Refusal};
use layers::{free_table, search_grid_of, table};
use search::Rows;
pub use tags::told;

// The refusals of a plan, in their order: what planning into so much memory would answer; nothing is written.
pub fn request(f: Floor, walls: &[u16], lent: usize) -> Result<(), Refusal>
    ensures { verdict_of result ≡ plan_verdict f walls.now lent }
{
    floor::check(f, walls)?;
    floor::check_length(records::SIZE * f.carriers as usize, lent)
}

// Takes what the last of the first i carriers occupies out of the free table that those above it leave; of no carriers there is none.
fn take_last(f: Floor, i: u16, table: &mut [u32], shown: &[u16])
    requires le_width { (1 ≤ f.width) × (f.width ≤ 32) × (f.height ≤ 32) × (f.horizon ≤ 63) }
    requires i_in_bounds { (65 * i ≤ length shown.now) × Tidy (search_grid_of f) table.old }
    ensures { (free : List ℕ) → IsFreeTable (search_grid_of f) (i - 1) free shown.now table.old →
        IsFreeTable (search_grid_of f) i free shown.now table.new }
{
    if i == 0 {
        return;
    }
    free_table::take_one(search_grid_of(f), table, shown, i as usize - 1);
}

// The answer of the carrier with i carriers above it, whose answers stand in front and are shown as they are seen; it is stored behind
// them and shown as it is seen. What the carrier just above occupies is taken out of the free table first, and so nothing after the
// last carrier. The sets are a table to work in.
fn plan_one(
    f: Floor,
    free: Rows,
    i: u16,
    table: &mut [u32],
    sets: &mut [u32],
    shown: &mut [u16],
    answers: &mut [u16],
)
    requires i_bound { (i < 8) × (65 * i + 65 ≤ length answers.old) × (65 * i + 65 ≤ length shown.old) }
    requires searchable { Searchable f free (i + 1) shown.old × (records shown.old i ≡ seen f (records answers.old i)) }
    requires free_table { IsFreeTable (search_grid_of f) (i - 1) free shown.old table.old × Tidy (search_grid_of f) sets.old }
    ensures answers { answers.new ≡ with_answer f free i answers.old }
    ensures shown { records shown.new (i + 1) ≡ seen f (records answers.new (i + 1)) }
    ensures table { IsFreeTable (search_grid_of f) i free shown.new table.new }
    ensures tidy { Tidy (search_grid_of f) sets.new }
{
    take_last(f, i, table, shown);
    let found = search::route_in(f, free, table, sets, i + 1, shown);
    let (tag, cells) = told(found);
    records::store(answers, records::SIZE * i as usize, tag, cells);
    records::store_seen(f, answers, i as usize, shown);
}

// The carriers in turn, each best against the answers above it, in the free table that these leave.
fn plan_all(f: Floor, free: Rows, answers: &mut [u16])
    requires { Plannable f free answers.old }
    ensures { answers.new ≡ stored (sequential (respond_with f free) f.carriers) answers.old }
{
    let mut shown = records::blank();
    let mut table = table::empty();
    free_table::make(search_grid_of(f), 0, &mut table, &free, &shown);
    let mut sets = table::empty();
    for i in 0..f.carriers {
        plan_one(f, free, i, &mut table, &mut sets, &mut shown, answers);
    }
}

// Plans a floor: the answers of its carriers into lent memory, 65 numbers each, a tag (1 none, 2 a route) and 64 cells.
pub fn plan(f: Floor, walls: &[u16], answers: &mut [u16]) -> Result<Option<usize>, Refusal>
    ensures answers { planned_outcome result ≡ plan_result f walls.now (length answers.old) }
    ensures stores { answers.new ≡ plan_memory f walls.now answers.old }
    ensures counted { IfOk result (λ x. IfSome x (λ i. 1 ≤ i)) }
{
    request(f, walls, answers.len())?;
    let free = search::free_rows(f, walls);
    plan_all(f, free, answers);
    Ok(tags::failing(answers, f.carriers as usize))
}
