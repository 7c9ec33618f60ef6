// The best route of a carrier against the answers above it (document 01, 'Routes'): a bit-parallel search, a word a row.
#![tactic(auto)]

mod ground;

ghost use Rattle.std.specs.Prelude.{◌≡◌, ◌-◌, ◌≤◌, ◌<◌};
ghost use Rattle.floor.specs.Answers.{verdict_of};
ghost use Rattle.laws.specs.Verdict.{demand};
ghost use Rattle.floor.specs.Checks.{within, among};
ghost use Rattle.route.specs.Search.{best};
ghost use Rattle.search.specs.Answers.{answer_of, result_of};
ghost use Rattle.search.specs.Seek.{BestIn};
ghost use Rattle.passes.specs.Docks.{DocksIn};
ghost use Rattle.layers.specs.Table.{search_grid_of, Grid, Tidy};
ghost use Rattle.layers.specs.FreeTable.{IsFreeTable};
ghost use Rattle.search.specs.Search.{request_of, search_of};
ghost use Rattle.search.specs.Task.{task_of_rows};
ghost use Rattle.records.specs.Records.{views_of};
ghost use Rattle.records.specs.Seen.{seen};
ghost use Rattle.search.specs.Rows.{Searchable};

use floor::{Floor, Reason, Refusal};
pub use ground::free_rows;
use layers::{SearchGrid, free_table, search_grid_of, table};
use passes::{backward, docks, forward, walk};
use route::Route;

// The free cells of a floor: a word a row of the largest grid.
pub type Rows = [u32; Floor::MAX_HEIGHT as usize];

// The best route from the start to any of the first `count` cells in a free table; the sets are a table to work in.
fn seek(
    g: SearchGrid,
    sets: &mut [u32],
    table: &[u32],
    start: usize,
    count: usize,
    cells: docks::Cells,
) -> Option<Route>
    requires grid { Grid g × (g.horizon ≤ 63) × (start < g.cells) × DocksIn g count cells }
    requires tidy_2 { Tidy g sets.old × Tidy g table.now }
    ensures tidy { Tidy g sets.new }
    ensures best { BestIn g table.now start (among cells count) result }
{
    if !table::member(g, table, 0, start) {
        return None;
    }
    let ds = docks::hold_docks(g, table, count, cells);
    if !docks::arrives(g, table, ds, g.horizon) {
        return None;
    }
    let a = forward::forward(g, sets, table, start, ds);
    if g.horizon < a {
        return None;
    }
    backward::backward(g, sets, table, ds, a);
    Some(walk::walk(g, sets, start, a))
}

// The best route of a carrier of a checked floor against the views as they stand, in the free table that these and its free cells leave;
// the sets are a table to work in.
pub fn route_in(
    f: Floor,
    free: Rows,
    table: &[u32],
    sets: &mut [u32],
    carrier: u16,
    views: &[u16],
) -> Option<Route>
    requires searchable { Searchable f free carrier views.now × Tidy (search_grid_of f) sets.old }
    requires free_table { IsFreeTable (search_grid_of f) (carrier - 1) free views.now table.now }
    ensures tidy { Tidy (search_grid_of f) sets.new }
    ensures best { answer_of result ≡ best (task_of_rows f free carrier) (views_of views.now carrier) }
{
    let k = carrier as usize - 1;
    let start = f.starts[k] as usize;
    let count = f.counts[k] as usize;
    seek(
        search_grid_of(f),
        sets,
        table,
        start,
        count,
        floor::docks_of(f, k),
    )
}

// The best route of a carrier of a checked floor, with its free cells as rows, against the views as they stand.
fn best_against(f: Floor, free: Rows, carrier: u16, views: &[u16]) -> Option<Route>
    requires { Searchable f free carrier views.now }
    ensures { answer_of result ≡ best (task_of_rows f free carrier) (views_of views.now carrier) }
{
    let mut table = table::empty();
    free_table::make(
        search_grid_of(f),
        carrier as usize - 1,
        &mut table,
        &free,
        views,
    );
    let mut sets = table::empty();
    route_in(f, free, &table, &mut sets, carrier, views)
}

// The best route of a carrier of a checked floor, with its free cells as rows, against the views of the carriers above it as they are
// seen: one that has told none stays at its start.
pub fn best_route(f: Floor, free: Rows, carrier: u16, views: &[u16]) -> Option<Route>
    requires { Searchable f free carrier views.now }
    ensures { answer_of result ≡ best (task_of_rows f free carrier) (seen f (views_of views.now carrier)) }
{
    let shown = records::seen_records(f, views, carrier as usize - 1);
    best_against(f, free, carrier, &shown)
}

// 7: the floor has such a carrier.
pub fn listed(f: Floor, carrier: u16) -> Result<(), Refusal>
    ensures { verdict_of result ≡ demand (within 1 f.carriers carrier) 7 0 }
{
    if carrier < 1 || f.carriers < carrier {
        return Err(Refusal {
            reason: Reason::Unknown,
            place: 0,
        });
    }
    Ok(())
}

// The refusals of a search, in their order.
fn request(f: Floor, walls: &[u16], carrier: u16, views: &[u16]) -> Result<(), Refusal>
    ensures { verdict_of result ≡ request_of f walls.now carrier views.now }
{
    floor::check(f, walls)?;
    floor::check_length(records::SIZE * f.carriers as usize, views.len())?;
    listed(f, carrier)
}

// The search: any floor record, walls, carrier number and views. Views are 65 numbers a carrier, a tag (1 none, 2 a route, any other
// not heard) and 64 cells, record j − 1 being carrier j's; only those of the carriers above are looked at. One that has told none stays at
// its start.
pub fn search(
    f: Floor,
    walls: &[u16],
    carrier: u16,
    views: &[u16],
) -> Result<Option<Route>, Refusal>
    ensures { result_of result ≡ search_of f walls.now carrier views.now }
{
    request(f, walls, carrier, views)?;
    Ok(best_route(f, free_rows(f, walls), carrier, views))
}
