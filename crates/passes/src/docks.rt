// The docks of a search: the cells at which a route may end, each with the beat from which it can be held.
ghost use Rattle.std.specs.Prelude.{◌≡◌, ◌≤◌, ◌<◌, length, leb, ◌&&◌};
ghost use Rattle.layers.specs.Table.{Grid, Tidy, in_set};
ghost use Rattle.layers.specs.Step.{ChangedAt};
ghost use Rattle.passes.specs.Docks.{DocksIn, hold_of, held_docks, arrivable, EndsAt, OneEnd};

use layers::SearchGrid;
use layers::beats::held_from;
use layers::table::{member, put_more, put_none};

// As many cells as a carrier may have docks.
pub type Cells = [u16; 4];

// The first `count` cells are docks, each with the least beat from which it is in the free table through the horizon.
#[derive(Clone, Copy)]
pub struct Docks {
    pub count: usize,
    pub cells: Cells,
    pub holds: [usize; 4],
}

// The least beat from which a cell is in the free table through the horizon; one past the horizon where it is not there then.
fn hold_from(g: SearchGrid, table: &[u32], dock: usize) -> usize
    requires { Grid g × (length table.now ≡ 2049) × (g.horizon ≤ 63) × (dock < g.cells) }
    ensures { result ≡ hold_of g table.now dock }
{
    held_from(g.horizon + 1, |t| member(g, table, t, dock))
}

// The docks with the beats from which they can be held in a free table.
pub fn hold_docks(g: SearchGrid, table: &[u32], count: usize, cells: Cells) -> Docks
    requires { Grid g × (length table.now ≡ 2049) × (g.horizon ≤ 63) × DocksIn g count cells }
    ensures { result ≡ held_docks g table.now count cells }
{
    let mut holds = [0usize; 4];
    for d in 0..count {
        holds[d] = hold_from(g, table, cells[d] as usize);
    }
    Docks {
        count,
        cells,
        holds,
    }
}

// Whether a dock that can be held from beat `hold` on can be held from beat t on, and is in the set of beat t.
fn arrives_at(g: SearchGrid, sets: &[u32], t: usize, hold: usize, dock: usize) -> bool
    requires { Grid g × (length sets.now ≡ 2049) × (t < 64) × (dock < g.cells) }
    ensures { result ≡ (leb hold t && in_set g sets.now t dock) }
{
    hold <= t && member(g, sets, t, dock)
}

// Whether some dock that can be held from beat t on is in the set of beat t.
pub fn arrives(g: SearchGrid, sets: &[u32], ds: Docks, t: usize) -> bool
    requires { Grid g × (length sets.now ≡ 2049) × (t < 64) × DocksIn g ds.count ds.cells }
    ensures { result ≡ arrivable g sets.now ds t }
{
    let n = ds.count;
    for d in 0..n {
        if arrives_at(g, sets, t, ds.holds[d], ds.cells[d] as usize) {
            return true;
        }
    }
    false
}

// Dock d joins the set of beat a if it can be held from then on.
fn put_dock(g: SearchGrid, sets: &mut [u32], ds: Docks, a: usize, d: usize)
    requires { Grid g × Tidy g sets.old × (a < 64) × DocksIn g ds.count ds.cells × (d < ds.count) }
    ensures only { ChangedAt g sets.old a sets.new }
    ensures more { OneEnd g sets.old ds a d sets.new }
{
    if ds.holds[d] <= a {
        put_more(g, sets, a, ds.cells[d] as usize);
    }
}

// The set of beat a becomes the docks that can be held from then on.
pub fn put_docks(g: SearchGrid, sets: &mut [u32], ds: Docks, a: usize)
    requires { Grid g × Tidy g sets.old × (a < 64) × DocksIn g ds.count ds.cells }
    ensures only { ChangedAt g sets.old a sets.new }
    ensures ends { EndsAt g sets.new ds a ds.count }
{
    put_none(g, sets, a);
    let n = ds.count;
    for d in 0..n {
        put_dock(g, sets, ds, a, d);
    }
}
