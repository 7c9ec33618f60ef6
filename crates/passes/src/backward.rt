// The backward pass: from the docks at the arrival to the cells that lead there.
ghost use Rattle.std.specs.Prelude.{◌<◌};
ghost use Rattle.layers.specs.Table.{Grid, Tidy};
ghost use Rattle.passes.specs.Docks.{DocksIn};
ghost use Rattle.passes.specs.Passes.{BackwardReachable};

use crate::docks::{Docks, put_docks};
use layers::SearchGrid;
use layers::step::propagate;

// The sets up to beat a become what leads in the free table to a dock that can be held from beat a on.
pub fn backward(g: SearchGrid, sets: &mut [u32], table: &[u32], ds: Docks, a: usize)
    requires grid { Grid g × DocksIn g ds.count ds.cells × (a < 64) }
    requires tidy { Tidy g sets.old × Tidy g table.now }
    ensures { BackwardReachable g table.now ds a 0 sets.new }
{
    put_docks(g, sets, ds, a);
    propagate(sets, table, a, a, true);
}
