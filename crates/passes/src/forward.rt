// The forward pass: from the start to the least arrival that can be held.
ghost use Rattle.std.specs.Prelude.{◌≡◌, ◌+◌, ◌-◌, ◌≤◌, ◌<◌, length};
ghost use Rattle.layers.specs.Table.{Grid, Tidy};
ghost use Rattle.passes.specs.Docks.{DocksIn, held_from, Holdable, arrivable};
ghost use Rattle.passes.specs.Passes.{manhattan_of, ForwardReachableTo, Earliest};

use crate::docks::{Docks, arrives};
use layers::beats::held_from;
use layers::step::propagate;
use layers::table::put_alone;
use layers::{SearchGrid, place_of};

// After the beats to the nearest dock the sets are made four beats at a time.
const STEPS: usize = 4;

// The beats from one cell to another where nothing is in the way.
fn manhattan(g: SearchGrid, c: usize, d: usize) -> usize
    requires { Grid g × (c < g.cells) × (d < g.cells) }
    ensures { result ≡ manhattan_of g.width c d }
{
    let here = place_of(g, c);
    let there = place_of(g, d);
    here.row.abs_diff(there.row) + here.column.abs_diff(there.column)
}

// The beats to the nearest dock, at most to the horizon. What the pass finds does not depend on it.
fn nearest(g: SearchGrid, start: usize, ds: Docks) -> usize
    requires { Grid g × (start < g.cells) × DocksIn g ds.count ds.cells }
    ensures { result ≤ g.horizon }
{
    let n = ds.count;
    let mut near = g.horizon;
    for d in 0..n {
        near = near.min(manhattan(g, start, ds.cells[d] as usize));
    }
    near
}

// The number of beats to make after beat t: to the nearest dock, then a few at a time.
fn beats_after(t: usize, near: usize, horizon: usize) -> usize
    requires { (t < horizon) × (near ≤ horizon) × (horizon ≤ 63) }
    ensures { (1 ≤ result) × (t + result ≤ horizon) }
{
    if t < near {
        return near - t;
    }
    STEPS.min(horizon - t)
}

// The least beat from which on every beat before n is an arrival; n where the one before it is none.
fn first_arrival(g: SearchGrid, sets: &[u32], ds: Docks, n: usize) -> usize
    requires { Grid g × (length sets.now ≡ 2049) × (n ≤ 64) × DocksIn g ds.count ds.cells }
    ensures { result ≡ held_from (arrivable g sets.now ds) n }
{
    held_from(n, |t| arrives(g, sets, ds, t))
}

// The least arrival, or one beat past the horizon where there is none. The sets become what the start reaches in the free table. Where a
// beat is an arrival, so is the one after it: of the sets made together only the last is looked at until it is one.
pub fn forward(g: SearchGrid, sets: &mut [u32], table: &[u32], start: usize, ds: Docks) -> usize
    requires grid { Grid g × (g.horizon ≤ 63) × (start < g.cells) × DocksIn g ds.count ds.cells }
    requires tidy { Tidy g sets.old × Tidy g table.now × Holdable g table.now ds }
    ensures reached { ForwardReachableTo g table.now start result sets.new }
    ensures found { Earliest (arrivable g sets.new ds) (g.horizon + 1) result }
{
    put_alone(g, sets, 0, start);
    let near = nearest(g, start, ds);
    let mut t: usize = 0;
    // Kept: no index is counted, the beats are made a few at a time until a dock is reached.
    while !arrives(g, sets, ds, t) {
        if t == g.horizon {
            return t + 1;
        }
        let n = beats_after(t, near, g.horizon);
        propagate(sets, table, t, n, false);
        t += n;
    }
    first_arrival(g, sets, ds, t)
}
