// The tests of a record in their order. A test that fails is told by its cause and its first beat.
ghost use Rattle.std.specs.Prelude.{◌≡◌, ◌≤◌, ◌<◌, length};
ghost use Rattle.floor.specs.Accepted.{StrictlyRising};
ghost use Rattle.floor.specs.Checks.{start_of, is_dock, count_of};
ghost use Rattle.search.specs.Task.{task_of};
ghost use Rattle.legality.specs.Tests.{begin_test, cells_test, moves_test, dock_test, blank_test, route_test, record_test};
ghost use Rattle.legality.specs.Inner.{RecordChecked, free_on};
ghost use Rattle.legality.specs.Answers.{test_of};

use crate::places::{is_dock, is_free, near};
use crate::{Cause, Fault};
use floor::Floor;
use records::CELLS;
use route::Route;

// Cause 3: it begins at the start of carrier i, counted from 0.
fn begins(f: Floor, i: usize, r: Route) -> Result<(), Fault>
    requires { i < 8 }
    ensures { test_of result ≡ begin_test (start_of f i) r }
{
    if r[0] != f.starts[i] {
        return Err(Fault {
            cause: Cause::Start,
            beat: 0,
        });
    }
    Ok(())
}

// Cause 4: it is at a cell of the floor that is no wall, at every beat.
fn stands(f: Floor, walls: &[u16], r: Route) -> Result<(), Fault>
    requires width_bound { (f.width ≤ 32) × (f.height ≤ 32) × (f.horizon ≤ 63) }
    requires walls_in_bounds { f.walls ≤ length walls.now }
    requires strictly_rising { StrictlyRising walls.now f.walls }
    ensures { test_of result ≡ cells_test (free_on f walls.now) f.horizon r }
{
    let n = f.horizon as usize + 1;
    for t in 0..n {
        if !is_free(f, walls, r[t]) {
            return Err(Fault {
                cause: Cause::Cell,
                beat: t,
            });
        }
    }
    Ok(())
}

// Cause 5: between two beats it stays or goes to a cell that shares a side.
fn moves(f: Floor, r: Route) -> Result<(), Fault>
    requires { (1 ≤ f.width) × (f.horizon ≤ 63) }
    ensures { test_of result ≡ moves_test f.width f.horizon r }
{
    let last = f.horizon as usize;
    let w = f.width;
    for t in 0..last {
        if !near(w, r[t], r[t + 1]) {
            return Err(Fault {
                cause: Cause::Move,
                beat: t,
            });
        }
    }
    Ok(())
}

// Cause 6: it ends at a dock of carrier i, counted from 0.
fn ends(f: Floor, i: usize, r: Route) -> Result<(), Fault>
    requires { (i < 8) × (count_of f i ≤ 4) × (f.horizon ≤ 63) }
    ensures { test_of result ≡ dock_test (is_dock f i) f.horizon r }
{
    let last = f.horizon as usize;
    if !is_dock(f, i, r[last]) {
        return Err(Fault {
            cause: Cause::End,
            beat: last,
        });
    }
    Ok(())
}

// Cause 7: the numbers from a beat on are 0.
fn blank(r: Route, from: usize) -> Result<(), Fault>
    requires { from ≤ 64 }
    ensures { test_of result ≡ blank_test from r }
{
    for t in from..CELLS {
        if r[t] != 0 {
            return Err(Fault {
                cause: Cause::Unused,
                beat: t,
            });
        }
    }
    Ok(())
}

// The tests of a route of a carrier of a checked floor.
fn route_test(f: Floor, walls: &[u16], carrier: u16, r: Route) -> Result<(), Fault>
    requires { RecordChecked f walls.now carrier }
    ensures { test_of result ≡ route_test (task_of f walls.now carrier) r }
{
    let i = carrier as usize - 1;
    begins(f, i, r)?;
    stands(f, walls, r)?;
    moves(f, r)?;
    ends(f, i, r)?;
    blank(r, f.horizon as usize + 1)
}

// The tests of a record with a tag and 64 numbers.
pub fn record_test(f: Floor, walls: &[u16], carrier: u16, tag: u16, r: Route) -> Result<(), Fault>
    requires { RecordChecked f walls.now carrier }
    ensures { test_of result ≡ record_test (task_of f walls.now carrier) tag r }
{
    if 2 < tag {
        return Err(Fault {
            cause: Cause::Tag,
            beat: 0,
        });
    }
    if tag == 2 {
        return route_test(f, walls, carrier, r);
    }
    blank(r, 0)
}
