// The free table of a search: a table of the cells that can be stood on at each beat, made of the free cells and the views.
ghost use Rattle.std.specs.Prelude.{◌≡◌, ◌+◌, ◌*◌, ◌-◌, ◌≤◌, ◌<◌, length, get_or, replicate};
ghost use Rattle.bitrows.specs.Rows.{filled, Clean};
ghost use Rattle.layers.specs.Table.{Grid, Fits, Tidy, row_of};
ghost use Rattle.layers.specs.FreeTable.{IsFreeTable, OneMore, FreeBeats, TakenCell, Parked};

use crate::beats::held_from;
use crate::stripes::{load, save};
use crate::table::{ROWS, word};
use crate::{SearchGrid, place_of};
use records::view_cell;

// Rows in the order of the words of a beat.
fn striped(rows: &[u32]) -> [u32; ROWS]
    requires { length rows.now ≡ 32 }
    ensures { result ≡ filled (replicate 32 0) (λ j. get_or rows.now (row_of j) 0) 32 }
{
    let mut x = [0u32; ROWS];
    for j in 0..ROWS {
        x[j] = rows[j % 4 * 8 + j / 4];
    }
    x
}

// The free cells at the first n beats of an empty table: at the first, and from there from beat to beat, which is faster than from the
// words each time.
fn fill_free(table: &mut [u32], free: &[u32], n: usize)
    requires { (table.old ≡ replicate 2049 0) × (length free.now ≡ 32) × (1 ≤ n) × (n ≤ 64) }
    ensures { FreeBeats free.now n table.new }
{
    let words = striped(free);
    bitrows::put_rows(table, 0, &words, ROWS);
    for t in 1..n {
        let x = load(table, (t - 1) * ROWS);
        save(table, t * ROWS, x);
    }
}

// Takes cell c out of the beats from `from` to before `end`; a number that is no cell changes nothing.
fn drop_cell(g: SearchGrid, table: &mut [u32], from: usize, end: usize, c: usize)
    requires { Grid g × (from ≤ end) × (end ≤ 64) × Tidy g table.old }
    ensures { TakenCell g from end c table.old table.new }
{
    if c < g.cells {
        let p = place_of(g, c);
        for t in from..end {
            bitrows::drop(table, word(t, p.row), p.column);
        }
    }
}

// The beat from which on view j keeps its cell through the horizon.
fn parked_from(views: &[u16], j: usize, horizon: usize) -> usize
    requires { (65 * j + 65 ≤ length views.now) × (horizon < 64) }
    ensures { Parked views.now j result horizon }
{
    let last = view_cell(views, j, horizon);
    held_from(horizon, |t| view_cell(views, j, t) == last)
}

// Takes the cells of view j, besides those of the views before it, out of the free table: each at its beat and the beats beside it, the
// last, where the view stays, at all beats at once.
pub fn take_one(g: SearchGrid, table: &mut [u32], views: &[u16], j: usize)
    requires { Grid g × (65 * j + 65 ≤ length views.now) × (g.horizon ≤ 63) × Tidy g table.old }
    ensures { OneMore g j views.now table.old table.new }
{
    let last_beat = g.horizon;
    let a = parked_from(views, j, last_beat);
    for t in 0..a {
        let c = view_cell(views, j, t);
        drop_cell(g, table, t.saturating_sub(1), t + 2, c);
    }
    let last = view_cell(views, j, last_beat);
    drop_cell(g, table, a.saturating_sub(1), last_beat + 1, last);
}

// The free table of a scene in an empty table.
pub fn make(g: SearchGrid, k: usize, table: &mut [u32], free: &[u32], views: &[u16])
    requires fits { Fits g k views.now × Clean g.width g.cells free.now × (length free.now ≡ 32) }
    requires table_value { table.old ≡ replicate 2049 0 }
    ensures { IsFreeTable g k free.now views.now table.new }
{
    fill_free(table, free, g.horizon + 1);
    for j in 0..k {
        take_one(g, table, views, j);
    }
}
