// The walk along the sets of a table: at each beat the smallest near cell of the next set.
ghost use Rattle.std.specs.Prelude.{◌≡◌, ◌&&◌, ℕ, ◌+◌, ◌-◌, ◌≤◌, ◌<◌, ltb, length, replicate};
ghost use Rattle.bitrows.specs.Rows.{filled, has};
ghost use Rattle.layers.specs.Table.{Grid, PlaceOf, Tidy, word_of};
ghost use Rattle.passes.specs.Walk.{next_of, path_of};

use layers::table::{ROWS, has_at};
use layers::{Place, SearchGrid, place_of};
use route::Route;

// Whether the digit above that of a row at a column is 1, at beat t.
fn has_above(sets: &[u32], t: usize, row: usize, column: usize) -> bool
    requires { (length sets.now ≡ 2049) × (t < 64) × (row < 32) × (column < 32) }
    ensures { result ≡ (ltb 0 row && has sets.now (word_of t (row - 1)) column) }
{
    0 < row && has_at(sets, t, row - 1, column)
}

// Whether the digit below it is 1.
fn has_below(sets: &[u32], t: usize, row: usize, column: usize) -> bool
    requires { (length sets.now ≡ 2049) × (t < 64) × (row < 32) × (column < 32) }
    ensures { result ≡ (ltb (row + 1) 32 && has sets.now (word_of t (row + 1)) column) }
{
    row + 1 < ROWS && has_at(sets, t, row + 1, column)
}

// Whether the digit left of it is 1.
fn has_left(sets: &[u32], t: usize, row: usize, column: usize) -> bool
    requires { (length sets.now ≡ 2049) × (t < 64) × (row < 32) × (column < 32) }
    ensures { result ≡ (ltb 0 column && has sets.now (word_of t row) (column - 1)) }
{
    0 < column && has_at(sets, t, row, column - 1)
}

// Whether the digit right of it is 1, in a grid of width w.
fn has_right(sets: &[u32], t: usize, row: usize, column: usize, w: usize) -> bool
    requires { (length sets.now ≡ 2049) × (t < 64) × (row < 32) × (column < 32) × (w ≤ 32) }
    ensures { result ≡ (ltb (column + 1) w && has sets.now (word_of t row) (column + 1)) }
{
    column + 1 < w && has_at(sets, t, row, column + 1)
}

// The place of the smallest near cell in the set of beat t; the place itself where there is none.
fn next(g: SearchGrid, sets: &[u32], t: usize, p: Place) -> Place
    requires { Grid g × Tidy g sets.now × (t < 64) × (p.row < 32) × (p.column < g.width) }
    ensures { (c : ℕ) → PlaceOf g c p → PlaceOf g (next_of g sets.now t c) result }
{
    let row = p.row;
    let column = p.column;
    if has_above(sets, t, row, column) {
        return Place {
            row: row - 1,
            column,
        };
    }
    if has_left(sets, t, row, column) {
        return Place {
            row,
            column: column - 1,
        };
    }
    if has_at(sets, t, row, column) {
        return p;
    }
    if has_right(sets, t, row, column, g.width) {
        return Place {
            row,
            column: column + 1,
        };
    }
    if has_below(sets, t, row, column) {
        return Place {
            row: row + 1,
            column,
        };
    }
    p
}

// The cells from the start along the sets through beat a.
fn along(g: SearchGrid, sets: &[u32], start: usize, a: usize) -> Route
    requires { Grid g × Tidy g sets.now × (a ≤ 63) × (start < g.cells) }
    ensures { result ≡ filled (replicate 64 0) (path_of g sets.now start a) (a + 1) }
{
    let w = g.width;
    let mut r = [0u16; 64];
    r[0] = start as u16;
    let mut p = place_of(g, start);
    for t in 0..a {
        p = next(g, sets, t + 1, p);
        r[t + 1] = (p.row * w + p.column) as u16;
    }
    r
}

// The route from the start along the sets through beat a, where it stays; 0 after the horizon.
pub fn walk(g: SearchGrid, sets: &[u32], start: usize, a: usize) -> Route
    requires { Grid g × Tidy g sets.now × (a ≤ g.horizon) × (g.horizon ≤ 63) × (start < g.cells) }
    ensures { result ≡ filled (replicate 64 0) (path_of g sets.now start a) (g.horizon + 1) }
{
    let mut r = along(g, sets, start, a);
    let last = r[a];
    r[a..=g.horizon].fill(last);
    r
}
