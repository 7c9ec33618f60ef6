// Tables of sets of cells, 32 words a beat: the word of a row, reading a cell, a set of no cell, of one, of one more.
ghost use Rattle.std.specs.Prelude.{◌≡◌, ◌<◌, length, replicate};
ghost use Rattle.bitrows.specs.Rows.{has};
ghost use Rattle.layers.specs.Table.{Grid, Tidy, in_set, word_of};
ghost use Rattle.layers.specs.Step.{ChangedAt, Empty, Joined, Alone};

use crate::{SearchGrid, place_of};
use floor::Floor;

// The rows of the largest grid, a word each.
pub const ROWS: usize = Floor::MAX_HEIGHT as usize;

// The words of a table: the rows of every beat up to the largest horizon, and an empty word.
pub const WORDS: usize = ROWS * records::CELLS + 1;

// A table of empty sets.
pub fn empty() -> [u32; WORDS]
    ensures { result ≡ replicate 2049 0 }
{
    [0u32; WORDS]
}

// The word of a row at beat t: rows that are eight apart stand side by side.
pub fn word(t: usize, row: usize) -> usize
    requires { (t < 64) × (row < 32) }
    ensures { (result ≡ word_of t row) × (result < 2048) }
{
    t * ROWS + (row % 8 * 4 + row / 8)
}

// Whether the digit of a row at a column is 1, at beat t.
pub fn has_at(sets: &[u32], t: usize, row: usize, column: usize) -> bool
    requires { (length sets.now ≡ 2049) × (t < 64) × (row < 32) × (column < 32) }
    ensures { result ≡ has sets.now (word_of t row) column }
{
    bitrows::has(sets, word(t, row), column)
}

// Whether cell c is in the set of beat t.
pub fn member(g: SearchGrid, sets: &[u32], t: usize, c: usize) -> bool
    requires { Grid g × (length sets.now ≡ 2049) × (t < 64) × (c < g.cells) }
    ensures { result ≡ in_set g sets.now t c }
{
    let p = place_of(g, c);
    has_at(sets, t, p.row, p.column)
}

// The set of beat t becomes empty.
pub fn put_none(g: SearchGrid, sets: &mut [u32], t: usize)
    requires { Grid g × Tidy g sets.old × (t < 64) }
    ensures only { ChangedAt g sets.old t sets.new }
    ensures none { Empty g sets.new t }
{
    sets[t * ROWS..(t + 1) * ROWS].fill(0);
}

// Cell c joins the set of beat t.
pub fn put_more(g: SearchGrid, sets: &mut [u32], t: usize, c: usize)
    requires { Grid g × Tidy g sets.old × (t < 64) × (c < g.cells) }
    ensures only { ChangedAt g sets.old t sets.new }
    ensures joined { Joined g sets.old t c sets.new }
{
    let p = place_of(g, c);
    bitrows::add(sets, word(t, p.row), p.column);
}

// The set of beat t becomes cell c alone.
pub fn put_alone(g: SearchGrid, sets: &mut [u32], t: usize, c: usize)
    requires { Grid g × Tidy g sets.old × (t < 64) × (c < g.cells) }
    ensures only { ChangedAt g sets.old t sets.new }
    ensures alone { Alone g sets.new t c }
{
    put_none(g, sets, t);
    put_more(g, sets, t, c);
}
