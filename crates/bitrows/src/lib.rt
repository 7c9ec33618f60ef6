// Words of digits and sets of cells as rows of words: one step of a whole set takes a few operations a row.
// A cell's row is its number by the width, its column the rest.
#![tactic(auto)]

ghost use Rattle.std.specs.Prelude.{◌≡◌, ◌+◌, ◌*◌, ◌-◌, ◌/◌, ◌%◌, ◌^◌, ◌≤◌, ◌<◌, length};
ghost use Rattle.bitrows.specs.Words.{without};
ghost use Rattle.bitrows.specs.Rows.{added, dropped, dropped_at, written, successor_row};
ghost use Rattle.bitrows.specs.Rows.{has};

// The word with one digit, at a column.
fn bit(column: usize) -> u32
    requires { column < 32 }
    ensures { result ≡ 2 ^ column }
{
    1u32 << column
}

// The digits of x that are not in a mask.
#[tactic(auto, unfolding(crate::specs::Words::without))]
pub fn without(x: u32, mask: u32) -> u32
    ensures { result ≡ without x mask }
{
    x ^ (x & mask)
}

// Whether the digit of a row at a column is 1.
pub fn has(rows: &[u32], row: usize, column: usize) -> bool
    requires { (row < length rows.now) × (column < 32) }
    ensures { result ≡ has rows.now row column }
{
    (rows[row] >> column) & 1 == 1
}

// Adds the digit of a row at a column.
#[tactic(auto, unfolding(crate::specs::Rows::added))]
pub fn add(rows: &mut [u32], row: usize, column: usize)
    requires { (row < length rows.old) × (column < 32) }
    ensures { rows.new ≡ added rows.old row column }
{
    rows[row] |= bit(column);
}

// What a cell's number is multiplied with, so that a shift by 16 places divides it by the width.
pub fn scale(w: usize) -> usize
    requires { (1 ≤ w) × (w ≤ 32) }
    ensures { result ≡ 65536 / w + 1 }
{
    65536 / w + 1
}

// The row of cell c, without a division.
pub fn row_of(w: usize, scale: usize, c: usize) -> usize
    requires { (1 ≤ w) × (w ≤ 32) × (c < 1024) × (scale ≡ 65536 / w + 1) }
    ensures { (result ≡ c / w) × (result * w + c % w ≡ c) }
{
    (c * scale) >> 16
}

// Takes the digit of a row at a column away.
#[tactic(auto, unfolding(crate::specs::Rows::dropped))]
pub fn drop(rows: &mut [u32], row: usize, column: usize)
    requires { (row < length rows.old) × (column < 32) }
    ensures { rows.new ≡ dropped rows.old row column }
{
    rows[row] = without(rows[row], bit(column));
}

// Takes cell c of a grid of width w out of the rows from row i on; a number that is no cell changes nothing.
pub fn drop_at(rows: &mut [u32], i: usize, w: usize, scale: usize, cells: usize, c: usize)
    requires le_w { (1 ≤ w) × (w ≤ 32) × (cells ≤ 32 * w) × (scale ≡ 65536 / w + 1) }
    requires i_in_bounds { i + 32 ≤ length rows.old }
    ensures { rows.new ≡ dropped_at w cells i c rows.old }
{
    if c < cells {
        let row = row_of(w, scale, c);
        drop(rows, i + row, c - row * w);
    }
}

// Writes the first n of some rows into a table, from row i on.
pub fn put_rows(table: &mut [u32], i: usize, words: &[u32], n: usize)
    requires { (n ≤ length words.now) × (i + n ≤ length table.old) }
    ensures { table.new ≡ written table.old i words.now n }
{
    table[i..i + n].copy_from_slice(&words[..n]);
}

// The digits of a mask that a step brings to a row from the row above, itself and the row below.
#[tactic(auto, unfolding(crate::specs::Rows::successor_row))]
pub fn successor_row(over: u32, here: u32, under: u32, mask: u32) -> u32
    ensures { result ≡ successor_row over here under mask }
{
    (here | here << 1 | here >> 1 | over | under) & mask
}
