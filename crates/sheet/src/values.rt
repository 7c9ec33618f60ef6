// What a text in good form says.
ghost use Rattle.std.specs.Prelude.{◌≡◌, ◌++◌, ◌+◌, ◌*◌, ◌/◌, ◌%◌, ◌≤◌, ◌<◌, length, drop};
ghost use Rattle.laws.specs.Verdict.{passed};
ghost use Rattle.fields.specs.Form.{counted_form, past_counted, lines_form};
ghost use Rattle.sheet.specs.Text.{carrier_at};
ghost use Rattle.sheet.specs.Form.{carrier_column};
ghost use Rattle.sheet.specs.Values.{value_at, cell_of, cell_at_column, up_to, listed, head_at, floor_at, walls_from};
ghost use Rattle.sheet.specs.Values.{count_in, starts_at, counts_at, docks_at};

use crate::lines;
use floor::Floor;

// The value at a column, as a record holds it.
pub fn value(text: &[u8], at: usize) -> u16
    requires { at + 5 ≤ length text.now }
    ensures { result ≡ value_at text.now at }
{
    fields::number(text, at).min(65535) as u16
}

// The cell number of a column and a row, or the first number past the grid.
fn cell_of(width: u16, height: u16, col: u16, row: u16) -> u16
    requires { (width ≤ 32) × (height ≤ 32) }
    ensures { result ≡ cell_of width height col row }
{
    if width <= col || height <= row {
        return width * height;
    }
    row * width + col
}

// The cell whose column and row stand at a column of the text.
fn cell(text: &[u8], width: u16, height: u16, at: usize) -> u16
    requires width_bound { (width ≤ 32) × (height ≤ 32) }
    requires at_in_bounds { at + 10 ≤ length text.now }
    ensures { result ≡ cell_at_column text.now width height at }
{
    cell_of(width, height, value(text, at), value(text, at + 5))
}

// Line 1, with no carrier placed yet.
pub fn head(text: &[u8]) -> Floor
    requires { 30 ≤ length text.now }
    ensures { result ≡ head_at text.now }
{
    Floor {
        width: value(text, 0),
        height: value(text, 5),
        horizon: value(text, 10),
        depth: value(text, 15),
        carriers: value(text, 20),
        walls: value(text, 25),
        starts: [0; 8],
        counts: [0; 8],
        docks: [0; 32],
    }
}

// The docks of a carrier, whose columns and rows stand from a column on; 0 past their count.
fn docks(text: &[u8], f: Floor, at: usize, count: usize) -> [u16; 4]
    requires width_bound { (f.width ≤ 32) × (f.height ≤ 32) }
    requires count_bound { (count ≤ 4) × (at + 10 * count ≤ length text.now) }
    ensures { result ≡ listed (up_to count (λ k. cell_at_column text.now f.width f.height (at + 10 * k))) 4 }
{
    let mut found = [0u16; 4];
    for k in 0..count {
        found[k] = cell(text, f.width, f.height, at + 10 * k);
    }
    found
}

// The floor that the text says, from line 1: each carrier's line behind the one before it.
pub fn floor(text: &[u8], f: Floor) -> Floor
    requires f_value { f ≡ head_at text.now }
    requires width_bound { (f.width ≤ 32) × (f.height ≤ 32) }
    requires carriers_bound { (f.carriers ≤ 8) × (lines_form (counted_form text.now) (past_counted text.now) 31 f.carriers ≡ passed) }
    ensures { result ≡ floor_at text.now }
{
    let n = f.carriers as usize;
    let mut starts = [0u16; 8];
    let mut counts = [0u16; 8];
    let mut places = [0u16; 32];
    let mut column: usize = 31;
    for i in 0..n {
        let count = value(text, column + 10);
        starts[i] = cell(text, f.width, f.height, column);
        counts[i] = count;
        let few = docks(text, f, column + 15, count as usize);
        places[4 * i..4 * i + 4].copy_from_slice(&few);
        column += 16 + 10 * count as usize;
    }
    Floor {
        starts,
        counts,
        docks: places,
        ..f
    }
}

// The walls that the text says, into the front of `out`.
pub fn walls(text: &[u8], f: Floor, out: &mut [u16])
    requires width_bound { (f.width ≤ 32) × (f.height ≤ 32) }
    requires carriers_bound { (f.carriers ≤ 8) × (f.walls ≤ length out.old) }
    requires walls_in_bounds { carrier_at f f.carriers + 11 * f.walls ≤ length text.now }
    ensures { out.new ≡ walls_from text.now f ++ drop f.walls out.old }
{
    let base = lines::walls_at(f);
    let k = f.walls as usize;
    let width = f.width;
    let height = f.height;
    for j in 0..k {
        out[j] = cell(text, width, height, base + 11 * j);
    }
}
