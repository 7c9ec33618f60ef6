// The map of a floor, a text that a person can type: horizon and depth, a line a row, a character a cell, and a line for each cell that is
// more than one thing. Put into lent memory; with it what other drawings of a floor share. For the program `desk`.
#![tactic(auto)]

mod marks;
mod rows;

ghost use Rattle.std.specs.Prelude.{◌≡◌, ◌+◌, ◌*◌, ◌≤◌, ◌<◌, length};
ghost use Rattle.laws.specs.Verdict.{passed};
ghost use Rattle.floor.specs.Checks.{check_of};
ghost use Rattle.sheet.specs.Text.{lines_of};
ghost use Rattle.reporting.specs.Put.{PutAt};
ghost use Rattle.maps.specs.Text.{marks_text};
ghost use Rattle.maps.specs.Inner.{Markable};
ghost use Rattle.maps.specs.Map.{map_head, map_mark, map_rows, letter_line, map_of};

use floor::Floor;
pub use marks::{is_among, put_docks, put_starts};
use reporting::{put_bytes, put_short_decimal};
pub use rows::put_grid;

// The cells of the largest floor.
pub const CELLS: usize = 1024;

// Room for every map: a line of 20 bytes, 32 rows of 33, and 19 bytes a cell.
pub const MAP_ROOM: usize = 20532;

// Room for a mark a cell.
pub fn no_marks() -> [u8; CELLS]
    ensures { 1024 ≡ length result }
{
    [0; CELLS]
}

// Puts the marks of all cells of a map.
fn put_cells(f: Floor, walls: &[u16], out: &mut [u8]) -> usize
    requires { Markable f × (f.walls ≤ length walls.now) × (1024 ≤ length out.old) }
    ensures { PutAt (marks_text (map_mark f walls.now) 1024) out.old 0 out.new result }
{
    let mut at: usize = 0;
    for c in 0..1024 {
        at = put_bytes(out, at, &[marks::map_mark(f, walls, c)]);
    }
    at
}

// Puts line 1; the column behind it is returned.
fn put_head(f: Floor, out: &mut [u8], at: usize) -> usize
    requires { (f.horizon < 100) × (f.depth < 100) × (at + 20 ≤ length out.old) }
    ensures { PutAt (map_head f) out.old at out.new result }
{
    let n1 = put_bytes(out, at, b"horizon ");
    let n2 = put_short_decimal(out, n1, f.horizon as usize);
    let n3 = put_bytes(out, n2, b" depth ");
    let n4 = put_short_decimal(out, n3, f.depth as usize);
    put_bytes(out, n4, b"\n")
}

// Puts the rows of a map; the column behind them is returned.
fn put_rows(f: Floor, walls: &[u16], out: &mut [u8], at: usize) -> usize
    requires { (check_of f walls.now ≡ passed) × (at + 1056 ≤ length out.old) }
    ensures { PutAt (map_rows f walls.now) out.old at out.new result }
{
    let mut cells = no_marks();
    put_cells(f, walls, &mut cells);
    put_grid(&cells, f.width as usize, f.height as usize, out, at)
}

// Puts the line of cell c if it is more than one thing; the column behind it is returned.
fn put_letter(f: Floor, c: u16, out: &mut [u8], at: usize) -> usize
    requires { Markable f × (c ≤ 1024) × (at + 19 ≤ length out.old) }
    ensures { PutAt (letter_line f c) out.old at out.new result }
{
    if !marks::is_shared(f, c) {
        return at;
    }
    let n1 = put_bytes(out, at, &[marks::letter_of(f, c), b' ']);
    let n2 = marks::put_marks(f, c, out, n1);
    put_bytes(out, n2, b"\n")
}

// Puts the lines of the first n cells; the column behind them is returned.
fn put_letters(f: Floor, n: u16, out: &mut [u8], at: usize) -> usize
    requires { Markable f × (n ≤ 1024) × (at + 19456 ≤ length out.old) }
    ensures { PutAt (lines_of (letter_line f) n) out.old at out.new result }
{
    let mut end = at;
    for c in 0..n {
        end = put_letter(f, c, out, end);
    }
    end
}

// Puts the map of a checked floor; the column behind it is returned.
pub fn put_map(f: Floor, walls: &[u16], out: &mut [u8], at: usize) -> usize
    requires { (check_of f walls.now ≡ passed) × (at + 20532 ≤ length out.old) }
    ensures { PutAt (map_of f walls.now) out.old at out.new result }
{
    let n1 = put_head(f, out, at);
    let n2 = put_rows(f, walls, out, n1);
    put_letters(f, f.width * f.height, out, n2)
}
