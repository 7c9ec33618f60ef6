// The record of an answer, a view or a message in lent memory: 65 numbers, a tag (0 not heard, 1 none, 2 a route) and 64 cells. A route
// goes by value from place to place. The functions are helpers between crates: what they require is checked by the entries above.
#![tactic(auto)]

mod seen;

ghost use Rattle.std.specs.Prelude.{◌≡◌, [], ◌∷◌, ◌+◌, ◌*◌, ◌≤◌, ◌<◌, length};
ghost use Rattle.laws.specs.Memory.{put, part};
ghost use Rattle.records.specs.Records.{resized, moved, view_cell};

use floor::Floor;
use route::Route;
pub use seen::{TEAM, blank, seen_records, store_seen};

// The cells of a route: one for each beat up to the largest horizon.
pub const CELLS: usize = Floor::MAX_HORIZON as usize + 1;

// The numbers of a record.
pub const SIZE: usize = CELLS + 1;

// The 64 cells at a place.
pub fn load(m: &[u16], at: usize) -> Route
    requires { at + 64 ≤ length m.now }
    ensures { result ≡ part m.now at 64 }
{
    let mut cells: Route = [0u16; CELLS];
    cells.copy_from_slice(&m[at..at + CELLS]);
    cells
}

// Stores 64 cells.
fn store_cells(m: &mut [u16], at: usize, cells: Route)
    requires { at + 64 ≤ length m.old }
    ensures { (m.new ≡ put m.old at cells) × (length cells ≡ 64) }
{
    m[at..at + CELLS].copy_from_slice(&cells);
}

// Stores a record.
pub fn store(m: &mut [u16], at: usize, tag: u16, cells: Route)
    requires { at + 65 ≤ length m.old }
    ensures { m.new ≡ put m.old at (tag ∷ cells) }
{
    m[at] = tag;
    store_cells(m, at + 1, cells);
}

// Clears a record: nothing heard, no message.
pub fn clear(m: &mut [u16], at: usize)
    requires { at + 65 ≤ length m.old }
    ensures { m.new ≡ put m.old at (resized 65 []) }
{
    store(m, at, 0, [0u16; CELLS]);
}

// Copies a record from one place to another.
pub fn copy(m: &mut [u16], from: usize, to: usize)
    requires { (from + 65 ≤ length m.old) × (to + 65 ≤ length m.old) }
    ensures { m.new ≡ moved m.old from to }
{
    m.copy_within(from..from + SIZE, to);
}

// The cell of the route in record j at beat t, a number that is no cell where there is no route.
pub fn view_cell(views: &[u16], j: usize, t: usize) -> usize
    requires { (65 * j + 65 ≤ length views.now) × (t < 64) }
    ensures { (result ≡ view_cell views.now j t) × (result < 65536) }
{
    if views[SIZE * j] == 2 {
        return views[SIZE * j + 1 + t] as usize;
    }
    65535
}

// Writes numbers in front of a memory.
pub fn write_front(m: &mut [u16], numbers: &[u16])
    requires { length numbers.now ≤ length m.old }
    ensures { m.new ≡ put m.old 0 numbers.now }
{
    m[..numbers.len()].copy_from_slice(numbers);
}
