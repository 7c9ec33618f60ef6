// A floor drawn as plain text with carriers on it, a line a row: `#` a wall, `.` nobody, a digit the carrier there, `*` several carriers.
// A helper of the program `desk`.
#![tactic(auto)]

ghost use Rattle.std.specs.Prelude.{◌≡◌, ◌+◌, ◌*◌, ◌≤◌, ◌<◌, length};
ghost use Rattle.laws.specs.Memory.{put};
ghost use Rattle.drawing.specs.Drawing.{mark_with, carrier_mark, cell_mark, drawn_byte, drawn_floor};

use floor::Floor;

// A cell for each of eight carriers; a number that is no cell of the floor is nowhere.
pub type Places = [u16; 8];

// The mark of a cell in which carrier k + 1 is too.
#[tactic(auto, unfolding(crate::specs::Drawing::mark_with))]
fn mark_with(mark: u8, k: usize) -> u8
    requires { k < 8 }
    ensures { result ≡ mark_with mark k }
{
    if mark == b'.' { b'1' + k as u8 } else { b'*' }
}

// The mark of a cell for the carriers.
fn carrier_mark(places: Places, c: u16) -> u8
    ensures { result ≡ carrier_mark places c 8 }
{
    let mut mark = b'.';
    for k in 0..8 {
        if places[k] == c {
            mark = mark_with(mark, k);
        }
    }
    mark
}

// The mark of a cell.
fn cell_mark(f: Floor, walls: &[u16], places: Places, c: u16) -> u8
    requires { f.walls ≤ length walls.now }
    ensures { result ≡ cell_mark f walls.now places c }
{
    if walls[..f.walls as usize].contains(&c) {
        return b'#';
    }
    carrier_mark(places, c)
}

// Byte k of the drawing of a floor of at most 32 by 32 cells.
fn byte_at(f: Floor, walls: &[u16], places: Places, k: usize) -> u8
    requires { (f.width ≤ 32) × (k ≤ 1056) × (f.walls ≤ length walls.now) }
    ensures { result ≡ drawn_byte f walls.now places k }
{
    let w = f.width as usize;
    let column = k % (w + 1);
    if column == w {
        return b'\n';
    }
    cell_mark(f, walls, places, (k / (w + 1) * w + column) as u16)
}

// Puts the drawing of a floor of at most 32 by 32 cells in front of a memory; its length is returned.
pub fn put_floor(f: Floor, walls: &[u16], places: Places, out: &mut [u8]) -> usize
    requires { (f.width ≤ 32) × (f.height ≤ 32) × (f.walls ≤ length walls.now) × ((f.width + 1) * f.height ≤ length out.old) }
    ensures puts { out.new ≡ put out.old 0 (drawn_floor f walls.now places) }
    ensures size { result ≡ (f.width + 1) * f.height }
{
    let n = (f.width as usize + 1) * f.height as usize;
    for k in 0..n {
        out[k] = byte_at(f, walls, places, k);
    }
    n
}
