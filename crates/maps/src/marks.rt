// All that a cell is: starts and docks, as marks; and the mark of a cell on a map.
ghost use Rattle.std.specs.Prelude.{◌≡◌, ltb, ◌+◌, ◌≤◌, ◌<◌, length};
ghost use Rattle.floor.specs.Checks.{among, is_dock};
ghost use Rattle.reporting.specs.Put.{PutAt};
ghost use Rattle.maps.specs.Inner.{Markable};
ghost use Rattle.maps.specs.Map.{start_mark, dock_mark, start_marks, dock_marks, marks_of, letter_of, map_mark};

use floor::Floor;
use reporting::put_bytes;

// Whether c is one of the first k numbers.
pub fn is_among(xs: &[u16], k: usize, c: u16) -> bool
    requires { k ≤ length xs.now }
    ensures { result ≡ among xs.now k c }
{
    xs[..k].contains(&c)
}

// Puts the digit of the carrier with i above it if it starts in cell c; the column behind it is returned.
fn put_start(f: Floor, i: usize, c: u16, out: &mut [u8], at: usize) -> usize
    requires { (i < 8) × (at + 1 ≤ length out.old) }
    ensures { PutAt (start_mark f c i) out.old at out.new result }
{
    if f.starts[i] == c {
        return put_bytes(out, at, &[b'1' + i as u8]);
    }
    at
}

// Kept beside `put_docks`: a function for both would be longer than its four lines, as each contract names its own marks.
// Puts the digits of the carriers that start in cell c; the column behind them is returned.
pub fn put_starts(f: Floor, c: u16, out: &mut [u8], at: usize) -> usize
    requires { (f.carriers ≤ 8) × (at + 8 ≤ length out.old) }
    ensures { PutAt (start_marks f c) out.old at out.new result }
{
    let n = f.carriers as usize;
    let mut end = at;
    for i in 0..n {
        end = put_start(f, i, c, out, end);
    }
    end
}

// Whether cell c is a dock of the carrier with i above it.
fn is_dock(f: Floor, i: usize, c: u16) -> bool
    requires { Markable f × (i < f.carriers) }
    ensures { result ≡ is_dock f i c }
{
    let docks = floor::docks_of(f, i);
    let n = f.counts[i] as usize;
    is_among(&docks, n, c)
}

// Puts the letter of the carrier with i above it if cell c is one of its docks; the column behind it is returned.
fn put_dock(f: Floor, i: usize, c: u16, out: &mut [u8], at: usize) -> usize
    requires { Markable f × (i < f.carriers) × (at + 1 ≤ length out.old) }
    ensures { PutAt (dock_mark f c i) out.old at out.new result }
{
    if is_dock(f, i, c) {
        return put_bytes(out, at, &[b'a' + i as u8]);
    }
    at
}

// Puts the letters of the carriers that have a dock in cell c; the column behind them is returned.
pub fn put_docks(f: Floor, c: u16, out: &mut [u8], at: usize) -> usize
    requires { Markable f × (at + 8 ≤ length out.old) }
    ensures { PutAt (dock_marks f c) out.old at out.new result }
{
    let n = f.carriers as usize;
    let mut end = at;
    for i in 0..n {
        end = put_dock(f, i, c, out, end);
    }
    end
}

// Puts all that cell c is; the column behind it is returned.
pub fn put_marks(f: Floor, c: u16, out: &mut [u8], at: usize) -> usize
    requires { Markable f × (at + 16 ≤ length out.old) }
    ensures { PutAt (marks_of f c) out.old at out.new result }
{
    let end = put_starts(f, c, out, at);
    put_docks(f, c, out, end)
}

// Whether cell c is more than one thing.
pub fn is_shared(f: Floor, c: u16) -> bool
    requires { Markable f }
    ensures { result ≡ ltb 1 (length (marks_of f c)) }
{
    let mut marks = [0u8; 16];
    1 < put_marks(f, c, &mut marks, 0)
}

// The capital letter of cell c.
pub fn letter_of(f: Floor, c: u16) -> u8
    requires { Markable f × (c ≤ 1024) }
    ensures { result ≡ letter_of f c }
{
    let mut shared: u16 = 0;
    for d in 0..c {
        if is_shared(f, d) {
            shared += 1;
        }
    }
    b'A' + (shared % 26) as u8
}

// The mark of cell c on a map.
pub fn map_mark(f: Floor, walls: &[u16], c: u16) -> u8
    requires { Markable f × (f.walls ≤ length walls.now) × (c ≤ 1024) }
    ensures { result ≡ map_mark f walls.now c }
{
    if is_among(walls, f.walls as usize, c) {
        return b'#';
    }
    let mut marks = [0u8; 16];
    let n = put_marks(f, c, &mut marks, 0);
    match n {
        0 => b'.',
        1 => marks[0],
        _ => letter_of(f, c),
    }
}
