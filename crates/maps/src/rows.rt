// Rows of marks.
ghost use Rattle.std.specs.Prelude.{◌+◌, ◌*◌, ◌≤◌, ◌<◌, length, ◌++◌, ◌∷◌, []};
ghost use Rattle.laws.specs.Memory.{part};
ghost use Rattle.reporting.specs.Put.{PutAt};
ghost use Rattle.maps.specs.Text.{grid_of};

use reporting::put_bytes;

// Puts the marks of the w cells from a base on, and a newline; the column behind it is returned.
fn put_row(marks: &[u8], base: usize, w: usize, out: &mut [u8], at: usize) -> usize
    requires { (w ≤ 32) × (base + w ≤ length marks.now) × (at + 33 ≤ length out.old) }
    ensures { PutAt (part marks.now base w ++ (10 ∷ [])) out.old at out.new result }
{
    let end = put_bytes(out, at, &marks[base..base + w]);
    put_bytes(out, end, b"\n")
}

// Puts a grid of at most 32 by 32 marks, a line a row; the column behind it is returned.
pub fn put_grid(marks: &[u8], w: usize, h: usize, out: &mut [u8], at: usize) -> usize
    requires { (w ≤ 32) × (h ≤ 32) × (1024 ≤ length marks.now) × (at + 1056 ≤ length out.old) }
    ensures { PutAt (grid_of marks.now w h) out.old at out.new result }
{
    let mut end = at;
    for row in 0..h {
        end = put_row(marks, row * w, w, out, end);
    }
    end
}
