// The free cells of a floor as rows of words, which are the same for all searches of a floor.
ghost use Rattle.std.specs.Prelude.{◌≡◌, ◌*◌, ◌-◌, ◌^◌, ◌≤◌, ◌<◌, length};
ghost use Rattle.search.specs.Rows.{grid_rows, FreeRows};

use crate::Rows;
use floor::Floor;

// A word of n ones.
fn ones(n: usize) -> u32
    requires { n ≤ 32 }
    ensures { result ≡ 2 ^ n - 1 }
{
    ((1u64 << n) - 1) as u32
}

// The rows of a grid.
fn grid_rows(w: usize, h: usize) -> Rows
    requires { (w ≤ 32) × (h ≤ 32) }
    ensures { (result ≡ grid_rows w h) × (length result ≡ 32) }
{
    let full = ones(w);
    let mut rows = [0u32; Floor::MAX_HEIGHT as usize];
    rows[..h].fill(full);
    rows
}

// The free cells of a floor as rows, made once a floor: the grid, and each wall taken out, from both ends at once. Walls rise, so
// neighbours are mostly in one word, where the second waits for the first; those of the two ends are in different words and wait for
// nothing. A wall in the middle may be taken out twice, which changes nothing.
pub fn free_rows(f: Floor, walls: &[u16]) -> Rows
    requires le_width { (1 ≤ f.width) × (f.width ≤ 32) × (f.height ≤ 32) }
    requires walls_in_bounds { f.walls ≤ length walls.now }
    ensures { FreeRows f walls.now result }
{
    let w = f.width as usize;
    let h = f.height as usize;
    let n = f.walls as usize;
    let cells = w * h;
    let scale = bitrows::scale(w);
    let mut rows = grid_rows(w, h);
    let half = (n + 1) / 2;
    for j in 0..half {
        bitrows::drop_at(&mut rows, 0, w, scale, cells, walls[j] as usize);
        bitrows::drop_at(&mut rows, 0, w, scale, cells, walls[n - 1 - j] as usize);
    }
    rows
}
