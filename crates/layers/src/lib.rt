// Tables of sets of cells over the beats of a search: the grid they are of, the free table that views leave, and one step of a whole set.
// Helpers of the search below `passes`: what they require is checked by the entries above.
#![tactic(auto)]

pub mod beats;
pub mod free_table;
pub mod step;
pub mod stripes;
pub mod table;

ghost use Rattle.std.specs.Prelude.{◌≡◌, ◌≤◌, ◌<◌};
ghost use Rattle.layers.specs.Table.{search_grid_of, Grid, PlaceOf};

use floor::Floor;

// What the parts of a search share: the grid with the scale of its width, and the horizon.
#[derive(Clone, Copy)]
pub struct SearchGrid {
    pub width: usize,
    pub scale: usize,
    pub cells: usize,
    pub horizon: usize,
}

// The scene of a floor.
pub fn search_grid_of(f: Floor) -> SearchGrid
    requires { (1 ≤ f.width) × (f.width ≤ 32) × (f.height ≤ 32) }
    ensures { result ≡ search_grid_of f }
{
    let w = f.width as usize;
    SearchGrid {
        width: w,
        scale: bitrows::scale(w),
        cells: w * f.height as usize,
        horizon: f.horizon as usize,
    }
}

// The place of a cell in the grid.
#[derive(Clone, Copy)]
pub struct Place {
    pub row: usize,
    pub column: usize,
}

// The row and the column of a cell.
pub fn place_of(g: SearchGrid, c: usize) -> Place
    requires { Grid g × (c < g.cells) }
    ensures { PlaceOf g c result }
{
    let w = g.width;
    let row = bitrows::row_of(w, g.scale, c);
    Place {
        row,
        column: c - row * w,
    }
}
