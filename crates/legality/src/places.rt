// The tests of one cell, and of one move: a wall, a dock, a side in common.
ghost use Rattle.std.specs.Prelude.{◌≡◌, ◌&&◌, ◌≤◌, ◌<◌, eqb, length};
ghost use Rattle.floor.specs.Accepted.{StrictlyRising};
ghost use Rattle.floor.specs.Checks.{among, is_dock, count_of};
ghost use Rattle.legality.specs.Inner.{free_on};
ghost use Rattle.route.specs.Moves.{neighbours, near};

use floor::Floor;

// Whether a number is a cell of the floor that is no wall.
pub fn is_free(f: Floor, walls: &[u16], c: u16) -> bool
    requires width_bound { (f.width ≤ 32) × (f.height ≤ 32) }
    requires walls_in_bounds { f.walls ≤ length walls.now }
    requires strictly_rising { StrictlyRising walls.now f.walls }
    ensures { result ≡ free_on f walls.now c }
{
    c < f.width * f.height && !floor::is_wall(walls, f.walls as usize, c)
}

// Whether c is one of the docks of carrier i, counted from 0.
pub fn is_dock(f: Floor, i: usize, c: u16) -> bool
    requires i_bound { i < 8 }
    requires i_bound_2 { count_of f i ≤ 4 }
    ensures { result ≡ is_dock f i c }
{
    let docks = floor::docks_of(f, i);
    let n = f.counts[i] as usize;
    docks[..n].contains(&c)
}

// Whether one number is the other plus 1.
fn neighbours(k: u16, n: u16) -> bool
    ensures { result ≡ neighbours k n }
{
    k.abs_diff(n) == 1
}

// Whether two cells are of one line, a and b, and side by side in it, at x and y.
fn in_line(a: u16, b: u16, x: u16, y: u16) -> bool
    ensures { result ≡ (eqb a b && neighbours x y) }
{
    a == b && neighbours(x, y)
}

// Whether d is c or shares a side with c in a grid of width w.
pub fn near(w: u16, c: u16, d: u16) -> bool
    requires { 1 ≤ w }
    ensures { result ≡ near w c d }
{
    // First, as most beats of a route are stays: the divisions take longer than the rest.
    if d == c {
        return true;
    }
    let row = c / w;
    let column = c % w;
    let next_row = d / w;
    let next_column = d % w;
    if in_line(row, next_row, column, next_column) {
        return true;
    }
    in_line(column, next_column, row, next_row)
}
