// The checks of a floor past its limits: each goes over its items in order and answers the first that fails.
// Each has a `requires` for what the checks before it have shown.
ghost use Rattle.std.specs.Prelude.{ℕ, Bool, ◌≡◌, true, not, ◌+◌, ◌≤◌, ◌<◌, length, get_or};
ghost use Rattle.laws.specs.Verdict.{each, demand_each};
ghost use Rattle.floor.specs.Accepted.{StrictlyRising, CountsWithin};
ghost use Rattle.floor.specs.Answers.{number_of, verdict_of};
ghost use Rattle.floor.specs.Checks.{count_of, docks_of, within, in_grid, docks_in_grid, carrier_in_grid, long_enough};
ghost use Rattle.floor.specs.Checks.{docks_clear, clear_of_walls};
ghost use Rattle.floor.specs.Checks.{carriers_of, walls_of, rising_of, clear_of, distinct_of, unrepeated_of, places_of};
ghost use Rattle.floor.specs.Checks.{among, rises};
ghost use Rattle.floor.specs.Checks.{unshared, unrepeated};

use crate::{Floor, Reason, Refusal};

// 9: lent memory is not too short.
pub fn check_length(needed: usize, lent: usize) -> Result<(), Refusal>
    ensures { verdict_of result ≡ long_enough needed lent }
{
    if lent < needed {
        return Err(Refusal {
            reason: Reason::TooShort,
            place: 0,
        });
    }
    Ok(())
}

// Whether c is among the first k of xs, eight at most. A loop of its own: with the library's `contains` here, and a copy of the floor made
// for each carrier, a check of eight carriers takes 1.4 to 1.6 times as long; which of the two weighs more was not measured.
fn among(xs: &[u16], k: usize, c: u16) -> bool
    requires { k ≤ length xs.now }
    ensures { result ≡ among xs.now k c }
{
    for i in 0..k {
        if xs[i] == c {
            return true;
        }
    }
    false
}

// Whether a cell number lies in the grid.
fn in_grid(f: Floor, c: u16) -> bool
    requires { (f.width ≤ 32) × (f.height ≤ 32) }
    ensures { result ≡ in_grid f c }
{
    c < f.width * f.height
}

// The four places of the docks of carrier i.
pub fn docks_of(f: Floor, i: usize) -> [u16; 4]
    requires { i < 8 }
    ensures { result ≡ docks_of f i }
{
    four_docks(&f, i)
}

// The same of a floor that is not copied.
fn four_docks(f: &Floor, i: usize) -> [u16; 4]
    requires { i < 8 }
    ensures { result ≡ docks_of f.now i }
{
    let at = 4 * i;
    [
        f.docks[at],
        f.docks[at + 1],
        f.docks[at + 2],
        f.docks[at + 3],
    ]
}

// Whether a dock count is within its limits.
fn counted(count: u16) -> bool
    ensures { result ≡ within 1 4 count }
{
    if count < 1 {
        return false;
    }
    count <= Floor::MAX_DOCKS
}

// Whether every dock of carrier i lies in the grid.
fn docks_inside(f: Floor, i: usize) -> bool
    requires width_bound { (f.width ≤ 32) × (f.height ≤ 32) }
    requires i_bound { i < 8 }
    requires i_bound_2 { count_of f i ≤ 4 }
    ensures { result ≡ docks_in_grid f i }
{
    let docks = docks_of(f, i);
    let n = f.counts[i] as usize;
    for k in 0..n {
        if !in_grid(f, docks[k]) {
            return false;
        }
    }
    true
}

// Whether carrier i has a dock count within its limits and its cells lie in the grid.
fn carrier_inside(f: Floor, i: usize) -> bool
    requires width_bound { (f.width ≤ 32) × (f.height ≤ 32) }
    requires i_bound { i < 8 }
    ensures { result ≡ carrier_in_grid f i }
{
    if !counted(f.counts[i]) {
        return false;
    }
    if !in_grid(f, f.starts[i]) {
        return false;
    }
    docks_inside(f, i)
}

// The items 0 to n − 1 in their order: each must pass a test, and the first that does not is refused with a reason, item i having the
// place `first` + i.
fn in_order<F: Fn(usize) -> bool>(
    n: usize,
    reason: Reason,
    first: usize,
    passes: F,
) -> Result<(), Refusal>
    requires callable { (i : ℕ) → i < n → F.pre passes i }
    requires few { (n ≤ 65535) × (first ≤ 65536) }
    ensures { (ok : ℕ → Bool) → ((i : ℕ) (b : Bool) → i < n → F.post passes i b → b ≡ ok i)
        → verdict_of result ≡ demand_each (number_of reason) first ok n }
{
    for i in 0..n {
        if !passes(i) {
            return Err(Refusal {
                reason,
                place: first + i,
            });
        }
    }
    Ok(())
}

// 3, for the carriers: each has a dock count within its limits, and its cells lie in the grid.
fn carriers_inside(f: Floor) -> Result<(), Refusal>
    requires width_bound { (f.width ≤ 32) × (f.height ≤ 32) }
    requires carriers_bound { f.carriers ≤ 8 }
    ensures { verdict_of result ≡ carriers_of f }
{
    in_order(
        f.carriers as usize,
        Reason::OutsideGrid,
        1,
        |i| carrier_inside(f, i),
    )
}

// 3, for the walls: each lies in the grid.
fn walls_inside(f: Floor, walls: &[u16]) -> Result<(), Refusal>
    requires width_bound { (f.width ≤ 32) × (f.height ≤ 32) }
    requires walls_in_bounds { f.walls ≤ length walls.now }
    ensures { verdict_of result ≡ walls_of f walls.now }
{
    let behind = f.carriers as usize + 1;
    in_order(
        f.walls as usize,
        Reason::OutsideGrid,
        behind,
        |j| in_grid(f, walls[j]),
    )
}

// Whether wall j is above the wall before it.
fn rises(walls: &[u16], j: usize) -> bool
    requires { j < length walls.now }
    ensures { result ≡ rises walls.now j }
{
    if j == 0 {
        return true;
    }
    walls[j - 1] < walls[j]
}

// 4: the walls rise strictly.
fn rising(f: Floor, walls: &[u16]) -> Result<(), Refusal>
    requires { f.walls ≤ length walls.now }
    ensures { verdict_of result ≡ rising_of f walls.now }
{
    let behind = f.carriers as usize + 1;
    in_order(
        f.walls as usize,
        Reason::WallOrder,
        behind,
        |j| rises(walls, j),
    )
}

// Whether c is one of the first k walls, which rise.
pub fn is_wall(walls: &[u16], k: usize, c: u16) -> bool
    requires k_in_bounds { k ≤ length walls.now }
    requires strictly_rising { StrictlyRising walls.now k }
    ensures { result ≡ among walls.now k c }
{
    walls[..k].binary_search(&c).is_ok()
}

// Whether no dock of carrier i is a wall.
fn docks_clear(f: Floor, walls: &[u16], i: usize) -> bool
    requires i_bound { i < 8 }
    requires i_bound_2 { count_of f i ≤ 4 }
    requires walls_in_bounds { f.walls ≤ length walls.now }
    requires strictly_rising { StrictlyRising walls.now f.walls }
    ensures { result ≡ docks_clear f walls.now i }
{
    let docks = docks_of(f, i);
    let count = f.walls as usize;
    let n = f.counts[i] as usize;
    for k in 0..n {
        if is_wall(walls, count, docks[k]) {
            return false;
        }
    }
    true
}

// Whether neither the start nor a dock of carrier i is a wall.
fn clear_of_walls(f: Floor, walls: &[u16], i: usize) -> bool
    requires i_bound { i < 8 }
    requires i_bound_2 { count_of f i ≤ 4 }
    requires walls_in_bounds { f.walls ≤ length walls.now }
    requires strictly_rising { StrictlyRising walls.now f.walls }
    ensures { result ≡ clear_of_walls f walls.now i }
{
    let n = f.walls as usize;
    if is_wall(walls, n, f.starts[i]) {
        return false;
    }
    docks_clear(f, walls, i)
}

// 5: no carrier starts on a wall or has a dock on one.
fn clear(f: Floor, walls: &[u16]) -> Result<(), Refusal>
    requires carriers_bound { f.carriers ≤ 8 }
    requires counts_within { CountsWithin f }
    requires walls_in_bounds { f.walls ≤ length walls.now }
    requires strictly_rising { StrictlyRising walls.now f.walls }
    ensures { verdict_of result ≡ clear_of f walls.now }
{
    in_order(
        f.carriers as usize,
        Reason::OnWall,
        1,
        |i| clear_of_walls(f, walls, i),
    )
}

// Whether no carrier before carrier i has its start.
fn unshared(f: &Floor, i: usize) -> bool
    requires { i < 8 }
    ensures { result ≡ unshared f.now i }
{
    !among(&f.starts, i, f.starts[i])
}

// 6: no two carriers share a start.
fn distinct(f: Floor) -> Result<(), Refusal>
    requires { f.carriers ≤ 8 }
    ensures { verdict_of result ≡ distinct_of f }
{
    in_order(
        f.carriers as usize,
        Reason::SharedStart,
        1,
        |i| unshared(&f, i),
    )
}

// Whether no dock of carrier i stands before in its list.
fn unrepeated(f: &Floor, i: usize) -> bool
    requires i_bound { i < 8 }
    requires i_bound_2 { count_of f.now i ≤ 4 }
    ensures { result ≡ unrepeated f.now i }
{
    let docks = four_docks(f, i);
    let n = f.counts[i] as usize;
    for k in 0..n {
        if among(&docks, k, docks[k]) {
            return false;
        }
    }
    true
}

// 17: no carrier has a dock twice in its list.
fn all_unrepeated(f: Floor) -> Result<(), Refusal>
    requires carriers_bound { f.carriers ≤ 8 }
    requires counts_within { CountsWithin f }
    ensures { verdict_of result ≡ unrepeated_of f }
{
    in_order(
        f.carriers as usize,
        Reason::RepeatedDock,
        1,
        |i| unrepeated(&f, i),
    )
}

// 3 to 6 and 17, in this order.
pub fn places(f: Floor, walls: &[u16]) -> Result<(), Refusal>
    requires width_bound { (f.width ≤ 32) × (f.height ≤ 32) }
    requires carriers_bound { f.carriers ≤ 8 }
    requires walls_in_bounds { f.walls ≤ length walls.now }
    ensures { verdict_of result ≡ places_of f walls.now }
{
    carriers_inside(f)?;
    walls_inside(f, walls)?;
    rising(f, walls)?;
    clear(f, walls)?;
    let apart = distinct(f);
    apart?;
    all_unrepeated(f)
}
