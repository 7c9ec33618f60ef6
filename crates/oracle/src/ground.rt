// The cells of a floor: how many there are, which are walls, which are docks of a carrier, which lie side by side.
use crate::places::NOWHERE;
use floor::Floor;

// The number of cells, 0 for a floor that is too large.
pub fn size(f: &Floor) -> usize {
    if 32 < f.width || 32 < f.height {
        return 0;
    }
    usize::from(f.width) * usize::from(f.height)
}

// Whether cell c is among the first n walls.
pub fn wall(walls: &[u16], n: usize, c: usize) -> bool {
    walls.iter().take(n).any(|w| usize::from(*w) == c)
}

// Whether cell c is one of the docks of carrier k + 1, of which there are four at most.
pub fn dock(f: &Floor, k: usize, c: usize) -> bool {
    if 8 <= k {
        return false;
    }
    let n = usize::from(f.counts[k]).min(4);
    f.docks[4 * k..4 * k + n]
        .iter()
        .any(|d| usize::from(*d) == c)
}

// Number n of the cells to go to from c, in rising order, or one that is no cell.
pub fn neighbour(w: usize, c: usize, n: usize) -> usize {
    if w == 0 || 32 < w || 1024 <= c {
        return NOWHERE;
    }
    match n {
        0 if w <= c => c - w,
        1 if c % w != 0 && c != 0 => c - 1,
        2 => c,
        3 if (c + 1) % w != 0 => c + 1,
        4 => c + w,
        _ => NOWHERE,
    }
}
