// What a cell is offered at a beat: the least arrival of each cell that it may go to, NEVER where it may not.
use crate::ground::{neighbour, size, wall};
use crate::table::{NEVER, Table, after};
use crate::views::told;
use floor::Floor;
use route::Conflict;

// What is asked: a route of a carrier of a floor against what those above it told.
#[derive(Clone, Copy)]
pub struct Task<'a> {
    pub floor: Floor,
    pub walls: &'a [u16],
    // What carriers told, 65 numbers each.
    pub views: &'a [u16],
    // How many carriers are above the one that is asked for.
    pub k: usize,
}

// Whether a move from c to d enters a cell that a move from x to y leaves: it is a move, not a stay, and so is the other.
fn enters(c: usize, d: usize, x: usize, y: usize) -> bool {
    d == x && c != d && x != y
}

// The conflict of a move from c at beat t to d with one from x to y, by the three kinds: those dated by the earlier beat first.
fn conflict_of(t: usize, c: usize, d: usize, x: usize, y: usize) -> Option<Conflict> {
    if c == y && d == x {
        return Some(Conflict::ChangeOfPlaces(t));
    }
    if enters(c, d, x, y) || enters(x, y, c, d) {
        return Some(Conflict::Following(t));
    }
    if d == y {
        return Some(Conflict::SameCell(after(t)));
    }
    None
}

// The conflict of going from c at beat t to d at the next with what carrier j + 1 told.
pub fn conflict_with(
    starts: &[u16],
    views: &[u16],
    j: usize,
    t: usize,
    c: usize,
    d: usize,
) -> Option<Conflict> {
    let x = told(starts, views, j, t);
    let y = told(starts, views, j, after(t));
    conflict_of(t, c, d, x, y)
}

impl Task<'_> {
    // Whether going from c at beat t to d at the next is in conflict with one of those above, by what it told.
    fn conflicts(&self, t: usize, c: usize, d: usize) -> bool {
        (0..self.k).any(|j| conflict_with(&self.floor.starts, self.views, j, t, c, d).is_some())
    }

    // The value that going from c to its neighbour d, or staying there, offers.
    pub fn offer(&self, table: &Table, t: usize, c: usize, d: usize) -> u8 {
        if size(&self.floor) <= d
            || wall(self.walls, usize::from(self.floor.walls), d)
            || self.conflicts(t, c, d)
        {
            return NEVER;
        }
        table.value(after(t), d)
    }

    // The least value that a neighbour offers.
    pub fn best_offer(&self, table: &Table, t: usize, c: usize) -> u8 {
        let w = usize::from(self.floor.width);
        (0..5)
            .map(|n| self.offer(table, t, c, neighbour(w, c, n)))
            .min()
            .unwrap_or(NEVER)
    }

    // The first neighbour that offers the least value.
    pub fn best_neighbour(&self, table: &Table, t: usize, c: usize) -> usize {
        let w = usize::from(self.floor.width);
        (0..5)
            .map(|n| neighbour(w, c, n))
            .min_by_key(|d| self.offer(table, t, c, *d))
            .unwrap_or(c)
    }
}
