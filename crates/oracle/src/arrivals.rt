// The least arrivals, filled into the table from the horizon down.
use crate::ground::{dock, size};
use crate::offers::Task;
use crate::table::{NEVER, Table, after};

// A beat as a value, NEVER where it is none.
fn beat(t: usize) -> u8 {
    if t < 64 { t as u8 } else { NEVER }
}

impl Task<'_> {
    // The least arrival from cell c at beat t: a dock in which one can stay, and which is held from the next beat on, is an arrival at
    // t; any other value is that of the best neighbour. A neighbour that is held itself does not make c held.
    fn arrival_from(&self, table: &Table, t: usize, c: usize) -> u8 {
        if dock(&self.floor, self.k, c) && usize::from(self.offer(table, t, c, c)) == after(t) {
            return beat(t);
        }
        self.best_offer(table, t, c)
    }

    // The values of all cells at the horizon.
    fn fill_last(&self, table: &mut Table) {
        let horizon = usize::from(self.floor.horizon);
        for c in 0..size(&self.floor) {
            let is_dock = dock(&self.floor, self.k, c);
            table.set(horizon, c, if is_dock { beat(horizon) } else { NEVER });
        }
    }

    // The values of all cells at beat t, from those of the next beat.
    fn fill_beat(&self, table: &mut Table, t: usize) {
        for c in 0..size(&self.floor) {
            let x = self.arrival_from(table, t, c);
            table.set(t, c, x);
        }
    }

    // The least arrivals of all beats, from the horizon down.
    pub fn fill(&self, table: &mut Table) {
        self.fill_last(table);
        for t in (0..usize::from(self.floor.horizon)).rev() {
            self.fill_beat(table, t);
        }
    }
}
