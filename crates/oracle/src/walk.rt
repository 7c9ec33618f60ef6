// The route along the table: at each beat to the first cell that offers the least arrival, until it has arrived.
use crate::offers::Task;
use crate::places::narrow;
use crate::table::Table;
use route::Route;

impl Task<'_> {
    // Where the route goes from c at beat t. Where it has arrived it stays, though a smaller dock next to it may offer as much.
    fn next_cell(&self, table: &Table, t: usize, c: usize) -> usize {
        if usize::from(table.value(t, c)) == t {
            return c;
        }
        self.best_neighbour(table, t, c)
    }

    // The route from the start.
    pub fn walk(&self, table: &Table, start: usize) -> Route {
        let mut r = [0u16; 64];
        r[0] = narrow(start);
        let mut c = start;
        for t in 0..usize::from(self.floor.horizon).min(63) {
            c = self.next_cell(table, t, c);
            r[t + 1] = narrow(c);
        }
        r
    }
}
