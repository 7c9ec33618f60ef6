// The table of least arrivals: a number a beat and cell.
ghost use Rattle.std.specs.Prelude.{◌≤◌};

// No arrival. A number, and no `None`: it is above every beat, so that the least of some values is an arrival where there is one.
pub const NEVER: u8 = 255;

// The beat after t.
pub fn after(t: usize) -> usize
    ensures { result ≤ 64 }
{
    t.saturating_add(1).min(64)
}

// The least arrivals, at each beat from each cell.
#[derive(Drop)]
pub struct Table {
    beats: [[u8; 1024]; 64],
}

impl Table {
    // A table of zeros.
    pub fn new() -> Table {
        Table {
            beats: [[0; 1024]; 64],
        }
    }

    // The value of a cell at a beat, NEVER where there is none.
    pub fn value(&self, t: usize, c: usize) -> u8 {
        if t < 64 && c < 1024 {
            self.beats[t][c]
        } else {
            NEVER
        }
    }

    // Sets the value of a cell at a beat, where there is one.
    pub fn set(&mut self, t: usize, c: usize, x: u8) {
        if t < 64 && c < 1024 {
            self.beats[t][c] = x;
        }
    }
}
