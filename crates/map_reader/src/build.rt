// The floor of a map, from the marks of its cells and what its capital letters stand for. Things are counted as in `letters`: `1` to `8`,
// then `a` to `h`.
ghost use Rattle.std.specs.Prelude.{◌≡◌, ◌+◌, ◌*◌, ◌/◌, ◌%◌, ◌≤◌, ◌<◌, length, get_or, IfSome};
ghost use Rattle.reporting.specs.Put.{PutAt};
ghost use Rattle.map_reader.specs.Marks.{is_thing, is_wall, cells_where};
ghost use Rattle.map_reader.specs.Told.{Filled};

use crate::letters::LETTERS;
use crate::problems::Problem;
use crate::tokens;

// The cells of a map: their marks, at most 1,024, and what the capital letters stand for.
#[derive(Clone, Copy)]
pub struct Cells<'a> {
    pub marks: &'a [u8],
    pub table: &'a [u8; LETTERS],
    ghost few: { length marks.now ≤ 1024 },
}

impl<'a> Cells<'a> {
    // Whether cell c is a thing.
    fn is_thing(&self, c: usize, thing: usize) -> bool
        requires { (c < length self.now.marks.now) × (thing < 16) }
        ensures { result ≡ is_thing self.now.marks.now self.now.table.now thing c }
    {
        let byte = self.marks[c];
        if tokens::thing_of(byte) == Some(thing) {
            return true;
        }
        match tokens::letter_of(byte) {
            Some(letter) => self.table[17 * letter + thing] == 1,
            None => false,
        }
    }

    // How many cells are a thing.
    fn count(&self, thing: usize) -> u16
        requires { thing < 16 }
        ensures { (result ≡ length (cells_where (is_thing self.now.marks.now self.now.table.now thing)
            (length self.now.marks.now))) × (result ≤ 1024) }
    {
        let mut found: u16 = 0;
        for c in 0..self.marks.len() {
            if self.is_thing(c, thing) {
                found += 1;
            }
        }
        found
    }

    // The cell that is a thing and has k such cells before it; 0 where there is none.
    fn nth(&self, thing: usize, k: u16) -> u16
        requires { thing < 16 }
        ensures { result ≡ get_or (cells_where (is_thing self.now.marks.now self.now.table.now thing)
            (length self.now.marks.now)) k 0 }
    {
        let mut before: u16 = 0;
        for c in 0..self.marks.len() {
            if self.is_thing(c, thing) {
                if before == k {
                    return c as u16;
                }
                before += 1;
            }
        }
        0
    }

    // The first cell whose capital letter has no line.
    pub fn lineless(&self) -> Option<usize>
        ensures { IfSome result (λ c. c < length self.now.marks.now) }
    {
        for (c, &byte) in self.marks.iter().enumerate() {
            if let Some(letter) = tokens::letter_of(byte) {
                if self.table[17 * letter + 16] != 1 {
                    return Some(c);
                }
            }
        }
        None
    }

    // The number of carriers: the highest that has a start or a dock.
    pub fn carriers(&self) -> u16
        ensures { result ≤ 8 }
    {
        let mut highest: u16 = 0;
        for i in 0..8 {
            if self.count(i) + self.count(8 + i) > 0 {
                highest = i as u16 + 1;
            }
        }
        highest
    }

    // Whether the carrier with i above it has one start and 1 to 4 docks.
    fn check_carrier(&self, i: usize) -> Result<(), Problem>
        requires { i < 8 }
    {
        let carrier = i as u16 + 1;
        let starts = self.count(i);
        if starts == 0 {
            return Err(Problem::NoStart { carrier });
        }
        if starts > 1 {
            return Err(Problem::Starts { carrier, starts });
        }
        match self.count(8 + i) {
            0 => Err(Problem::NoDock { carrier }),
            1..=4 => Ok(()),
            docks => Err(Problem::Docks { carrier, docks }),
        }
    }

    // Whether the first of the carriers have one start and 1 to 4 docks each.
    pub fn check_carriers(&self, highest: u16) -> Result<(), Problem>
        requires { highest ≤ 8 }
    {
        for i in 0..highest as usize {
            self.check_carrier(i)?;
        }
        Ok(())
    }

    // The starts of eight carriers.
    pub fn starts(&self) -> [u16; 8]
        ensures { Filled (λ i. get_or (cells_where (is_thing self.now.marks.now self.now.table.now i) (length self.now.marks.now)) 0 0)
            result 8 }
    {
        let mut found = [0u16; 8];
        for i in 0..8 {
            found[i] = self.nth(i, 0);
        }
        found
    }

    // Their dock counts.
    pub fn counts(&self) -> [u16; 8]
        ensures { Filled (λ i. length (cells_where (is_thing self.now.marks.now self.now.table.now (8 + i)) (length self.now.marks.now)))
            result 8 }
    {
        let mut found = [0u16; 8];
        for i in 0..8 {
            found[i] = self.count(8 + i);
        }
        found
    }

    // Their docks, four places a carrier.
    pub fn docks(&self) -> [u16; 32]
        ensures { Filled (λ p. get_or (cells_where (is_thing self.now.marks.now self.now.table.now (8 + p / 4)) (length self.now.marks.now))
            (p % 4) 0) result 32 }
    {
        let mut found = [0u16; 32];
        for p in 0..32 {
            found[p] = self.nth(8 + p / 4, (p % 4) as u16);
        }
        found
    }
}

// Puts the walls among the cells in front of a memory; their number is returned.
pub fn put_walls(marks: &[u8], walls: &mut [u16]) -> usize
    requires { (length marks.now ≤ 1024) × (length marks.now ≤ length walls.old) }
    ensures { PutAt (cells_where (is_wall marks.now) (length marks.now)) walls.old 0 walls.new result
        × (result ≤ length marks.now) }
{
    let mut found: usize = 0;
    for c in 0..marks.len() {
        if marks[c] == b'#' {
            walls[found] = c as u16;
            found += 1;
        }
    }
    found
}
