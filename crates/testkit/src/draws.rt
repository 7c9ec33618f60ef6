// Drawn floors and lists of steps, as numbers of a setup: how many walls there are, at 5; starts and first docks in turn, from 6 on; how
// many steps there are to choose among, at 100, and these; the other docks, from 150 on; the walls, from 201 on. What is drawn comes from
// one generator: the next number is the last times 16807 modulo 2^31 - 1.
ghost use Rattle.std.specs.Prelude.{◌≡◌, length};

use crate::memory::{at, narrow, plus, put, wide_at};

// The next number.
pub fn next(seed: usize) -> usize {
    seed % 2147483647 * 16807 % 2147483647
}

// A number below n, from a drawn one.
fn below(seed: usize, n: usize) -> usize {
    seed.checked_rem(n).unwrap_or(0)
}

// A seed beside another.
pub fn beside(seed: usize, k: usize) -> usize {
    plus(plus(seed % 65000, k), 1)
}

// All cells, at most 40, shuffled into every other number of a setup from a place on: the first eight are starts, or first docks.
fn shuffle(setup: &mut [u16], from: usize, cells: usize, seed: usize) {
    let mut s = seed;
    let mut to = from;
    for i in 0..cells {
        s = next(s);
        let j = below(s, plus(i, 1));
        let place = plus(plus(from, j), j);
        put(setup, to, at(setup, place));
        put(setup, place, narrow(i));
        to = plus(to, 2);
    }
}

// The place of dock n of a setup, counted through all carriers, four each: a carrier's first stands behind its start, its others from 150
// on.
pub fn dock_place(n: usize) -> usize {
    if n % 4 == 0 {
        plus(7, n / 2)
    } else {
        plus(150, n)
    }
}

// A carrier's other docks become the first ones of those behind it, round all eight: its dock k, from 0, is the first of the kth behind it.
fn draw_docks(setup: &mut [u16]) {
    for n in 0..32 {
        let behind = (n / 4 + n % 4) % 8;
        put(setup, dock_place(n), at(setup, 7 + 2 * behind));
    }
}

// Whether a cell is one of the eight drawn starts or docks.
fn is_end(setup: &[u16], c: u16) -> bool {
    (6..22).any(|i| at(setup, i) == c)
}

// Draws the walls, rising, one in six of the cells that are no start and no dock, and answers how many there are.
fn draw_walls(setup: &mut [u16], cells: usize, seed: usize) -> usize {
    let mut s = seed;
    let mut count = 0;
    for c in 0..cells {
        s = next(s);
        put(setup, plus(201, count), narrow(c));
        if !is_end(setup, narrow(c)) && s % 6 == 0 {
            count += 1;
        }
    }
    count
}

// The floor of a setup gets drawn starts, docks and walls; the dock counts are those of the setup.
pub fn draw_floor(setup: &mut [u16], cells: usize, seed: usize) {
    let c = next(next(seed));
    shuffle(setup, 6, cells, beside(c, 1));
    shuffle(setup, 7, cells, beside(c, 2));
    draw_docks(setup);
    let count = draw_walls(setup, cells, beside(c, 3));
    put(setup, 5, narrow(count));
}

// Step k of those to choose among, from 0.
pub fn choice(setup: &[u16], k: usize) -> u16 {
    at(setup, plus(101, k))
}

// A step drawn from those of the setup.
pub fn draw_step(setup: &[u16], seed: usize) -> u16 {
    choice(setup, below(seed, wide_at(setup, 100)))
}

// A list of steps drawn from those of the setup.
pub fn draw_list(setup: &[u16], seed: usize) -> [u16; 32]
    ensures { 32 ≡ length result }
{
    let mut list = [0u16; 32];
    let mut s = seed;
    for step in &mut list {
        s = next(s);
        *step = draw_step(setup, s);
    }
    list
}
