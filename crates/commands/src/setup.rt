// The setup: the numbers that lines set. A floor's line 1 and each carrier's start and first dock, 22 numbers, behind which there is room
// to draw more; how many numbers of memory are lent, at 90; how many steps there are to choose among, at 100, and these; each carrier's
// dock count, from 140 on; its docks behind the first, four places a carrier, from 150 on; how many walls are lent, at 200, and these.
ghost use Rattle.std.specs.Prelude.{◌≡◌, length};

use floor::Floor;
use testkit::draws::dock_place;
use testkit::memory;

// A setup of zeros but for dock counts of 1, with room for 1,023 walls.
pub fn cleared() -> [u16; 1224]
    ensures { 1224 ≡ length result }
{
    let mut setup = [0u16; 1224];
    setup[140..148].fill(1);
    setup
}

// The docks of all carriers.
fn docks_of(setup: &[u16]) -> [u16; 32] {
    let mut docks = [0u16; 32];
    for (n, dock) in docks.iter_mut().enumerate() {
        *dock = memory::at(setup, dock_place(n));
    }
    docks
}

// The floor.
pub fn floor_of(setup: &[u16]) -> Floor {
    let line = memory::eight(setup, 0, 1);
    Floor {
        width: line[0],
        height: line[1],
        horizon: line[2],
        depth: line[3],
        carriers: line[4],
        walls: line[5],
        starts: memory::eight(setup, 6, 2),
        counts: memory::eight(setup, 140, 1),
        docks: docks_of(setup),
    }
}

// The walls that are lent.
pub fn walls_of(setup: &[u16]) -> &[u16] {
    memory::part(setup, 201, memory::wide_at(setup, 200))
}

// The walls that are lent become the cells 0, 1, 2 and so on.
pub fn rising_walls(setup: &mut [u16], n: usize) {
    memory::put(setup, 200, memory::narrow(n));
    for i in 0..n {
        memory::put(setup, memory::plus(201, i), memory::narrow(i));
    }
}
