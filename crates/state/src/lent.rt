// What is only read of a state.
ghost use Rattle.std.specs.Prelude.{◌≤◌, length};
ghost use Rattle.encoding.specs.Places.{state_size};

use floor::Floor;

// A state in lent memory, with the floor that it is of.
#[derive(Clone, Copy)]
pub struct State<'a> {
    pub floor: Floor,
    pub memory: &'a [u16],
    ghost few: { floor.carriers ≤ 8 },
    ghost whole: { state_size floor.carriers ≤ length memory.now },
}
