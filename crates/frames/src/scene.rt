// What is drawn at each beat.
ghost use Rattle.frames.specs.Inner.{Drawable};

use floor::Floor;

// A checked floor, its walls, and the answers of its carriers as they lie in memory.
#[derive(Clone, Copy)]
pub struct Scene<'a> {
    pub floor: Floor,
    pub walls: &'a [u16],
    pub own: &'a [u16],
    ghost drawable: { Drawable floor walls.now own.now },
}
