// Numbers of 16 bits in slices: read, stored, widened and narrowed, at any place.
ghost use Rattle.std.specs.Prelude.{◌≡◌, length};

// No cell. A number, and no `None`: a floor may have any numbers as cells, this one too.
pub const NOWHERE: usize = 65535;

// A size as a number, 0 where it is none.
pub fn narrow(c: usize) -> u16 {
    u16::try_from(c).unwrap_or(0)
}

// The number at a place, one that is no cell past the end.
pub fn at(set: &[u16], i: usize) -> usize {
    set.get(i).map_or(NOWHERE, |x| usize::from(*x))
}

// The number at a place, stored where the place is there.
pub fn store(set: &mut [u16], i: usize, x: u16)
    ensures { length set.new ≡ length set.old }
{
    if i < set.len() {
        set[i] = x;
    }
}
