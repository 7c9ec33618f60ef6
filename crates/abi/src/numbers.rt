// A floor record as numbers in a slice.
ghost use Rattle.std.specs.Prelude.{◌≡◌, ◌++◌, ◌+◌, ◌≤◌, length, take, drop};
ghost use Rattle.laws.specs.Memory.{part, put};
ghost use Rattle.abi.specs.Record.{floor_of, numbers_of};

use floor::Floor;

// N numbers from a place on.
fn taken<const N: usize>(xs: &[u16], at: usize) -> [u16; N]
    requires { at + N ≤ length xs.now }
    ensures { result ≡ part xs.now at N }
{
    let mut r = [0u16; N];
    r.copy_from_slice(&xs[at..at + N]);
    r
}

// The floor that 54 numbers say.
pub fn floor_of(xs: &[u16]) -> Floor
    requires { 54 ≤ length xs.now }
    ensures { result ≡ floor_of xs.now }
{
    Floor {
        width: xs[0],
        height: xs[1],
        horizon: xs[2],
        depth: xs[3],
        carriers: xs[4],
        walls: xs[5],
        starts: taken(xs, 6),
        counts: taken(xs, 14),
        docks: taken(xs, 22),
    }
}

// Copies items to a place: `put` at any type.
pub fn copy<T: Copy>(out: &mut [T], at: usize, xs: &[T])
    requires { at + length xs.now ≤ length out.old }
    ensures { out.new ≡ take at out.old ++ (xs.now ++ drop (at + length xs.now) out.old) }
{
    out[at..at + xs.len()].copy_from_slice(xs);
}

// Puts the 54 numbers of a floor in front.
pub fn store(out: &mut [u16], f: Floor)
    requires { 54 ≤ length out.old }
    ensures { out.new ≡ put out.old 0 (numbers_of f) }
{
    let head = [f.width, f.height, f.horizon, f.depth, f.carriers, f.walls];
    copy(out, 0, &head);
    copy(out, 6, &f.starts);
    copy(out, 14, &f.counts);
    copy(out, 22, &f.docks);
}
