// Looking at memory, number by number, and at texts, byte by byte. Every function answers for any place.
ghost use Rattle.std.specs.Prelude.{◌≡◌, ◌<◌, length};

use crate::bytes::BLANK;

// What lent memory holds before anything is written into it.
pub const LENT: u16 = 777;

// What a memory or a text is made of.
pub trait Item: Copy + PartialEq {
    // What is read past the end.
    const PAST: Self;
}

impl Item for u8 {
    const PAST: u8 = BLANK;
}

impl Item for u16 {
    const PAST: u16 = 65535;
}

// Room for the largest state, 9,666 numbers, and some more.
pub fn buffer() -> [u16; 9700]
    ensures { 9700 ≡ length result }
{
    [LENT; 9700]
}

// Room for the answers of eight carriers, all zeros.
pub fn zeros() -> [u16; 520]
    ensures { 520 ≡ length result }
{
    [0; 520]
}

// The item at a place: past the end 65,535, and of a text a blank.
pub fn at<T: Item>(m: &[T], i: usize) -> T {
    m.get(i).copied().unwrap_or(T::PAST)
}

// The number at a place as a size.
pub fn wide_at(m: &[u16], i: usize) -> usize
    ensures { result < 65536 }
{
    usize::from(at(m, i))
}

// So many items from a place on, none where there are fewer.
pub fn part<T>(m: &[T], from: usize, n: usize) -> &[T] {
    m.get(from..plus(from, n)).unwrap_or(&[])
}

// The first n items, none where there are fewer.
pub fn front<T>(m: &mut [T], n: usize) -> &mut [T] {
    m.get_mut(..n).unwrap_or(&mut [])
}

// A size as a number, 65,535 where it is none.
pub fn narrow(x: usize) -> u16 {
    u16::try_from(x).unwrap_or(65535)
}

// A sum of places, 131,072 where one of them is no place of these memories or of the script, which has at most 131,072 bytes.
// Kept, and no `saturating_add`: what a script of full length is answered, whose numbers go past its end, stays as it was.
pub fn plus(a: usize, b: usize) -> usize {
    if a < 131072 && b < 131072 {
        a + b
    } else {
        131072
    }
}

// Place n of those of which the first is a place and each is a stride behind the one before.
pub fn strided(from: usize, stride: usize, n: usize) -> usize {
    from.saturating_add(stride.saturating_mul(n))
}

// Writes x at a place, where there is one.
pub fn put(m: &mut [u16], i: usize, x: u16) {
    if i < m.len() {
        m[i] = x;
    }
}

// Writes the numbers of one memory into another, which is filled: past the end of the first there is 65,535.
pub fn copy(from: &[u16], to: &mut [u16]) {
    for (i, x) in to.iter_mut().enumerate() {
        *x = at(from, i);
    }
}

// Whether n numbers from place i of xs on are those from place j of ys on.
pub fn same_part(xs: &[u16], i: usize, ys: &[u16], j: usize, n: usize) -> bool {
    (0..n).all(|t| at(xs, plus(i, t)) == at(ys, plus(j, t)))
}

// Whether two memories have the same items, as far as the first goes.
pub fn same<T: Item>(xs: &[T], ys: &[T]) -> bool {
    xs.iter().enumerate().all(|(i, x)| *x == at(ys, i))
}

// Eight numbers of a memory, the first at a place and each a stride behind the one before.
pub fn eight(m: &[u16], from: usize, stride: usize) -> [u16; 8] {
    let mut numbers = [0; 8];
    let mut place = from;
    for number in &mut numbers {
        *number = at(m, place);
        place = plus(place, stride);
    }
    numbers
}
