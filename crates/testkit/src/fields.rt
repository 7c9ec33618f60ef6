// A line of the script: where its numbers stand, and what they are. A text that is handed about is the script from its line on.
use crate::memory;
use crate::memory::{at, part, plus};

// Whether a run of digits, or of other bytes, goes on with this byte; a newline ends both.
fn goes_on(byte: u8, digits: bool) -> bool {
    byte != b'\n' && byte.is_ascii_digit() == digits
}

// The end of a run of digits, or of other bytes, that begins at a place.
fn skip(text: &[u8], from: usize, digits: bool) -> usize {
    let Some(rest) = text.get(from..) else {
        return from;
    };
    let run = rest.iter().position(|b| !goes_on(*b, digits));
    from + run.unwrap_or(rest.len())
}

// The place of number k, from 0, of a line, or its end where it has fewer.
fn place(text: &[u8], k: usize) -> usize {
    let mut i = skip(text, 0, false);
    for _ in 0..k {
        let next = skip(text, skip(text, i, true), false);
        if next == i {
            break;
        }
        i = next;
    }
    i
}

// Where a line ends: none has 1,000 numbers.
pub fn end(text: &[u8]) -> usize {
    place(text, 1000)
}

// A number with one more digit.
fn longer(x: usize, digit: u8) -> usize {
    if x < 100000 {
        10 * x + usize::from(digit.saturating_sub(b'0'))
    } else {
        x
    }
}

// The number that a run of digits says.
fn value(text: &[u8], from: usize) -> usize {
    let rest = text.get(from..).unwrap_or(&[]);
    let digits = rest.iter().take_while(|b| b.is_ascii_digit());
    digits.fold(0, |x, b| longer(x, *b))
}

// Number k of a line, 0 where it has fewer.
pub fn field(text: &[u8], k: usize) -> usize {
    value(text, place(text, k))
}

// Whether a line has a number k.
fn has(text: &[u8], k: usize) -> bool {
    at(text, place(text, k)).is_ascii_digit()
}

// Whether a colon follows number k of a line.
fn is_named(text: &[u8], k: usize) -> bool {
    at(text, skip(text, place(text, k), true)) == b':'
}

// Writes the numbers of a line, from number k on, into a memory. One with a colon behind it is the place of the next, which the others
// follow. Answers the place behind the last.
pub fn write(text: &[u8], k: usize, m: &mut [u16]) -> usize {
    let mut to = 0;
    for i in k..900 {
        if !has(text, i) {
            break;
        }
        let v = field(text, i);
        if is_named(text, i) {
            to = v;
        } else {
            memory::put(m, to, memory::narrow(v));
            to = plus(to, 1);
        }
    }
    to
}

// So many bytes of the script, from a place of the line under this one on.
pub fn under(text: &[u8], from: usize, n: usize) -> &[u8] {
    part(text, plus(plus(end(text), 1), from), n)
}
