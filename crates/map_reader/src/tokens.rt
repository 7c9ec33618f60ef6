// The small parts of a map: its first line, words, numbers and marks.
ghost use Rattle.std.specs.Prelude.{◌+◌, ◌*◌, ◌≤◌, ◌<◌, ◌≡◌, length, IfSome, IfOk};
ghost use Rattle.map_reader.specs.Marks.{thing_of, place_of, or_none};

use crate::problems::Problem;

// A number and the column behind it.
#[derive(Clone, Copy)]
pub struct Number {
    pub value: u16,
    pub next: usize,
}

// Line 1: the horizon, the depth, and the column of line 2.
#[derive(Clone, Copy)]
pub struct Head {
    pub horizon: u16,
    pub depth: u16,
    pub next: usize,
}

// The column behind a word, if it stands at a column.
fn skip(text: &[u8], at: usize, word: &[u8]) -> Option<usize>
    requires { at ≤ length text.now }
    ensures { IfSome result (λ n. n ≤ length text.now) }
{
    if text[at..].starts_with(word) {
        Some(at + word.len())
    } else {
        None
    }
}

// The decimal number at a column, if a digit stands there; 65,535 stands for every number above it.
fn number_at(text: &[u8], at: usize) -> Option<Number>
    requires { at ≤ length text.now }
    ensures { IfSome result (λ n. n.next ≤ length text.now) }
{
    let mut value: u16 = 0;
    let mut next = at;
    for k in at..text.len() {
        let byte = text[k];
        if !byte.is_ascii_digit() {
            break;
        }
        value = value
            .saturating_mul(10)
            .saturating_add((byte - b'0') as u16);
        next = k + 1;
    }
    if next == at {
        return None;
    }
    Some(Number { value, next })
}

// Line 1, if its form is right.
fn head_form(text: &[u8]) -> Option<Head>
    ensures { IfSome result (λ h. h.next ≤ length text.now) }
{
    let at = skip(text, 0, b"horizon ")?;
    let horizon = number_at(text, at)?;
    let behind = skip(text, horizon.next, b" depth ")?;
    let depth = number_at(text, behind)?;
    let next = skip(text, depth.next, b"\n")?;
    Some(Head {
        horizon: horizon.value,
        depth: depth.value,
        next,
    })
}

// Line 1 with its numbers within their limits.
pub fn read_head(text: &[u8]) -> Result<Head, Problem>
    ensures { IfOk result (λ h. h.next ≤ length text.now) }
{
    let head = head_form(text).ok_or(Problem::Head)?;
    if !(1..=63).contains(&head.horizon) {
        return Err(Problem::Horizon);
    }
    if !(1..=4).contains(&head.depth) {
        return Err(Problem::Depth);
    }
    Ok(head)
}

// The place of a mark among `1` to `8`, `a` to `h`.
#[tactic(auto, unfolding(crate::specs::Marks::thing_of))]
pub fn thing_of(byte: u8) -> Option<usize>
    ensures stands { or_none 16 result ≡ thing_of byte }
    ensures low { IfSome result (λ thing. thing < 16) }
{
    match byte {
        b'1'..=b'8' => Some((byte - b'1') as usize),
        b'a'..=b'h' => Some((byte - b'a') as usize + 8),
        _ => None,
    }
}

// The place of a capital letter among `A` to `Z`.
#[tactic(auto, unfolding(crate::specs::Marks::place_of))]
pub fn letter_of(byte: u8) -> Option<usize>
    ensures stands { or_none 26 result ≡ place_of byte }
    ensures low { IfSome result (λ letter. letter < 26) }
{
    match byte {
        b'A'..=b'Z' => Some((byte - b'A') as usize),
        _ => None,
    }
}

// Whether a byte may stand on a row.
pub fn is_mark(byte: u8) -> bool {
    matches!(byte, b'#' | b'.' | b'1'..=b'8' | b'a'..=b'h' | b'A'..=b'Z')
}
