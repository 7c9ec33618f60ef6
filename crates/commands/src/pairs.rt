// Every pair of routes in lent memory, by the conflict test of the entry and by the second planner's.
use crate::answers::Answer;
use route::{Conflict, Route};
use std::io;
use std::io::Write;
use testkit::fields::field;
use testkit::memory::{at, part, plus, wide_at};
use testkit::{memory, show};

// What a pair of carriers is.
#[derive(Clone, Copy, PartialEq, Eq)]
enum Pair {
    // One of them has no route.
    NoRoute,
    // Two routes free of conflict.
    Free,
    // Two routes in conflict.
    InConflict,
    // The second planner's test says otherwise.
    Odd,
}

// The place of the record of carrier i, counted from 0.
fn place_of(i: usize) -> usize {
    i % 8 * 65
}

// The cells of the record of carrier i.
fn cells_of(m: &[u16], i: usize) -> Route {
    let mut r = [0u16; 64];
    memory::copy(part(m, plus(place_of(i), 1), 64), &mut r);
    r
}

// Whether carrier i has a route in lent memory.
fn has_route(m: &[u16], i: usize) -> bool {
    at(m, place_of(i)) == 2
}

// The first conflict of carriers i and j by the entry's test.
fn first_of(m: &[u16], horizon: u16, i: usize, j: usize) -> Option<Conflict> {
    route::first_conflict(cells_of(m, i), cells_of(m, j), horizon)
}

// Two routes by both tests, whose beats and kinds must be the same.
fn tested(m: &[u16], horizon: u16, i: usize, j: usize) -> Pair {
    let first = first_of(m, horizon, i, j);
    if oracle::second_conflict(part(m, place_of(j), 65), cells_of(m, i), horizon) != first {
        return Pair::Odd;
    }
    if first.is_none() {
        Pair::Free
    } else {
        Pair::InConflict
    }
}

// What the pair of carriers i and j is.
fn pair_of(m: &[u16], horizon: u16, i: usize, j: usize) -> Pair {
    if has_route(m, i) && has_route(m, j) {
        tested(m, horizon, i, j)
    } else {
        Pair::NoRoute
    }
}

// How many pairs of carriers, the later one first, are of a kind.
fn count(setup: &[u16], m: &[u16], kind: Pair) -> usize {
    let carriers = wide_at(setup, 4);
    let horizon = at(setup, 2);
    let pairs = (0..64usize).map(|k| (k / 8, k % 8));
    pairs
        .filter(|&(i, j)| i < carriers && j < i && pair_of(m, horizon, i, j) == kind)
        .count()
}

// Whether no pair of routes is in conflict, by both tests.
pub fn are_free(setup: &[u16], m: &[u16]) -> bool {
    count(setup, m, Pair::InConflict) == 0 && count(setup, m, Pair::Odd) == 0
}

// vertex, swap and following conflicts of each pair: how many pairs of routes there are and how many of them are in conflict, where both
// tests agree.
pub fn say<W: Write>(out: &mut W, setup: &[u16], m: &[u16]) -> io::Result<Answer> {
    let conflicts = count(setup, m, Pair::InConflict);
    show::text(out, b" pairs")?;
    show::number(out, plus(count(setup, m, Pair::Free), conflicts))?;
    show::text(out, b" conflicts")?;
    show::number(out, conflicts)?;
    Ok(Answer::Shown.only_if(count(setup, m, Pair::Odd) == 0))
}

// A conflict as words: its kind and its beat.
fn show_conflict<W: Write>(out: &mut W, conflict: Conflict) -> io::Result<()> {
    let (kind, beat): (&[u8], usize) = match conflict {
        Conflict::SameCell(t) => (b" same cell at beat", t),
        Conflict::ChangeOfPlaces(t) => (b" change of places after beat", t),
        Conflict::Following(t) => (b" following after beat", t),
    };
    show::text(out, kind)?;
    show::number(out, beat)
}

// Vertex, swap or following conflict that is the first of two carriers that have routes, where both tests agree.
pub fn say_first<W: Write>(
    out: &mut W,
    text: &[u8],
    setup: &[u16],
    m: &[u16],
) -> io::Result<Answer> {
    let i = plus(field(text, 0), 7);
    let j = plus(field(text, 1), 7);
    let horizon = at(setup, 2);
    match first_of(m, horizon, i, j) {
        Some(conflict) => show_conflict(out, conflict)?,
        None => show::text(out, b" free")?,
    }
    Ok(Answer::Shown.only_if(tested(m, horizon, i, j) != Pair::Odd))
}
