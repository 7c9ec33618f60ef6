// One thing changed at a time: each number of a valid state, and the number of a step.
use crate::calls;
use commands::answers::Answer;
use testkit::fields::field;
use testkit::memory::{at, narrow, put};

// Whether an answer to a step or to a run is the one that the script numbers so: a refusal by its number and its place, the others from
// 31 on with the number taken.
// A script's kinds repeat from 45 on.
fn is_numbered(came: Answer, kind: usize, number: usize) -> bool {
    let kind = kind % 45;
    match came {
        Answer::Refused(r) => kind == usize::from(r.number()) && number == r.place,
        Answer::Silent(n) => kind == 31 && number == n,
        Answer::Spent(n) => kind == 32 && number == n,
        Answer::Ended(n) => kind == 33 && number == n,
        Answer::Kept => kind == 39 && number == 0,
        Answer::Sent => kind == 40 && number == 0,
        Answer::Delivered => kind == 41 && number == 0,
        _ => false,
    }
}

// Whether the step x and a run of it get an answer of a kind without a number.
fn both_get(setup: &[u16], m: &mut [u16], x: u16, kind: usize) -> bool {
    let stepped = calls::step(setup, m, x);
    let ran = calls::run(setup, m, &[x], 5);
    is_numbered(stepped, kind, 0) && is_numbered(ran, kind, 0)
}

// The number to try in place i, by a line's pairs from number 2 on: each has how many
// places from the first on get a number, and the number; a later pair goes before an earlier one.
fn number_for(text: &[u8], i: usize) -> u16 {
    let mut x = 0;
    for pair in 1..50 {
        if i < field(text, 2 * pair) {
            x = field(text, 2 * pair + 1);
        }
    }
    narrow(x)
}

// Whether with that number in place i of a state the line's step and a run of it are refused so and leave it there; the place is then as
// it was before.
fn is_left(text: &[u8], setup: &[u16], m: &mut [u16], i: usize) -> bool {
    let x = number_for(text, i);
    let was = at(m, i);
    put(m, i, x);
    let got = both_get(setup, m, narrow(field(text, 0)), field(text, 1));
    let left = at(m, i) == x;
    put(m, i, was);
    got && left
}

// unfit: a step and a number of a refusal, then the numbers to try: at how many places that is so.
pub fn unfit(text: &[u8], setup: &[u16], m: &mut [u16]) -> Answer {
    let mut n: usize = 0;
    for i in 0..m.len() {
        if is_left(text, setup, m, i) {
            n = n.saturating_add(1);
        }
    }
    Answer::Plain(n)
}

// How many of all numbers get an answer as a step on a fresh state.
pub fn numbers(text: &[u8], setup: &[u16], m: &mut [u16]) -> Answer {
    let kind = field(text, 0);
    let number = field(text, 1);
    let mut n: usize = 0;
    for x in 0..65536 {
        calls::fresh(setup, m);
        if is_numbered(calls::step(setup, m, narrow(x)), kind, number) {
            n = n.saturating_add(1);
        }
    }
    Answer::Plain(n)
}
