// Commands on the memory that is lent: states and plans.
use crate::calls;
use commands::answers;
use commands::answers::Answer;
use testkit::fields::{field, write};
use testkit::memory::{buffer, narrow, part, same};

// memory: whether all lent numbers are those written out. Before the place that is the line's first number those that are not
// written out are 0; those behind it are as they were lent.
pub fn compare_memory(text: &[u8], m: &[u16]) -> Answer {
    let mut expected = buffer();
    let written = field(text, 0).min(expected.len());
    expected[..written].fill(0);
    write(text, 1, &mut expected);
    answers::compared(same(m, &expected))
}

// run: the budget, then the steps of the list, at most eight.
pub fn run(text: &[u8], setup: &[u16], m: &mut [u16]) -> Answer {
    let mut list = [0u16; 8];
    let n = write(text, 1, &mut list);
    calls::run(setup, m, part(&list, 0, n), narrow(field(text, 0)))
}
