// Commands on sheets and floors. A text is a number of bytes of the script, from the line under the command's on.
use crate::answers::{Answer, answered, checked};
use crate::setup::{floor_of, walls_of};
use floor::Floor;
use testkit::bytes;
use testkit::fields::{field, under};
use testkit::memory::{buffer, front, same};

// The sheet of a floor is written into n lent bytes: the answer, if these are then a text and otherwise as lent.
fn written(f: Floor, walls: &[u16], n: usize, text: &[u8]) -> Answer {
    let mut page = bytes::page();
    let came = checked(sheet::write(f, walls, front(&mut page, n)));
    came.only_if(same(&page, text))
}

// A sheet is checked, and read into lent memory, which must answer alike. If it is refused, lent memory is as it was lent; if not, the
// floor that was read is written again as the same bytes.
fn read(text: &[u8], m: &mut [u16]) -> Answer {
    let asked = checked(sheet::check(text, m.len()));
    match sheet::read(text, m) {
        Err(r) => asked.only_if(asked == Answer::Refused(r) && same(m, &buffer())),
        Ok(f) => {
            Answer::Written.only_if(asked == Answer::Passed && written(f, m, 3000, text) == asked)
        }
    }
}

// text: a sheet of a number of bytes.
pub fn text(bytes: &[u8], m: &mut [u16]) -> Answer {
    read(under(bytes, 0, field(bytes, 0)), m)
}

// Writing: the floor of the setup into lent bytes, whose number is the first of the line; they are then the text under
// the line, whose length is the second.
pub fn writing(text: &[u8], setup: &[u16]) -> Answer {
    written(
        floor_of(setup),
        walls_of(setup),
        field(text, 0),
        under(text, 0, field(text, 1)),
    )
}

// Printed: the line has the length of a sheet and of what is printed for it; both stand under it, one behind the other.
pub fn printed(text: &[u8]) -> Answer {
    let n = field(text, 0);
    let mut page = bytes::page();
    let came = answered(
        printing::routes(under(text, 0, n), &mut page),
        |n| Answer::Printed(n),
    );
    came.only_if(same(&page, under(text, n, field(text, 1))))
}
