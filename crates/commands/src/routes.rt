// Searches beside the second planner.
use crate::answers;
use crate::answers::Answer;
use crate::setup::{floor_of, walls_of};
use route::Route;
use std::io;
use std::io::Write;
use testkit::fields::field;
use testkit::memory::{at, narrow};
use testkit::show;

// Shows the arrival of a route and its first cells, at most eight.
fn show_route<W: Write>(out: &mut W, horizon: u16, r: Route) -> io::Result<()> {
    show::text(out, b" arrival")?;
    show::number(out, usize::from(route::arrival(r, horizon)))?;
    show::text(out, b" cells")?;
    show::numbers(out, &r[..usize::from(horizon).min(7) + 1])
}

// Search: the best route of a carrier against the views in lent memory, and whether the second planner has the same.
pub fn search<W: Write>(out: &mut W, bytes: &[u8], setup: &[u16], m: &[u16]) -> io::Result<Answer> {
    let i = narrow(field(bytes, 0));
    let f = floor_of(setup);
    let walls = walls_of(setup);
    let found = match search::search(f, walls, i, m) {
        Ok(found) => found,
        Err(r) => return Ok(Answer::Refused(r)),
    };
    match found {
        Some(r) => show_route(out, at(setup, 2), r)?,
        None => show::text(out, b" none")?,
    }
    Ok(answers::compared(found == oracle::second_route(f, walls, i, m)))
}
