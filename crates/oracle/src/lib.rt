// A second planner, for tests: it knows nothing of sets of cells, and asks of each move, by the three kinds of conflict, what carriers
// told. It fills a table of least arrivals, at whichever dock, from the horizon down, a number a beat and cell, and walks along it. Every
// function answers for any numbers, so none has a `requires`.
#![tactic(auto)]

mod arrivals;
mod ground;
mod offers;
mod places;
mod table;
mod views;
mod walk;

ghost use Rattle.std.specs.Prelude.{◌≡◌, length};

use floor::Floor;
use offers::{Task, conflict_with};
use places::at;
use route::{Conflict, Route};
use table::{NEVER, Table, after};
use views::{met, tell};

// The best route by the table, if there is one, for a floor and a carrier that are there.
pub fn second_route(f: Floor, walls: &[u16], carrier: u16, views: &[u16]) -> Option<Route> {
    let k = usize::from(carrier).checked_sub(1)?;
    let start = at(&f.starts, k);
    if met(&f.starts, views, k, start) {
        return None;
    }
    let task = Task {
        floor: f,
        walls,
        views,
        k,
    };
    let mut table = Table::new();
    task.fill(&mut table);
    if table.value(0, start) == NEVER {
        return None;
    }
    Some(task.walk(&table, start))
}

// The first conflict of a route with one that was told, if there is one, by the test that this planner makes of each move. A carrier that
// told none is nowhere here.
pub fn second_conflict(view: &[u16], r: Route, horizon: u16) -> Option<Conflict> {
    let nowhere = [65535u16; 8];
    if met(&nowhere, view, 1, at(&r, 0)) {
        return Some(Conflict::SameCell(0));
    }
    (0..usize::from(horizon).min(63)).find_map(|t| conflict_with(
        &nowhere,
        view,
        0,
        t,
        at(&r, t),
        at(&r, after(t)),
    ))
}

// The carriers in turn, each against what those above it told.
pub fn second_plan(f: Floor, walls: &[u16], answers: &mut [u16])
    ensures { length answers.new ≡ length answers.old }
{
    for i in 0..f.carriers {
        tell(
            answers,
            usize::from(i),
            second_route(f, walls, i + 1, answers),
        );
    }
}
