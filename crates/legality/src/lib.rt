// Whether a record of 65 numbers is a route of a carrier of a floor, and the arrival of a lent route, as entries (document 01, 'Routes').
#![tactic(auto)]

mod beats;
mod places;

ghost use Rattle.std.specs.Prelude.{◌≡◌, ◌≤◌, length};
ghost use Rattle.laws.specs.Verdict.{passed};
ghost use Rattle.floor.specs.Answers.{verdict_of};
ghost use Rattle.route.specs.Arrival.{arrival_of};
ghost use Rattle.search.specs.Task.{task_of};
ghost use Rattle.legality.specs.Entry.{record_kind, record_answer, record_verdict, record_outcome, arrival_outcome};
ghost use Rattle.legality.specs.Answers.{cause_number, record_meant, legality_outcome, arrived_outcome};

use floor::{Floor, Refusal};
use records::{CELLS, SIZE};
use route::Route;

// What is wrong with a record: each cause with its number, and the beat that is told with it.
#[derive(Clone, Copy)]
pub enum Cause {
    // It does not begin at the carrier's start; beat 0.
    Start = 3,
    // A number is no cell of the floor, or a wall; its beat.
    Cell = 4,
    // No stay, and no move to a cell that shares a side; the beat before it.
    Move = 5,
    // It ends at no dock of the carrier; the horizon.
    End = 6,
    // A number other than 0 in an unused place: a route's after the horizon, any where there is no route; its beat.
    Unused = 7,
    // The tag is none of 0, 1 and 2; beat 0.
    Tag = 8,
}

impl Cause {
    // Its number.
    pub fn number(self) -> u16
        ensures { result ≡ cause_number self }
    {
        self as u16
    }
}

// The first thing that is wrong with a record.
#[derive(Clone, Copy)]
pub struct Fault {
    pub cause: Cause,
    pub beat: usize,
}

// What a record is.
#[derive(Clone, Copy)]
pub enum Record {
    // A route of the carrier, with its arrival.
    Route(u16),
    // None.
    None,
    // Not heard.
    NotHeard,
    // No record of the carrier.
    Wrong(Fault),
}

// The refusals of the check of a record, in their order.
fn request(f: Floor, walls: &[u16], carrier: u16, lent: usize) -> Result<(), Refusal>
    ensures { verdict_of result ≡ record_verdict f walls.now carrier lent }
{
    floor::check(f, walls)?;
    floor::check_length(SIZE, lent)?;
    search::listed(f, carrier)
}

// What a record that passes its tests is, by its tag.
// Kept: the tag is a number of the record that C lends.
fn kind(tag: u16, cells: Route, horizon: u16) -> Record
    requires { horizon ≤ 63 }
    ensures { record_meant result ≡ record_kind tag (arrival_of cells horizon) }
{
    match tag {
        2 => Record::Route(route::arrival(cells, horizon)),
        1 => Record::None,
        _ => Record::NotHeard,
    }
}

// What a record is for a carrier of a checked floor.
fn answer(f: Floor, walls: &[u16], carrier: u16, numbers: &[u16]) -> Record
    requires { record_verdict f walls.now carrier (length numbers.now) ≡ passed }
    ensures { record_meant result ≡ record_answer (task_of f walls.now carrier) numbers.now }
{
    let tag = numbers[0];
    let cells = records::load(numbers, 1);
    match beats::record_test(f, walls, carrier, tag, cells) {
        Ok(()) => kind(tag, cells, f.horizon),
        Err(x) => Record::Wrong(x),
    }
}

// Whether a record, of which 65 numbers are read, is a route of a carrier of a floor: none or not heard, a route with its arrival, or
// the first thing that is wrong.
pub fn check_record(
    f: Floor,
    walls: &[u16],
    carrier: u16,
    numbers: &[u16],
) -> Result<Record, Refusal>
    ensures { legality_outcome result ≡ record_outcome f walls.now carrier numbers.now }
{
    request(f, walls, carrier, numbers.len())?;
    Ok(answer(f, walls, carrier, numbers))
}

// The arrival of a lent route, of which 64 cells are read, through the horizon; a horizon above 63 counts as 63.
pub fn arrival(cells: &[u16], horizon: u16) -> Result<u16, Refusal>
    ensures { arrived_outcome result ≡ arrival_outcome cells.now horizon }
{
    floor::check_length(CELLS, cells.len())?;
    Ok(route::arrival(records::load(cells, 0), horizon))
}
