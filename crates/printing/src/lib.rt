// The routes of a floor as text (document 01, 'The sheet', second half), put into lent memory; and the whole path from a
// sheet's bytes to the printed bytes.
#![tactic(auto)]

mod lines;

ghost use Rattle.std.specs.Prelude.{◌≡◌, ◌≤◌, length, take};
ghost use Rattle.floor.specs.Answers.{verdict_of};
ghost use Rattle.floor.specs.Checks.{check_of};
ghost use Rattle.laws.specs.Verdict.{passed};
ghost use Rattle.planner.specs.Plan.{plan_of, plan_verdict};
ghost use Rattle.records.specs.Records.{stored};
ghost use Rattle.printing.specs.Print.{printed_outcome, printed_or, print_of, text_length, print_verdict};
ghost use Rattle.printing.specs.Print.{print_outcome, print_answers, print_memory, routes_outcome, routes_memory};
ghost use Rattle.printing.specs.Put.{TextPut, FloorPut, RefusalPut};

use floor::{Floor, Refusal};
pub use lines::put_refusal;

// The needed length of text memory: 11 bytes, and 331 a carrier.
pub fn text_length(f: Floor) -> usize
    ensures { result ≡ text_length f }
{
    11 + 331 * f.carriers as usize
}

// The refusals of printing, in their order.
fn request(f: Floor, walls: &[u16], lent: usize, bytes: usize) -> Result<(), Refusal>
    ensures { verdict_of result ≡ print_verdict f walls.now lent bytes }
{
    planner::request(f, walls, lent)?;
    floor::check_length(text_length(f), bytes)
}

// Plans a checked floor and puts its routes; their length is returned.
fn put_plan(f: Floor, walls: &[u16], answers: &mut [u16], out: &mut [u8]) -> usize
    requires answers_value { plan_verdict f walls.now (length answers.old) ≡ passed }
    requires f_in_bounds { text_length f ≤ length out.old }
    ensures plans { answers.new ≡ stored (plan_of f walls.now) answers.old }
    ensures puts { TextPut (print_of f walls.now) out.old out.new result }
{
    let Ok(failing) = planner::plan(f, walls, answers) else {
        return 0;
    };
    lines::put_routes(f, failing.unwrap_or(0) as u16, answers, out)
}

// Plans a floor and prints its routes: the answers into lent memory as `planner::plan` stores them, the text into lent
// memory.
pub fn print(f: Floor, walls: &[u16], answers: &mut [u16], out: &mut [u8]) -> Result<usize, Refusal>
    ensures says { printed_outcome result
        ≡ print_outcome f walls.now (length answers.old) (length out.old) }
    ensures plans { answers.new ≡ print_answers f walls.now (length out.old)
        answers.old }
    ensures stores { out.new ≡ print_memory f walls.now (length answers.old) out.old }
{
    request(f, walls, answers.len(), out.len())?;
    Ok(put_plan(f, walls, answers, out))
}

// Plans an accepted floor and puts its routes; their length is returned.
pub fn put_routes(f: Floor, walls: &[u16], out: &mut [u8]) -> usize
    requires walls_value { check_of f walls.now ≡ passed }
    requires f_in_bounds { text_length f ≤ length out.old }
    ensures { TextPut (print_of f walls.now) out.old out.new result }
{
    let mut answers = records::blank();
    put_plan(f, walls, &mut answers, out)
}

// The routes of a floor that was read, with its walls in front of `walls`.
fn print_read(f: Floor, walls: &[u16], out: &mut [u8]) -> Result<usize, Refusal>
    requires walls_value { check_of f (take f.walls walls.now) ≡ passed }
    requires walls_in_bounds { f.walls ≤ length walls.now }
    ensures { FloorPut f walls.now out.old out.new (printed_outcome result) }
{
    floor::check_length(text_length(f), out.len())?;
    let k = f.walls as usize;
    Ok(put_routes(f, &walls[..k], out))
}

// The line of a refused sheet, by any number and place; none with less than 16 bytes of text memory, and then the refusal is the answer.
pub fn print_refusal(number: u16, place: usize, out: &mut [u8]) -> Option<usize>
    ensures { RefusalPut number place out.old out.new (printed_or number place result) }
{
    if out.len() < 16 {
        return None;
    }
    Some(put_refusal(number, place.min(65535), out))
}

// From a sheet's bytes to the printed bytes: the routes of its floor, or the line of its refusal. With too little text
// memory it is refused: with the sheet's refusal, and with 9 if it has none.
pub fn routes(text: &[u8], out: &mut [u8]) -> Result<usize, Refusal>
    ensures says { printed_outcome result ≡ routes_outcome text.now (length out.old) }
    ensures stores { out.new ≡ routes_memory text.now out.old }
{
    let mut walls = sheet::no_walls();
    match sheet::read(text, &mut walls) {
        Ok(f) => print_read(f, &walls, out),
        Err(x) => print_refusal(x.number(), x.place, out).ok_or(x),
    }
}
