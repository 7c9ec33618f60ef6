// Every run of a small floor (document 02, slip 6): the total of the complete runs, from fresh to silent, of at most three carriers, and
// the run of a rank.
#![tactic(auto)]

mod lines;
mod node;
mod walk;

ghost use Rattle.std.specs.Prelude.{◌≡◌, ◌*◌, ◌≤◌, leb, length, get_or, take, drop};
ghost use Rattle.laws.specs.Verdict.{passed, demand};
ghost use Rattle.laws.specs.Memory.{put};
ghost use Rattle.floor.specs.Answers.{verdict_of};
ghost use Rattle.floor.specs.Checks.{check_of};
ghost use Rattle.encoding.specs.Calls.{machine_of};
ghost use Rattle.listing.specs.Runs.{runs_of};
ghost use Rattle.lister.specs.Lines.{listed_from};
ghost use Rattle.lister.specs.Entry.{total_of, small_verdict, listed_outcome, rank_outcome, report_listed};
ghost use Rattle.lister.specs.Entry.{list_verdict, counted_outcome, list_outcome, lines_listed};

use floor::{Floor, Reason, Refusal};
pub use lines::LINE;
use node::Node;

// What is answered with the run of a rank: how many runs there are, and how many steps the run has.
#[derive(Clone, Copy)]
pub struct Listed {
    pub total: u64,
    pub steps: u16,
}

// 14: more than three carriers.
#[tactic(auto, unfolding(floor::specs::Answers::verdict_of, laws::specs::Verdict::demand))]
fn small(carriers: u16) -> Result<(), Refusal>
    ensures { verdict_of result ≡ demand (leb carriers 3) 14 0 }
{
    if carriers > node::CARRIERS as u16 {
        return Err(Refusal {
            reason: Reason::TooManyCarriers,
            place: 0,
        });
    }
    Ok(())
}

// The refusals but 15: the floor's, 9 for the report, 14.
fn ready(f: Floor, walls: &[u16], report: usize) -> Result<(), Refusal>
    ensures { verdict_of result ≡ small_verdict f walls.now report }
{
    floor::check(f, walls)?;
    floor::check_length(2 * trial::most_steps(f.carriers as usize), report)?;
    small(f.carriers)
}

// Lists the runs of a checked floor: the lines get the runs from rank `first` on, as many as there are lines; the total is returned.
fn list(f: Floor, walls: &[u16], first: u64, lines: &mut [u16]) -> u64
    requires { (check_of f walls.now ≡ passed) × (f.carriers ≤ 3) }
    ensures counts { result ≡ total_of f walls.now }
    ensures lists { lines.new ≡
        listed_from (machine_of f walls.now) first 0 (runs_of (machine_of f walls.now)) lines.old }
{
    let n = f.carriers as usize;
    let root = Node::root(n);
    let free = search::free_rows(f, walls);
    walk::beside(
        f,
        walls,
        free,
        &root,
        trial::most_steps(n),
        0,
        first,
        0,
        lines,
    )
}

// Room for one line.
fn no_line() -> [u16; LINE]
    ensures { 23 ≡ length result }
{
    [0; LINE]
}

// Reports the run of a line; how many steps it has.
fn report_line(report: &mut [u16], line: &[u16]) -> u16
    requires { (get_or line.now 0 0 ≤ 11) × ((length line.now ≡ 23) × (2 * get_or line.now 0 0 ≤ length report.old)) }
    ensures answers { result ≡ get_or line.now 0 0 }
    ensures reports { report.new ≡
        put report.old 0 (take (2 * get_or line.now 0 0) (drop 1 line.now)) }
{
    let steps = line[0];
    records::write_front(report, &line[1..2 * steps as usize + 1]);
    steps
}

// Finds the run of a rank of a small floor, and reports it; 15 where there is none.
fn find(f: Floor, walls: &[u16], rank: u64, report: &mut [u16]) -> Result<Listed, Refusal>
    requires { small_verdict f walls.now (length report.old) ≡ passed }
    ensures answers { listed_outcome result ≡ rank_outcome f walls.now rank (length report.old) }
    ensures reports { report.new ≡ report_listed f walls.now rank report.old }
{
    let mut line = no_line();
    let total = list(f, walls, rank, &mut line);
    if rank >= total {
        return Err(Refusal {
            reason: Reason::NoRank,
            place: 0,
        });
    }
    Ok(Listed {
        total,
        steps: report_line(report, &line),
    })
}

// The complete run of a rank, counted from 0, and how many there are. The report gets two numbers a step: the step's number, and its
// answer, 0 kept, 1 sent, 2 delivered.
pub fn run_of_rank(
    f: Floor,
    walls: &[u16],
    rank: u64,
    report: &mut [u16],
) -> Result<Listed, Refusal>
    ensures answers { listed_outcome result ≡ rank_outcome f walls.now rank (length report.old) }
    ensures reports { report.new ≡ report_listed f walls.now rank report.old }
{
    ready(f, walls, report.len())?;
    find(f, walls, rank, report)
}

// The refusals of a listing of many runs: the floor's, 14.
fn listable(f: Floor, walls: &[u16]) -> Result<(), Refusal>
    ensures { verdict_of result ≡ list_verdict f walls.now }
{
    floor::check(f, walls)?;
    small(f.carriers)
}

// How many runs there are, and the runs of the ranks from `first` on, a line each: as many as the lent lines hold, 23 numbers a line.
pub fn runs_from(f: Floor, walls: &[u16], first: u64, lines: &mut [u16]) -> Result<u64, Refusal>
    ensures answers { counted_outcome result ≡ list_outcome f walls.now }
    ensures lists { lines.new ≡ lines_listed f walls.now first lines.old }
{
    listable(f, walls)?;
    Ok(list(f, walls, first, lines))
}
