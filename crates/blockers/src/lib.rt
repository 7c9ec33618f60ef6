// Who shuts a carrier in (document 02, slip 8): for a carrier with none in the sequential result, a set of carriers above it against whose
// answers alone there is still no route, and against any smaller part of which there is one.
#![tactic(auto)]

mod leave;

ghost use Rattle.std.specs.Prelude.{◌≡◌, ◌+◌, ◌*◌, ◌≤◌, ◌<◌, length};
ghost use Rattle.laws.specs.Verdict.{passed, demand};
ghost use Rattle.laws.specs.Memory.{put};
ghost use Rattle.floor.specs.Answers.{verdict_of};
ghost use Rattle.floor.specs.Checks.{check_of, within};
ghost use Rattle.records.specs.Records.{records};
ghost use Rattle.planner.specs.Plan.{respond_of};
ghost use Rattle.blockers.specs.Blockers.{left_after, set_of, blockers_of};
ghost use Rattle.blockers.specs.Entry.{carrier_verdict, blocked_outcome, blockers_outcome, blockers_memory};
ghost use Rattle.blockers.specs.Inner.{PlanIn};

use floor::{Floor, Reason, Refusal};
use records::{SIZE, TEAM};

// The refusals but 16, in their order.
fn request(f: Floor, walls: &[u16], carrier: u16, lent: usize) -> Result<(), Refusal>
    ensures { verdict_of result ≡ carrier_verdict f walls.now carrier lent }
{
    planner::request(f, walls, lent)?;
    search::listed(f, carrier)
}

// The sequential answers of a checked floor, in memory of its own.
pub fn plan_own(f: Floor, walls: &[u16]) -> [u16; TEAM]
    requires { check_of f walls.now ≡ passed }
    ensures { PlanIn f walls.now result }
{
    let mut own = records::blank();
    let _ = planner::plan(f, walls, &mut own);
    own
}

// The set that is left of the carriers in the first i records, for the carrier below them.
fn shut_by(f: Floor, walls: &[u16], i: u16, views: &mut [u16]) -> u16
    requires { (check_of f walls.now ≡ passed) × (i < f.carriers) × (65 * i ≤ length views.old) }
    ensures { result ≡ set_of (left_after (respond_of f walls.now i) i (records views.old i)) }
{
    let free = search::free_rows(f, walls);
    leave::leave_out(f, free, i, views);
    leave::set_of(views, i as usize)
}

// The carriers that shut the carrier with i above it in, from the sequential answers of a checked floor.
pub fn set_for(f: Floor, walls: &[u16], own: [u16; TEAM], i: u16) -> u16
    requires { (check_of f walls.now ≡ passed) × (i < f.carriers) × PlanIn f walls.now own }
    ensures { result ≡ blockers_of f walls.now i }
{
    let mut views = own;
    shut_by(f, walls, i, &mut views)
}

// Finds who shuts a carrier of a checked floor in, and stores the sequential answers; 16 where the carrier has a route.
fn find(f: Floor, walls: &[u16], carrier: u16, answers: &mut [u16]) -> Result<u16, Refusal>
    requires { carrier_verdict f walls.now carrier (length answers.old) ≡ passed }
    ensures answers { blocked_outcome result ≡ blockers_outcome f walls.now carrier (length answers.old) }
    ensures stores { answers.new ≡ blockers_memory f walls.now carrier answers.old }
{
    let i = carrier - 1;
    let at = SIZE * i as usize;
    let own = plan_own(f, walls);
    if own[at] == 2 {
        return Err(Refusal {
            reason: Reason::HasRoute,
            place: 0,
        });
    }
    records::write_front(answers, &own[0..SIZE * f.carriers as usize]);
    Ok(set_for(f, walls, own, i))
}

// Who shuts a carrier in: begin with all carriers above it and, from carrier 1 downwards in rank, leave out each that can go. The
// sequential answers go into lent memory, as planning leaves them; all is as found with a refusal, 16 (the carrier has a route) too.
pub fn blockers(f: Floor, walls: &[u16], carrier: u16, answers: &mut [u16]) -> Result<u16, Refusal>
    ensures answers { blocked_outcome result ≡ blockers_outcome f walls.now carrier (length answers.old) }
    ensures stores { answers.new ≡ blockers_memory f walls.now carrier answers.old }
{
    request(f, walls, carrier, answers.len())?;
    find(f, walls, carrier, answers)
}
