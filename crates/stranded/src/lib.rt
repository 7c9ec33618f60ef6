// Who shuts the stranded carriers of a floor in (document 02, slip 8), as text over fixed arrays: a line a stranded carrier, and the floor
// with them at their starts; of a refused sheet the line of the refusal. For the program `desk`.
#![tactic(auto)]

mod lines;

ghost use Rattle.std.specs.Prelude.{◌≡◌, ◌+◌, ◌*◌, ◌≤◌, ◌<◌, length, take};
ghost use Rattle.io.specs.Counts.{IsPrefixLen};
ghost use Rattle.laws.specs.Verdict.{passed};
ghost use Rattle.floor.specs.Checks.{check_of};
ghost use Rattle.sheet.specs.Text.{lines_of};
ghost use Rattle.printing.specs.Put.{TextPut};
ghost use Rattle.reporting.specs.Put.{PutAt};
ghost use Rattle.blockers.specs.Inner.{PlanIn};
ghost use Rattle.stranded.specs.Text.{carrier_text, or_nobody, stranded_text, blockers_text};
ghost use Rattle.stranded.specs.Inner.{stranded_cell, places_in};

use drawing::Places;
use floor::Floor;
use records::{SIZE, TEAM};
use reporting::put_bytes;

// The length of the longest text: eight lines of 45 bytes, and 32 rows of 33.
pub const TEXT_LENGTH: usize = 1416;

// An accepted floor, its walls, and the answers of its carriers as they lie in memory.
#[derive(Clone, Copy)]
struct Plan<'a> {
    floor: Floor,
    walls: &'a [u16],
    own: &'a [u16; TEAM],
    ghost accepted: { check_of floor walls.now ≡ passed },
    ghost planned: { PlanIn floor walls.now own.now },
}

// Puts the line of the carrier with i above it, if it has no route; the column behind it is returned.
fn put_carrier(plan: &Plan, i: u16, out: &mut [u8], at: usize) -> usize
    requires { (i < plan.now.floor.carriers) × (at + 45 ≤ length out.old) }
    ensures { PutAt (carrier_text plan.now.floor plan.now.walls.now i) out.old at out.new result }
{
    let tag = SIZE * i as usize;
    // Kept: a record's tag is a number in the memory that C reads; 2 is that of a route.
    if plan.own[tag] == 2 {
        return at;
    }
    let set = blockers::set_for(plan.floor, plan.walls, *plan.own, i);
    lines::put_shut(i as usize, set, out, at)
}

// Puts the lines of all stranded carriers; the column behind them is returned.
fn put_carriers(plan: &Plan, out: &mut [u8]) -> usize
    requires { 360 ≤ length out.old }
    ensures { PutAt (lines_of (carrier_text plan.now.floor plan.now.walls.now) plan.now.floor.carriers) out.old 0
        out.new result }
{
    let n = plan.floor.carriers;
    let mut at: usize = 0;
    for i in 0..n {
        at = put_carrier(plan, i, out, at);
    }
    at
}

// Puts these lines, or that nobody is stranded; the column behind them is returned.
fn put_lines(plan: &Plan, out: &mut [u8]) -> usize
    requires { 360 ≤ length out.old }
    ensures { PutAt (or_nobody (lines_of (carrier_text plan.now.floor plan.now.walls.now) plan.now.floor.carriers))
        out.old 0 out.new result }
{
    let n = put_carriers(plan, out);
    if n == 0 {
        return put_bytes(out, 0, b"no carrier is stranded\n");
    }
    n
}

// The start of carrier k + 1 if it has no route, otherwise nowhere.
fn place(f: Floor, own: [u16; TEAM], k: usize) -> u16
    requires { (k < 8) × (length own ≡ 520) }
    ensures { result ≡ stranded_cell f own k }
{
    // Kept: a record's tag is a number in the memory that C reads; 2 is that of a route.
    if own[SIZE * k] == 2 {
        return 65535;
    }
    f.starts[k]
}

// The starts of the carriers without a route, the others nowhere.
fn places(f: Floor, own: [u16; TEAM]) -> Places
    requires { (f.carriers ≤ 8) × (length own ≡ 520) }
    ensures { result ≡ places_in f own f.carriers }
{
    let n = f.carriers as usize;
    let mut places = [65535u16; 8];
    for k in 0..n {
        places[k] = place(f, own, k);
    }
    places
}

// Puts the text for a checked floor; its length is returned.
fn put_stranded(f: Floor, walls: &[u16], out: &mut [u8]) -> usize
    requires { (check_of f walls.now ≡ passed) × (1416 ≤ length out.old) }
    ensures { TextPut (stranded_text f walls.now) out.old out.new result }
{
    let own = blockers::plan_own(f, walls);
    let plan = Plan {
        floor: f,
        walls,
        own: &own,
    };
    let n = put_lines(&plan, out);
    n + drawing::put_floor(f, walls, places(f, own), &mut out[n..])
}

// Prints who shuts the stranded carriers in of any text that is a sheet, and of any other text the line of its refusal; the number of
// printed bytes is returned.
pub fn print(text: &[u8], out: &mut [u8; TEXT_LENGTH]) -> usize
    ensures counts { IsPrefixLen result out.new }
    ensures prints { take result out.new ≡ blockers_text text.now }
{
    let mut walls = sheet::no_walls();
    match sheet::read(text, &mut walls) {
        Ok(f) => {
            let k = f.walls as usize;
            put_stranded(f, &walls[..k], out)
        }
        Err(x) => printing::put_refusal(x.number(), x.place, out),
    }
}
