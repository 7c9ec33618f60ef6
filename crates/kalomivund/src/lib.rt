// The boundary to C and Rust: each entry of the library as an exported function over numbers and slices, none with a `requires`.
// A floor record is 54 numbers: width, height, horizon, depth, carriers, walls, eight starts, eight dock counts, thirty-two docks (four
// places a carrier). Every function answers one word: low byte 0 done or 1 refused, the next byte the case or the refusal, then the
// number or the place. Nothing is decided here: each function hands its slices to the entry of its name and packs the answer.
// Kept alike: C calls each by its name, and each has its own contract.
#![tactic(auto)]

mod answers;

ghost use Rattle.std.specs.Prelude.{◌≡◌, ◌≤◌, length};
ghost use Rattle.laws.specs.Memory.{put};
ghost use Rattle.laws.specs.Verdict.{◌gives◌, when_passed};
ghost use Rattle.floor.specs.Checks.{long_enough};
ghost use Rattle.search.specs.Search.{search_of};
ghost use Rattle.abi.specs.Word.{word_of, of_number};
ghost use Rattle.kalomivund.specs.Answers.{of_search, route_stored, figure_list};
ghost use Rattle.kalomivund.specs.Entries.{read_word, read_record, read_stored, write_word, write_stored, check_word};
ghost use Rattle.kalomivund.specs.Entries.{needed_word, needed_stored, search_word, search_stored, plan_word, plan_stored};
ghost use Rattle.kalomivund.specs.Entries.{print_word, print_stored, fresh_word, fresh_stored, step_word, step_stored};
ghost use Rattle.kalomivund.specs.Entries.{run_word, run_stored, ceiling_word};
ghost use Rattle.kalomivund.specs.Entries.{trial_word, trial_state_stored, trial_report_stored};
ghost use Rattle.kalomivund.specs.Entries.{rank_word, rank_stored};
ghost use Rattle.kalomivund.specs.Entries.{conflict_word, record_word, arrival_word};
ghost use Rattle.kalomivund.specs.Entries.{blockers_word, blockers_stored};

use abi::{numbers, word};
use floor::Floor;
use lengths::Lengths;

// The most steps for a number of carriers.
#[unsafe(no_mangle)]
pub extern "C" fn kalomivund_ceiling(carriers: u16) -> u64
    ensures { result ≡ ceiling_word carriers }
{
    answers::word(machine::ceiling(carriers as usize))
}

// Checks a floor and its walls.
#[unsafe(no_mangle)]
pub extern "C" fn kalomivund_check_floor(f: &[u16], walls: &[u16]) -> u64
    ensures { result ≡ check_word f.now walls.now }
{
    if f.len() < 54 {
        return word::too_short();
    }
    word::of_check(floor::check(numbers::floor_of(f), walls), 0)
}

// Reads a sheet: its floor record and its walls into lent memory.
#[unsafe(no_mangle)]
pub extern "C" fn kalomivund_read_sheet(text: &[u8], f: &mut [u16], walls: &mut [u16]) -> u64
    ensures says { result ≡ read_word text.now (length f.old) (length walls.old) }
    ensures records { f.new ≡ read_record text.now f.old (length walls.old) }
    ensures stores { walls.new ≡ read_stored text.now (length f.old) walls.old }
{
    if f.len() < 54 {
        return word::of_check_in_short(sheet::check(text, walls.len()));
    }
    match sheet::read(text, walls) {
        Ok(found) => {
            numbers::store(f, found);
            word::done(0, 0)
        }
        Err(r) => word::refused(r.number(), r.place),
    }
}

// Writes the sheet of a floor into lent memory.
#[unsafe(no_mangle)]
pub extern "C" fn kalomivund_write_sheet(f: &[u16], walls: &[u16], out: &mut [u8]) -> u64
    ensures says { result ≡ write_word f.now walls.now (length out.old) }
    ensures stores { out.new ≡ write_stored f.now walls.now out.old }
{
    if f.len() < 54 {
        return word::too_short();
    }
    let found = numbers::floor_of(f);
    word::of_check(sheet::write(found, walls, out), sheet::sheet_length(found))
}

// Needed lengths into lent memory of enough numbers.
fn store_lengths(lengths: Lengths, out: &mut [u64]) -> u64
    ensures says { result ≡ word_of (of_number (long_enough 9 (length out.old) gives 0)) }
    ensures stores { out.new
        ≡ when_passed (long_enough 9 (length out.old)) (put out.old 0 (figure_list lengths)) out.old }
{
    if out.len() < 9 {
        return word::too_short();
    }
    let figures = [
        lengths.walls as u64,
        lengths.sheet as u64,
        lengths.answers as u64,
        lengths.text as u64,
        lengths.state as u64,
        lengths.route as u64,
        lengths.floor as u64,
        lengths.figures as u64,
        lengths.report as u64,
    ];
    numbers::copy(out, 0, &figures);
    word::done(0, 0)
}

// The needed length of each lent buffer of a floor: walls, sheet, answers, text, state, route, floor record, figures, report.
#[unsafe(no_mangle)]
pub extern "C" fn kalomivund_needed_lengths(f: &[u16], out: &mut [u64]) -> u64
    ensures says { result ≡ needed_word f.now (length out.old) }
    ensures stores { out.new ≡ needed_stored f.now out.old }
{
    if f.len() < 54 {
        return word::too_short();
    }
    match lengths::needed_lengths(numbers::floor_of(f)) {
        Ok(lengths) => store_lengths(lengths, out),
        Err(r) => word::refused(r.number(), r.place),
    }
}

// A search with room for its route.
fn search_into(f: Floor, walls: &[u16], carrier: u16, views: &[u16], route: &mut [u16]) -> u64
    requires { 64 ≤ length route.old }
    ensures says { result ≡ word_of (of_search (search_of f walls.now carrier views.now)) }
    ensures stores { route.new
        ≡ route_stored (search_of f walls.now carrier views.now) route.old }
{
    match search::search(f, walls, carrier, views) {
        Ok(None) => {
            numbers::copy(route, 0, &[0u16; 64]);
            word::done(0, 0)
        }
        Ok(Some(cells)) => {
            numbers::copy(route, 0, &cells);
            word::done(1, 0)
        }
        Err(r) => word::refused(r.number(), r.place),
    }
}

// The best route of a carrier against what it has heard of the carriers above it, into lent memory.
#[unsafe(no_mangle)]
pub extern "C" fn kalomivund_search(
    f: &[u16],
    walls: &[u16],
    carrier: u16,
    views: &[u16],
    route: &mut [u16],
) -> u64
    ensures says { result
        ≡ search_word f.now walls.now carrier views.now (length route.old) }
    ensures stores { route.new
        ≡ search_stored f.now walls.now carrier views.now route.old }
{
    if f.len() < 54 {
        return word::too_short();
    }
    let found = numbers::floor_of(f);
    if route.len() < 64 {
        return word::of_check_in_short(floor::check(found, walls));
    }
    search_into(found, walls, carrier, views, route)
}

// Plans a floor: the answers of its carriers into lent memory.
#[unsafe(no_mangle)]
pub extern "C" fn kalomivund_plan(f: &[u16], walls: &[u16], answers: &mut [u16]) -> u64
    ensures says { result ≡ plan_word f.now walls.now (length answers.old) }
    ensures stores { answers.new ≡ plan_stored f.now walls.now answers.old }
{
    if f.len() < 54 {
        return word::too_short();
    }
    answers::word(planner::plan(numbers::floor_of(f), walls, answers))
}

// From a sheet's bytes to its printed routes, or the line of its refusal, in lent memory.
#[unsafe(no_mangle)]
pub extern "C" fn kalomivund_print_routes(text: &[u8], out: &mut [u8]) -> u64
    ensures says { result ≡ print_word text.now (length out.old) }
    ensures stores { out.new ≡ print_stored text.now out.old }
{
    answers::word(printing::routes(text, out))
}

// Puts the fresh state of a floor into lent memory.
#[unsafe(no_mangle)]
pub extern "C" fn kalomivund_fresh(f: &[u16], walls: &[u16], state: &mut [u16]) -> u64
    ensures says { result ≡ fresh_word f.now walls.now (length state.old) }
    ensures stores { state.new ≡ fresh_stored f.now walls.now state.old }
{
    if f.len() < 54 {
        return word::too_short();
    }
    word::of_check(machine::fresh(numbers::floor_of(f), walls, state), 0)
}

// Takes a single step on a lent state.
#[unsafe(no_mangle)]
pub extern "C" fn kalomivund_step(f: &[u16], walls: &[u16], state: &mut [u16], step: u16) -> u64
    ensures says { result ≡ step_word f.now walls.now state.old step }
    ensures stores { state.new ≡ step_stored f.now walls.now state.old step }
{
    if f.len() < 54 {
        return word::too_short();
    }
    answers::word(machine::step(numbers::floor_of(f), walls, state, step))
}

// Takes a run on a lent state: the open steps of a list in turn, as many as the budget allows.
#[unsafe(no_mangle)]
pub extern "C" fn kalomivund_run(
    f: &[u16],
    walls: &[u16],
    state: &mut [u16],
    steps: &[u16],
    budget: u16,
) -> u64
    ensures says { result ≡ run_word f.now walls.now state.old steps.now budget }
    ensures stores { state.new
        ≡ run_stored f.now walls.now state.old steps.now budget }
{
    if f.len() < 54 {
        return word::too_short();
    }
    answers::word(machine::run(numbers::floor_of(f), walls, state, steps, budget))
}

// Plays a whole run of a floor from fresh to silent in one of three orders, every step taken reported with its answer.
#[unsafe(no_mangle)]
pub extern "C" fn kalomivund_trial(
    f: &[u16],
    walls: &[u16],
    order: u16,
    seed: u32,
    state: &mut [u16],
    report: &mut [u16],
) -> u64
    ensures says { result ≡ trial_word f.now walls.now order seed
        (length state.old) (length report.old) }
    ensures stores { state.new ≡ trial_state_stored f.now walls.now order seed
        state.old (length report.old) }
    ensures reports { report.new ≡ trial_report_stored f.now walls.now order seed
        (length state.old) report.old }
{
    if f.len() < 54 {
        return word::too_short();
    }
    answers::word(trial::trial(numbers::floor_of(f), walls, order, seed, state, report))
}

// The complete run of a rank, from 0, of a floor of at most three carriers, and how many runs there are.
#[unsafe(no_mangle)]
pub extern "C" fn kalomivund_run_of_rank(
    f: &[u16],
    walls: &[u16],
    rank: u64,
    report: &mut [u16],
) -> u64
    ensures says { result ≡ rank_word f.now walls.now rank (length report.old) }
    ensures reports { report.new ≡ rank_stored f.now walls.now rank report.old }
{
    if f.len() < 54 {
        return word::too_short();
    }
    answers::word(lister::run_of_rank(numbers::floor_of(f), walls, rank, report))
}

// The first conflict of two lent routes of 64 cells through a horizon: free, same cell, change of places or following, with
// the beat.
#[unsafe(no_mangle)]
pub extern "C" fn kalomivund_conflict(r: &[u16], q: &[u16], horizon: u16) -> u64
    ensures { result ≡ conflict_word r.now q.now horizon }
{
    answers::word(conflict::conflict(r, q, horizon))
}

// Whether a record of 65 numbers is a route of a carrier of a floor, with its arrival; none, not heard, or what is wrong first.
#[unsafe(no_mangle)]
pub extern "C" fn kalomivund_check_record(
    f: &[u16],
    walls: &[u16],
    carrier: u16,
    told: &[u16],
) -> u64
    ensures { result ≡ record_word f.now walls.now carrier told.now }
{
    if f.len() < 54 {
        return word::too_short();
    }
    answers::word(legality::check_record(numbers::floor_of(f), walls, carrier, told))
}

// The arrival of a lent route of 64 cells through a horizon.
#[unsafe(no_mangle)]
pub extern "C" fn kalomivund_arrival(cells: &[u16], horizon: u16) -> u64
    ensures { result ≡ arrival_word cells.now horizon }
{
    answers::word(legality::arrival(cells, horizon))
}

// Who shuts a carrier in that has none in the sequential result: a bit a carrier above it, bit j − 1 being carrier j's; the sequential
// answers into lent memory.
#[unsafe(no_mangle)]
pub extern "C" fn kalomivund_blockers(
    f: &[u16],
    walls: &[u16],
    carrier: u16,
    answers: &mut [u16],
) -> u64
    ensures says { result ≡ blockers_word f.now walls.now carrier (length answers.old) }
    ensures stores { answers.new ≡ blockers_stored f.now walls.now carrier
        answers.old }
{
    if f.len() < 54 {
        return word::too_short();
    }
    answers::word(blockers::blockers(numbers::floor_of(f), walls, carrier, answers))
}
