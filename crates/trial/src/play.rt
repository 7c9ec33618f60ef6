// The trial's loop: steps are taken in an order until none is open.
ghost use Rattle.std.specs.Prelude.{◌≡◌, ◌+◌, ◌*◌, ◌<◌, ◌≤◌, [], ◌∷◌, ◌++◌, length, drop};
ghost use Rattle.laws.specs.Verdict.{passed};
ghost use Rattle.laws.specs.Memory.{put};
ghost use Rattle.floor.specs.Checks.{check_of};
ghost use Rattle.reference.specs.State.{fresh};
ghost use Rattle.reference.specs.Quiescent.{ceiling};
ghost use Rattle.encoding.specs.Places.{state_size};
ghost use Rattle.encoding.specs.Encode.{encode};
ghost use Rattle.encoding.specs.Calls.{with_state};
ghost use Rattle.steps.specs.Inner.{Workable};
ghost use Rattle.orders.specs.Orders.{round, places};
ghost use Rattle.trial.specs.Report.{report_numbers, report_size};
ghost use Rattle.trial.specs.Entry.{order_meant};
ghost use Rattle.trial.specs.Inner.{open_count, Advanced, trial_by, room_verdict};

use crate::choice::Order;
use floor::Floor;
use search::Rows;
use state::State;

// The ceiling for n carriers; 0 where there are none.
pub fn most_steps(n: usize) -> usize
    ensures { (1 ≤ n → n ≤ 8 → result ≡ ceiling n) × (result ≤ 512) }
{
    machine::ceiling(n).unwrap_or(0)
}

// Line t of the report.
#[tactic(auto, using(state::proofs::CountLaws::put_two))]
fn write_line(report: &mut [u16], t: usize, number: u16, answer: u16)
    requires { (t < 512) × (2 * t + 2 ≤ length report.old) }
    ensures { report.new ≡ put report.old (2 * t) (number ∷ (answer ∷ [])) }
{
    let at = 2 * t;
    report[at] = number;
    report[at + 1] = answer;
}

// Takes the step that the order takes, and reports it as line t; what the order remembers then.
fn advance(
    f: Floor,
    walls: &[u16],
    free: Rows,
    order: Order,
    kept: u32,
    candidates: usize,
    t: usize,
    m: &mut [u16],
    report: &mut [u16],
) -> u32
    requires candidates_value { (candidates ≡ open_count f m.old (places f.carriers)) × (0 < candidates) }
    requires kept_bound { order_meant order ≡ round → kept ≤ places f.carriers }
    requires workable { Workable f walls.now free m.old }
    requires t_bound { (t < 512) × (2 * t + 2 ≤ length report.old) }
    ensures { Advanced (order_meant order) f walls.now m.old report.old kept t result
        m.new report.new }
{
    let now = State {
        floor: f,
        memory: m,
    };
    let p = crate::choice::choose(&now, order, kept, candidates);
    let s = crate::places::step_at(f.carriers as usize, p);
    let number = crate::places::number_of(f, s);
    let taken = steps::take(f, walls, free, m, s);
    write_line(report, t, number, crate::places::answer_number(taken));
    crate::choice::next(order, kept, p)
}

// Takes steps in the order until none is open; the number taken.
fn take_all(
    f: Floor,
    walls: &[u16],
    free: Rows,
    order: Order,
    seed: u32,
    m: &mut [u16],
    report: &mut [u16],
) -> usize
    requires walls_value { check_of f walls.now ≡ passed }
    requires workable { Workable f walls.now free m.old }
    requires m_value { m.old ≡ encode f.carriers fresh ++ drop (state_size f.carriers) m.old }
    requires carriers_in_bounds { report_size f.carriers ≤ length report.old }
    ensures answers { result ≡ length (trial_by f walls.now (order_meant order) seed).report }
    ensures stores { m.new ≡
        encode f.carriers (trial_by f walls.now (order_meant order) seed).state ++ drop (state_size f.carriers) m.old }
    ensures reports { report.new ≡
        put report.old 0 (report_numbers (trial_by f walls.now (order_meant order) seed).report) }
{
    let all = crate::places::count(f.carriers as usize);
    let most = most_steps(f.carriers as usize);
    let mut c = crate::choice::start(order, seed);
    for t in 0..most {
        let now = State {
            floor: f,
            memory: m,
        };
        let candidates = crate::choice::count_open(&now, all);
        if candidates == 0 {
            return t;
        }
        c = advance(f, walls, free, order, c, candidates, t, m, report);
    }
    most
}

// Plays the trial of a checked floor in checked memory; the number of steps taken.
pub fn play(
    f: Floor,
    walls: &[u16],
    order: Order,
    seed: u32,
    m: &mut [u16],
    report: &mut [u16],
) -> usize
    requires { room_verdict f walls.now (length m.old) (length report.old) ≡ passed }
    ensures answers { result ≡ length (trial_by f walls.now (order_meant order) seed).report }
    ensures stores { m.new ≡ with_state f m.old (trial_by f walls.now (order_meant order) seed).state }
    ensures reports { report.new ≡
        put report.old 0 (report_numbers (trial_by f walls.now (order_meant order) seed).report) }
{
    state::write_fresh(m, f.carriers as usize);
    let free = search::free_rows(f, walls);
    take_all(f, walls, free, order, seed, m, report)
}
