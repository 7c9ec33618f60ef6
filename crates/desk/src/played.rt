// The text of a trial, over fixed arrays: the report, then the printed routes; of a refused sheet or order the line of the refusal.
ghost use Rattle.std.specs.Prelude.{◌≡◌, ◌++◌, ◌≤◌, length, take};
ghost use Rattle.io.specs.Counts.{IsPrefixLen};
ghost use Rattle.laws.specs.Verdict.{passed};
ghost use Rattle.floor.specs.Checks.{check_of};
ghost use Rattle.printing.specs.Print.{print_of, or_refusal};
ghost use Rattle.printing.specs.Put.{TextPut};
ghost use Rattle.reporting.specs.Text.{report_text};
ghost use Rattle.desk.specs.Text.{order_verdict, played_text, trial_text};

use floor::Floor;

// The length of the longest text: the report of 502 steps (16 bytes, and 21 a step), the routes of eight carriers (11 bytes, and 331 a
// carrier).
pub const TEXT_LENGTH: usize = 13217;

// Puts a report and, behind it, the routes of its floor; the length of both is returned.
fn put_played(f: Floor, walls: &[u16], order: u16, report: &[u16], out: &mut [u8]) -> usize
    requires { (check_of f walls.now ≡ passed) × ((length report.now ≤ 1004) × (13217 ≤ length out.old)) }
    ensures { TextPut (report_text f.carriers order report.now ++ print_of f walls.now)
        out.old out.new result }
{
    let n = reporting::put_report(f.carriers, order, report, out);
    n + printing::put_routes(f, walls, &mut out[n..])
}

// Plays a trial of a floor that was read, with its walls in front of `walls`, and puts its text; its length is returned.
fn put_trial(f: Floor, walls: &[u16], order: u16, seed: u32, out: &mut [u8]) -> usize
    requires walls_value { check_of f (take f.walls walls.now) ≡ passed }
    requires walls_in_bounds { (f.walls ≤ length walls.now) × (13217 ≤ length out.old) }
    ensures { TextPut (or_refusal (order_verdict order) (played_text f (take f.walls walls.now) order seed))
        out.old out.new result }
{
    let k = f.walls as usize;
    let mut state = [0; 9666];
    let mut report = [0; 1004];
    match trial::trial(f, &walls[..k], order, seed, &mut state, &mut report) {
        Ok(t) => put_played(f, &walls[..k], order, &report[..2 * t], out),
        Err(x) => printing::put_refusal(x.number(), x.place, out),
    }
}

// Prints the trial of any text that is a sheet, in an order, with a seed, and of any other text or order the line of its refusal; the
// number of printed bytes is returned.
pub fn print(text: &[u8], order: u16, seed: u32, out: &mut [u8; TEXT_LENGTH]) -> usize
    ensures counts { IsPrefixLen result out.new }
    ensures prints { take result out.new ≡ trial_text text.now order seed }
{
    let mut walls = sheet::no_walls();
    match sheet::read(text, &mut walls) {
        Ok(f) => put_trial(f, &walls, order, seed, out),
        Err(x) => printing::put_refusal(x.number(), x.place, out),
    }
}
