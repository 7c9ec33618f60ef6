// Where the best routes of two carriers, each against nobody, meet (document 02, slips 7 and 9), as text over fixed arrays: one line, and
// the floor at that beat; of a refused sheet, or a carrier that is not there, the line of the refusal. For the program `desk`.
#![tactic(auto)]

ghost use Rattle.std.specs.Prelude.{◌≡◌, ◌+◌, ◌≤◌, ◌<◌, length, take};
ghost use Rattle.io.specs.Counts.{IsPrefixLen};
ghost use Rattle.laws.specs.Verdict.{passed, demand};
ghost use Rattle.floor.specs.Answers.{verdict_of};
ghost use Rattle.floor.specs.Checks.{check_of, within};
ghost use Rattle.route.specs.Route.{cell_at, route};
ghost use Rattle.route.specs.ConflictTest.{conflict_told};
ghost use Rattle.search.specs.Answers.{answer_of};
ghost use Rattle.printing.specs.Put.{TextPut};
ghost use Rattle.reporting.specs.Put.{PutAt};
ghost use Rattle.drawing.specs.Drawing.{drawn_floor};
ghost use Rattle.meeting.specs.Text.{alone_of, pair_verdict, number_line, conflict_line, no_route_line};
ghost use Rattle.meeting.specs.Text.{two_places, conflict_drawing, met_text, pair_text, meeting_text, Early};

use drawing::Places;
use floor::{Floor, Refusal};
use reporting::{put_bytes, put_short_decimal};
use route::{Conflict, Route};

// The length of the longest text: a line of 31 bytes, and 32 rows of 33.
pub const TEXT_LENGTH: usize = 1087;

// Refusal 7, 0 for a carrier that is not there, of two.
fn pair_listed(f: Floor, i: u16, j: u16) -> Result<(), Refusal>
    ensures { verdict_of result ≡ pair_verdict f i j }
{
    search::listed(f, i)?;
    search::listed(f, j)
}

// The best route of a carrier of an accepted floor against nobody, if it has one.
fn alone(f: Floor, walls: &[u16], i: u16) -> Option<Route>
    requires { (check_of f walls.now ≡ passed) × (demand (within 1 f.carriers i) 7 0 ≡ passed) }
    ensures { answer_of result ≡ alone_of f walls.now i }
{
    search::search(f, walls, i, &records::blank()).unwrap()
}

// Two carriers of an accepted floor, and their routes.
#[derive(Clone, Copy)]
struct Pair<'a> {
    floor: Floor,
    walls: &'a [u16],
    i: u16,
    j: u16,
    r: Route,
    q: Route,
    ghost accepted: { check_of floor walls.now ≡ passed },
    ghost listed: { pair_verdict floor i j ≡ passed },
}

// Puts words, a number and words behind it in front of a memory; the length of all is returned.
fn put_line(words: &[u8], n: usize, end: &[u8], out: &mut [u8]) -> usize
    requires { (n < 100) × (length words.now + 2 + length end.now ≤ length out.old) }
    ensures { PutAt (number_line words.now n end.now) out.old 0 out.new result }
{
    let at = put_bytes(out, 0, words);
    let behind = put_short_decimal(out, at, n);
    put_bytes(out, behind, end)
}

// Puts the line of a first conflict; its length is returned.
fn put_conflict(found: Option<Conflict>, out: &mut [u8]) -> usize
    requires { Early (conflict_told found) × (31 ≤ length out.old) }
    ensures { PutAt (conflict_line (conflict_told found)) out.old 0 out.new result }
{
    match found {
        None => put_bytes(out, 0, b"free\n"),
        Some(Conflict::SameCell(t)) => put_line(b"same cell at beat ", t, b"\n", out),
        Some(Conflict::ChangeOfPlaces(t)) => put_line(
            b"change of places after beat ",
            t,
            b"\n",
            out,
        ),
        Some(Conflict::Following(t)) => put_line(b"following after beat ", t, b"\n", out),
    }
}

// The cells of two of eight carriers, the others nowhere.
fn two_places(i: u16, c: u16, j: u16, d: u16) -> Places
    requires { (1 ≤ i) × (i ≤ 8) × (1 ≤ j) × (j ≤ 8) }
    ensures { result ≡ two_places i c j d }
{
    let mut places = [65535u16; 8];
    places[i as usize - 1] = c;
    places[j as usize - 1] = d;
    places
}

// Puts the floor with two carriers at a beat of their routes; the length of the drawing is returned.
fn put_beat(pair: &Pair, t: usize, out: &mut [u8]) -> usize
    requires { (t ≤ 63) × (1056 ≤ length out.old) }
    ensures { TextPut (drawn_floor pair.now.floor pair.now.walls.now
        (two_places pair.now.i (cell_at pair.now.r t) pair.now.j (cell_at pair.now.q t))) out.old out.new result }
{
    let places = two_places(pair.i, pair.r[t], pair.j, pair.q[t]);
    drawing::put_floor(pair.floor, pair.walls, places, out)
}

// Puts the floor at the beat of a first conflict; the length of the drawing is returned, 0 where there is no conflict.
fn put_drawing(pair: &Pair, found: Option<Conflict>, out: &mut [u8]) -> usize
    requires early { Early (conflict_told found) × (1056 ≤ length out.old) }
    ensures { TextPut (conflict_drawing pair.now.floor pair.now.walls.now pair.now.i pair.now.j pair.now.r pair.now.q
        (conflict_told found)) out.old out.new result }
{
    match found {
        None => 0,
        Some(Conflict::SameCell(t)) => put_beat(pair, t, out),
        Some(Conflict::ChangeOfPlaces(t)) => put_beat(pair, t, out),
        Some(Conflict::Following(t)) => put_beat(pair, t, out),
    }
}

// Puts the line of the first conflict of two routes and, behind it, the floor at its beat; the length of both is returned.
fn put_met(pair: &Pair, out: &mut [u8]) -> usize
    requires { 1087 ≤ length out.old }
    ensures { TextPut (met_text pair.now.floor pair.now.walls.now pair.now.i pair.now.j (route pair.now.r) (route pair.now.q))
        out.old out.new result }
{
    let found = route::first_conflict(pair.r, pair.q, pair.floor.horizon);
    let n = put_conflict(found, out);
    n + put_drawing(pair, found, &mut out[n..])
}

// Puts the line of a carrier without a route; its length is returned.
fn put_none(i: u16, out: &mut [u8]) -> usize
    requires { (i ≤ 8) × (31 ≤ length out.old) }
    ensures { TextPut (no_route_line i) out.old out.new result }
{
    put_line(b"carrier ", i as usize, b" has no route\n", out)
}

// Puts what the best routes of two carriers of an accepted floor, each against nobody, come to; the length of the text is returned.
fn put_meeting(f: Floor, walls: &[u16], i: u16, j: u16, out: &mut [u8]) -> usize
    requires { (check_of f walls.now ≡ passed) × (pair_verdict f i j ≡ passed) × (1087 ≤ length out.old) }
    ensures { TextPut (met_text f walls.now i j (alone_of f walls.now i) (alone_of f walls.now j))
        out.old out.new result }
{
    let Some(r) = alone(f, walls, i) else {
        return put_none(i, out);
    };
    let Some(q) = alone(f, walls, j) else {
        return put_none(j, out);
    };
    let pair = Pair {
        floor: f,
        walls,
        i,
        j,
        r,
        q,
    };
    put_met(&pair, out)
}

// Puts the meeting of two carriers of a floor that was read, with its walls in front of `walls`; its length is returned.
fn put_pair(f: Floor, walls: &[u16], i: u16, j: u16, out: &mut [u8]) -> usize
    requires walls_value { check_of f (take f.walls walls.now) ≡ passed }
    requires walls_in_bounds { (f.walls ≤ length walls.now) × (1087 ≤ length out.old) }
    ensures { TextPut (pair_text f (take f.walls walls.now) i j) out.old out.new result }
{
    match pair_listed(f, i, j) {
        Ok(()) => put_meeting(f, &walls[..f.walls as usize], i, j, out),
        Err(x) => printing::put_refusal(x.number(), x.place, out),
    }
}

// Prints the meeting of two carriers of any text that is a sheet, and of any other text or carrier the line of its refusal; the number
// of printed bytes is returned.
pub fn print(text: &[u8], i: u16, j: u16, out: &mut [u8; TEXT_LENGTH]) -> usize
    ensures counts { IsPrefixLen result out.new }
    ensures prints { take result out.new ≡ meeting_text text.now i j }
{
    let mut walls = sheet::no_walls();
    match sheet::read(text, &mut walls) {
        Ok(f) => put_pair(f, &walls, i, j, out),
        Err(x) => printing::put_refusal(x.number(), x.place, out),
    }
}
