// The mark of a cell at a beat.
ghost use Rattle.std.specs.Prelude.{◌≡◌, cond, eqb, ◌+◌, ◌*◌, ◌≤◌, ◌<◌, length};
ghost use Rattle.laws.specs.Verdict.{passed};
ghost use Rattle.floor.specs.Checks.{check_of};
ghost use Rattle.records.specs.Records.{answer_in};
ghost use Rattle.route.specs.Route.{none};
ghost use Rattle.reporting.specs.Put.{PutAt};
ghost use Rattle.maps.specs.Text.{marks_text};
ghost use Rattle.maps.specs.Map.{start_marks};
ghost use Rattle.frames.specs.Text.{still_mark, present_of, present_in, frame_mark};

use crate::scene::Scene;
use floor::Floor;
use records::SIZE;
use reporting::put_bytes;

// What a cell without a dock shows: a start, or nothing.
fn start_mark(f: Floor, c: u16) -> u8
    requires { f.carriers ≤ 8 }
    ensures { result ≡ cond (eqb (length (start_marks f c)) 0) 46 45 }
{
    let mut starts = [0u8; 8];
    if maps::put_starts(f, c, &mut starts, 0) == 0 {
        return b'.';
    }
    b'-'
}

// What cell c shows where no carrier is.
fn still_mark(f: Floor, walls: &[u16], c: u16) -> u8
    requires { check_of f walls.now ≡ passed }
    ensures { result ≡ still_mark f walls.now c }
{
    if maps::is_among(walls, f.walls as usize, c) {
        return b'#';
    }
    let mut docks = [0u8; 8];
    let n = maps::put_docks(f, c, &mut docks, 0);
    match n {
        0 => start_mark(f, c),
        1 => docks[0],
        _ => b'+',
    }
}

// Puts what the carrier with i above it puts into cell c at beat t; the column behind it is returned.
fn put_carrier(
    f: Floor,
    own: &[u16],
    t: usize,
    c: u16,
    i: usize,
    out: &mut [u8],
    at: usize,
) -> usize
    requires { (length own.now ≡ 520) × (i < 8) × (t ≤ 63) × (at + 1 ≤ length out.old) }
    ensures { PutAt (present_of f t c i (answer_in own.now i)) out.old at out.new result }
{
    let tag = SIZE * i;
    // Kept: a record's tag is a number in the memory that C reads; 2 is that of a route.
    if own[tag] != 2 {
        return put_stranded(f, c, i, out, at);
    }
    if own[tag + 1 + t] == c {
        return put_bytes(out, at, &[b'1' + i as u8]);
    }
    at
}

// Puts the capital letter of the carrier with i above it if it starts in cell c; the column behind it is returned.
fn put_stranded(f: Floor, c: u16, i: usize, out: &mut [u8], at: usize) -> usize
    requires { (i < 8) × (at + 1 ≤ length out.old) }
    ensures { PutAt (present_of f 0 c i none) out.old at out.new result }
{
    if f.starts[i] == c {
        return put_bytes(out, at, &[b'A' + i as u8]);
    }
    at
}

// Puts all carriers in cell c at beat t; the column behind them is returned.
fn put_carriers(f: Floor, own: &[u16], t: usize, c: u16, out: &mut [u8]) -> usize
    requires { (f.carriers ≤ 8) × (length own.now ≡ 520) × (t ≤ 63) × (8 ≤ length out.old) }
    ensures { PutAt (present_in f (answer_in own.now) t c) out.old 0 out.new result }
{
    let n = f.carriers as usize;
    let mut end: usize = 0;
    for i in 0..n {
        end = put_carrier(f, own, t, c, i, out, end);
    }
    end
}

// The mark of cell c at beat t.
fn frame_mark(scene: &Scene, t: usize, c: u16) -> u8
    requires { t ≤ 63 }
    ensures { result ≡ frame_mark scene.now.floor scene.now.walls.now (answer_in scene.now.own.now) t c }
{
    let mut there = [0u8; 8];
    let n = put_carriers(scene.floor, scene.own, t, c, &mut there);
    match n {
        0 => still_mark(scene.floor, scene.walls, c),
        1 => there[0],
        _ => b'*',
    }
}

// Puts the marks of all cells at beat t.
pub fn put_cells(scene: &Scene, t: usize, out: &mut [u8]) -> usize
    requires { (t ≤ 63) × (1024 ≤ length out.old) }
    ensures { PutAt (marks_text (frame_mark scene.now.floor scene.now.walls.now (answer_in scene.now.own.now) t) 1024)
        out.old 0 out.new result }
{
    let mut at: usize = 0;
    for c in 0..1024 {
        at = put_bytes(out, at, &[frame_mark(scene, t, c)]);
    }
    at
}
