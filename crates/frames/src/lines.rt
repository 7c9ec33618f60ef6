// The line of a carrier's arrival, and the floor at a beat.
ghost use Rattle.std.specs.Prelude.{◌≡◌, ◌+◌, ◌*◌, ◌≤◌, ◌<◌, length};
ghost use Rattle.records.specs.Records.{answer_in};
ghost use Rattle.sheet.specs.Text.{lines_of};
ghost use Rattle.reporting.specs.Put.{PutAt};
ghost use Rattle.frames.specs.Text.{arrival_words, arrival_line, frame_rows, frame_of};

use crate::cells;
use crate::scene::Scene;
use floor::Floor;
use records::SIZE;
use reporting::put_bytes;

// Puts the end of a carrier's line: its arrival, or that it stays at its start; the column behind it is returned.
fn put_words(f: Floor, own: &[u16], i: usize, out: &mut [u8], at: usize) -> usize
    requires { (length own.now ≡ 520) × (i < 8) × (f.horizon ≤ 63) × (at + 37 ≤ length out.old) }
    ensures { PutAt (arrival_words f (answer_in own.now i)) out.old at out.new result }
{
    let tag = SIZE * i;
    // Kept: a record's tag is a number in the memory that C reads; 2 is that of a route.
    if own[tag] != 2 {
        return put_bytes(out, at, b" has no route and stays at its start\n");
    }
    let cells = records::load(own, tag + 1);
    let n1 = put_bytes(out, at, b" arrives at beat ");
    let n2 = reporting::put_short_decimal(out, n1, route::arrival(cells, f.horizon) as usize);
    put_bytes(out, n2, b"\n")
}

// Puts the line of the carrier with i above it; the column behind it is returned.
fn put_arrival(f: Floor, own: &[u16], i: usize, out: &mut [u8], at: usize) -> usize
    requires { (length own.now ≡ 520) × (i < 8) × (f.horizon ≤ 63) × (at + 46 ≤ length out.old) }
    ensures { PutAt (arrival_line f (answer_in own.now) i) out.old at out.new result }
{
    let n1 = put_bytes(out, at, b"carrier ");
    let n2 = put_bytes(out, n1, &[b'1' + i as u8]);
    put_words(f, own, i, out, n2)
}

// Puts the lines of all carriers; the column behind them is returned.
pub fn put_arrivals(f: Floor, own: &[u16], out: &mut [u8], at: usize) -> usize
    requires { (length own.now ≡ 520) × (f.carriers ≤ 8) × (f.horizon ≤ 63) × (at + 368 ≤ length out.old) }
    ensures { PutAt (lines_of (arrival_line f (answer_in own.now)) f.carriers)
        out.old at out.new result }
{
    let n = f.carriers as usize;
    let mut end = at;
    for i in 0..n {
        end = put_arrival(f, own, i, out, end);
    }
    end
}

// Puts the rows of beat t; the column behind them is returned.
fn put_rows(scene: &Scene, t: usize, out: &mut [u8], at: usize) -> usize
    requires { (t ≤ 63) × (at + 1056 ≤ length out.old) }
    ensures { PutAt (frame_rows scene.now.floor scene.now.walls.now (answer_in scene.now.own.now) t) out.old at
        out.new result }
{
    let mut marks = maps::no_marks();
    cells::put_cells(scene, t, &mut marks);
    maps::put_grid(
        &marks,
        scene.floor.width as usize,
        scene.floor.height as usize,
        out,
        at,
    )
}

// Puts the line of beat t and the floor at that beat; the column behind them is returned.
pub fn put_frame(scene: &Scene, t: usize, out: &mut [u8], at: usize) -> usize
    requires { (t ≤ 63) × (at + 1064 ≤ length out.old) }
    ensures { PutAt (frame_of scene.now.floor scene.now.walls.now (answer_in scene.now.own.now) t) out.old at
        out.new result }
{
    let n1 = put_bytes(out, at, b"beat ");
    let n2 = reporting::put_short_decimal(out, n1, t);
    let n3 = put_bytes(out, n2, b"\n");
    put_rows(scene, t, out, n3)
}
