// A floor drawn beat by beat, for the command `desk draw`, as text over fixed arrays: its map, when each carrier arrives, and the floor
// at each beat with its carriers; of a refused sheet the line of the refusal.
#![tactic(auto)]

mod cells;
mod lines;
mod scene;

ghost use Rattle.std.specs.Prelude.{◌≡◌, ◌+◌, ◌≤◌, ◌<◌, ◌++◌, ◌∷◌, [], length, take};
ghost use Rattle.io.specs.Counts.{IsPrefixLen};
ghost use Rattle.laws.specs.Verdict.{passed};
ghost use Rattle.floor.specs.Checks.{check_of};
ghost use Rattle.records.specs.Records.{answer_in};
ghost use Rattle.sheet.specs.Text.{lines_of};
ghost use Rattle.printing.specs.Put.{TextPut};
ghost use Rattle.reporting.specs.Put.{PutAt};
ghost use Rattle.frames.specs.Text.{frame_of, draw_head, floor_text, floor_beat, draw_text, beat_text};

use floor::Floor;
use reporting::put_bytes;
use scene::Scene;

// Room for every text: a map, an empty line, eight lines of 46 bytes, and for 64 beats an empty line, a line of 8 bytes and 32 rows of 33.
pub const TEXT_LENGTH: usize = 89061;

// Room for the text of one beat.
pub const BEAT_LENGTH: usize = 1064;

// Room for a text.
pub fn no_text() -> [u8; TEXT_LENGTH]
    ensures { 89061 ≡ length result }
{
    [0; TEXT_LENGTH]
}

// Puts the head of the text: the map, an empty line, a line a carrier; the column behind it is returned.
fn put_head(scene: &Scene, out: &mut [u8]) -> usize
    requires { 20901 ≤ length out.old }
    ensures { PutAt (draw_head scene.now.floor scene.now.walls.now (answer_in scene.now.own.now)) out.old 0
        out.new result }
{
    let n1 = maps::put_map(scene.floor, scene.walls, out, 0);
    let n2 = put_bytes(out, n1, b"\n");
    lines::put_arrivals(scene.floor, scene.own, out, n2)
}

// Puts an empty line and the floor at a beat; the column behind them is returned.
fn put_next(scene: &Scene, t: usize, out: &mut [u8], at: usize) -> usize
    requires { (t ≤ 63) × (at + 1065 ≤ length out.old) }
    ensures { PutAt ((10 ∷ []) ++ frame_of scene.now.floor scene.now.walls.now (answer_in scene.now.own.now) t)
        out.old at out.new result }
{
    let n1 = put_bytes(out, at, b"\n");
    lines::put_frame(scene, t, out, n1)
}

// Puts the beats from 0 to the horizon; the column behind them is returned.
fn put_beats(scene: &Scene, out: &mut [u8], at: usize) -> usize
    requires { at + 68160 ≤ length out.old }
    ensures { PutAt (lines_of (λ t. (10 ∷ []) ++ frame_of scene.now.floor scene.now.walls.now (answer_in scene.now.own.now) t)
        (scene.now.floor.horizon + 1))
        out.old at out.new result }
{
    let n = scene.floor.horizon as usize + 1;
    let mut end = at;
    for t in 0..n {
        end = put_next(scene, t, out, end);
    }
    end
}

// Puts the whole text for a checked floor; its length is returned.
fn put_whole(f: Floor, walls: &[u16], out: &mut [u8]) -> usize
    requires { (check_of f walls.now ≡ passed) × (89061 ≤ length out.old) }
    ensures { TextPut (floor_text f walls.now) out.old out.new result }
{
    let own = blockers::plan_own(f, walls);
    let scene = Scene {
        floor: f,
        walls,
        own: &own,
    };
    let n1 = put_head(&scene, out);
    put_beats(&scene, out, n1)
}

// Puts the text of beat t for a checked floor, nothing if it is above the horizon; its length is returned.
fn put_beat(f: Floor, walls: &[u16], t: u16, out: &mut [u8]) -> usize
    requires { (check_of f walls.now ≡ passed) × (1064 ≤ length out.old) }
    ensures { TextPut (floor_beat t f walls.now) out.old out.new result }
{
    if f.horizon < t {
        return 0;
    }
    let own = blockers::plan_own(f, walls);
    let scene = Scene {
        floor: f,
        walls,
        own: &own,
    };
    lines::put_frame(&scene, t as usize, out, 0)
}

// Kept, alike in form with `stranded::print`: each contract names its own text.
// Prints the map, the arrivals and all beats of any text that is a sheet, and of any other text the line of its refusal; the number of
// printed bytes is returned.
pub fn print(text: &[u8], out: &mut [u8; TEXT_LENGTH]) -> usize
    ensures counts { IsPrefixLen result out.new }
    ensures prints { take result out.new ≡ draw_text text.now }
{
    let mut walls = sheet::no_walls();
    match sheet::read(text, &mut walls) {
        Ok(f) => {
            let k = f.walls as usize;
            put_whole(f, &walls[..k], out)
        }
        Err(x) => printing::put_refusal(x.number(), x.place, out),
    }
}

// Prints beat t of any text that is a sheet, nothing if it is above the horizon, and of any other text the line of its refusal; the number
// of printed bytes is returned.
pub fn print_beat(text: &[u8], t: u16, out: &mut [u8; BEAT_LENGTH]) -> usize
    ensures counts { IsPrefixLen result out.new }
    ensures prints { take result out.new ≡ beat_text text.now t }
{
    let mut walls = sheet::no_walls();
    match sheet::read(text, &mut walls) {
        Ok(f) => {
            let k = f.walls as usize;
            put_beat(f, &walls[..k], t, out)
        }
        Err(x) => printing::put_refusal(x.number(), x.place, out),
    }
}
