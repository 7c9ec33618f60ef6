// Records as they are seen (document 02, slip 2): a carrier that has told none stays at its start, for those below it.
ghost use Rattle.std.specs.Prelude.{◌≡◌, ◌+◌, ◌*◌, ◌-◌, ◌≤◌, ◌<◌, ◌++◌, length, replicate};
ghost use Rattle.laws.specs.Memory.{put};
ghost use Rattle.records.specs.Records.{records};
ghost use Rattle.records.specs.Seen.{seen, seen_record};

use crate::{CELLS, SIZE, load, store};
use floor::Floor;
use route::Route;

// The numbers of a record for each carrier.
pub const TEAM: usize = SIZE * Floor::MAX_CARRIERS as usize;

// A record for each carrier, nothing heard.
pub fn blank() -> [u16; TEAM]
    ensures { result ≡ replicate 520 0 }
{
    [0u16; TEAM]
}

// The route that stays in a cell through the last beat.
fn parked(cell: u16, last: usize) -> Route
    requires { last ≤ 63 }
    ensures { result ≡ replicate (last + 1) cell ++ replicate (63 - last) 0 }
{
    let mut cells: Route = [0u16; CELLS];
    cells[..=last].fill(cell);
    cells
}

// Stores record j of a memory as it is seen.
pub fn store_seen(f: Floor, m: &[u16], j: usize, shown: &mut [u16])
    requires { (j < 8) × (f.horizon ≤ 63) × (65 * j + 65 ≤ length m.now) × (65 * j + 65 ≤ length shown.old) }
    ensures { shown.new ≡ put shown.old (65 * j) (seen_record f j m.now) }
{
    let at = SIZE * j;
    let tag = m[at];
    if tag == 1 {
        store(shown, at, 2, parked(f.starts[j], f.horizon as usize));
        return;
    }
    store(shown, at, tag, load(m, at + 1));
}

// The first k records of a memory as they are seen.
pub fn seen_records(f: Floor, m: &[u16], k: usize) -> [u16; TEAM]
    requires { (k ≤ 8) × (f.horizon ≤ 63) × (65 * k ≤ length m.now) }
    ensures { (length result ≡ 520) × (records result k ≡ seen f (records m.now k)) }
{
    let mut shown = blank();
    for j in 0..k {
        store_seen(f, m, j, &mut shown);
    }
    shown
}
