// Steps of a whole set, beat after beat: each set has those cells of the free table then that are near a cell of the set before it.
ghost use Rattle.std.specs.Prelude.{◌≡◌, true, ◌+◌, ◌<◌, length, get_or};
ghost use Rattle.layers.specs.declared.SearchGrid.{SearchGrid};
ghost use Rattle.layers.specs.Table.{Grid, Tidy};
ghost use Rattle.layers.specs.Step.{beat_after, Within, Swept};

use crate::stripes::{advance, load, save};
use crate::table::{ROWS, WORDS};

// The beat after beat t, or before it.
fn next_beat(t: usize, back: bool) -> usize
    requires { (t < 64) × (back ≡ true → 0 < t) }
    ensures { result ≡ beat_after back t 1 }
{
    if back { t - 1 } else { t + 1 }
}

// n steps from the set of a beat on, to later beats or back to earlier ones.
pub fn propagate(sets: &mut [u32], table: &[u32], from: usize, n: usize, back: bool)
    requires { (length sets.old ≡ 2049) × (length table.now ≡ 2049) × (get_or table.now 2048 0 ≡ 0) × Within back from n }
    ensures { (g : SearchGrid) → Grid g → Tidy g sets.old → Tidy g table.now →
        Swept g table.now sets.old from back n sets.new }
{
    let none = table[WORDS - 1];
    let mut x = load(sets, from * ROWS);
    let mut t = from;
    for _ in 0..n {
        t = next_beat(t, back);
        let next = advance(x, load(table, t * ROWS), none);
        save(sets, t * ROWS, next);
        x = next;
    }
}
