// Refusals 3 to 6 and 17 in words, from a sheet in good form: an item is a carrier or a wall, and has a line of its own. Fields count
// from 0.
ghost use Rattle.std.specs.Prelude.{◌≤◌};

use positions::cause::{bound_of, is_column, item_start, pair_at, sharer};
use positions::sheet_line;
use wording::Text;

// Puts a wall, or the start or the dock of a carrier that a field belongs to.
fn put_item(text: &[u8], item: usize, field: usize, out: &mut Text<'_>) {
    let n = sheet_line::carriers(text);
    if n < item {
        out.fill(b"wall %", &[item - n]);
    } else if field < 2 {
        out.fill(b"carrier %'s start", &[item]);
    } else {
        out.fill(b"carrier %'s dock %", &[item, (field - 1) / 2]);
    }
}

// Puts that a field lies outside the grid.
pub fn put_outside(text: &[u8], item: usize, field: usize, out: &mut Text<'_>)
    requires { item ≤ 99999 }
{
    let value = sheet_line::field_at(text, item_start(text, item), field);
    let most = bound_of(text, field).saturating_sub(1);
    put_item(text, item, field, out);
    if is_column(field) {
        out.fill(b" has column %, outside 0 to %", &[value, most]);
    } else {
        out.fill(b" has row %, outside 0 to %", &[value, most]);
    }
}

// Puts that wall j, whose line begins at a column, does not come behind the one before it, whose line begins at another.
fn put_walls(text: &[u8], j: usize, start: usize, before: usize, out: &mut Text<'_>)
    requires { 1 ≤ j }
{
    let (column, row) = pair_at(text, start, 0);
    let (first, second) = pair_at(text, before, 0);
    if column == first && row == second {
        out.fill(b"wall % is wall % again", &[j, j - 1]);
    } else {
        out.fill(
            b"wall % (column %, row %) must come before wall % (column %, row %)",
            &[j, column, row, j - 1, first, second],
        );
    }
}

// Puts that a wall does not come behind the one before it.
pub fn put_order(text: &[u8], item: usize, out: &mut Text<'_>)
    requires { item ≤ 99999 }
{
    let n = sheet_line::carriers(text);
    if n < item {
        let start = item_start(text, item);
        let before = item_start(text, item - 1);
        put_walls(text, item - n, start, before, out);
    }
}

// Puts that a start or a dock is a wall.
pub fn put_on_wall(text: &[u8], item: usize, field: usize, out: &mut Text<'_>)
    requires { (item ≤ 99999) × (field ≤ 10) }
{
    let (column, row) = pair_at(text, item_start(text, item), field);
    put_item(text, item, field, out);
    out.fill(b" (column %, row %) is a wall", &[column, row]);
}

// Puts that a carrier starts where an earlier one does.
pub fn put_shared(text: &[u8], item: usize, out: &mut Text<'_>)
    requires { item ≤ 99999 }
{
    let start = item_start(text, item);
    let (column, row) = pair_at(text, start, 0);
    out.fill(
        b"carrier % starts where carrier % starts (column %, row %)",
        &[item, sharer(text, start), column, row],
    );
}

// Puts that a carrier has a dock twice.
pub fn put_twice(text: &[u8], item: usize, field: usize, out: &mut Text<'_>)
    requires { (item ≤ 99999) × (field ≤ 10) }
{
    let (column, row) = pair_at(text, item_start(text, item), field);
    out.fill(
        b"carrier % has the dock column %, row % twice",
        &[item, column, row],
    );
}
