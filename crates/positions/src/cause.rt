// The field that is the cause of a refusal 3, 5 or 17, found in a sheet in good form: an item is a carrier or a wall, and has a line of its
// own. Pair 0 of a carrier's line is its start, pair k its dock k; the pair of a wall's line is 0. Fields count from 0.
ghost use Rattle.std.specs.Prelude.{◌≡◌, ◌+◌, ◌*◌, ◌≤◌, length};
ghost use Rattle.fields.specs.Field.{number_at};

use crate::sheet_line;

// The column at which the line of an item begins.
pub fn item_start(text: &[u8], item: usize) -> usize
    requires { item ≤ 99999 }
{
    sheet_line::line_start(text, item + 1)
}

// The first field of a pair.
fn pair_field(pair: usize) -> usize
    requires { pair ≤ 4 }
    ensures { result ≤ 9 }
{
    if pair == 0 { 0 } else { 2 * pair + 1 }
}

// Whether a field, which is no count, has a column; otherwise it has a row.
pub fn is_column(field: usize) -> bool {
    field == 0 || 2 < field && field % 2 == 1
}

// The number of columns or of rows, by what a field has.
pub fn bound_of(text: &[u8], field: usize) -> usize {
    sheet_line::number_at(text, if is_column(field) { 0 } else { 5 })
}

// Whether a field of the line that begins at a column lies outside the grid.
fn is_outside(text: &[u8], start: usize, field: usize) -> bool {
    field != 2 && bound_of(text, field) <= sheet_line::field_at(text, start, field)
}

// The first field of a line that lies outside the grid.
fn outside_field(text: &[u8], start: usize) -> usize
    ensures { result ≤ 10 }
{
    (0..11)
        .find(|field| is_outside(text, start, *field))
        .unwrap_or(0)
}

// The pair at a field of the line that begins at a column: the column and the row of a cell.
pub fn pair_at(text: &[u8], start: usize, field: usize) -> (usize, usize)
    requires { field ≤ 10 }
    ensures column { start ≤ 65536 → start + 5 * field + 5 ≤ length text.now → result.0 ≡ number_at text.now (start + 5 * field) }
    ensures row { start ≤ 65536 → start + 5 * (field + 1) + 5 ≤ length text.now → result.1 ≡ number_at text.now (start + 5 * (field + 1)) }
{
    (
        sheet_line::field_at(text, start, field),
        sheet_line::field_at(text, start, field + 1),
    )
}

// Whether a pair is that of one of k walls, the first of which has its line at a column.
fn is_wall(text: &[u8], start: usize, field: usize, base: usize, k: usize) -> bool
    requires { field ≤ 10 }
{
    let pair = pair_at(text, start, field);
    (0..k).any(|j| pair_at(text, sheet_line::wall_start(base, j), 0) == pair)
}

// The first field of the first pair of a line that is a wall.
fn wall_field(text: &[u8], start: usize) -> usize
    ensures { result ≤ 10 }
{
    let base = sheet_line::line_start(text, sheet_line::carriers(text) + 2);
    let n = sheet_line::walls(text);
    (0..5)
        .map(pair_field)
        .find(|field| is_wall(text, start, *field, base, n))
        .unwrap_or(0)
}

// Whether dock k of a line stands before in its list.
fn is_repeated(text: &[u8], start: usize, k: usize) -> bool
    requires { k ≤ 4 }
{
    let dock = pair_at(text, start, pair_field(k));
    (1..k).any(|pair| pair_at(text, start, pair_field(pair)) == dock)
}

// The first field of the first dock of a line that stands before in its list.
fn repeated_field(text: &[u8], start: usize) -> usize
    ensures { result ≤ 10 }
{
    for k in 2..5 {
        if is_repeated(text, start, k) {
            return pair_field(k);
        }
    }
    0
}

// The field of an item's line that is the cause of a refusal. Kept by its number, as in `position`.
pub fn cause(text: &[u8], number: u16, item: usize) -> usize
    requires { item ≤ 99999 }
    ensures { result ≤ 10 }
{
    let start = item_start(text, item);
    match number {
        3 => outside_field(text, start),
        5 => wall_field(text, start),
        17 => repeated_field(text, start),
        _ => 0,
    }
}

// The carrier with the start of an item's line.
pub fn sharer(text: &[u8], start: usize) -> usize {
    let n = sheet_line::carriers(text);
    let cell = pair_at(text, start, 0);
    (1..n)
        .find(|i| pair_at(text, item_start(text, *i), 0) == cell)
        .unwrap_or(n)
}
