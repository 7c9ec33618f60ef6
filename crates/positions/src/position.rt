// Lines and columns of a text, counted from 1, and the position of a refusal in words.
ghost use Rattle.std.specs.Prelude.{◌≡◌, suc, ◌+◌, ◌-◌, ◌*◌, ◌≤◌, length, get_or};
ghost use Rattle.reporting.specs.Put.{PutAt};
ghost use Rattle.positions.specs.Position.{line_of_refusal, column_of_refusal, position_text};
ghost use Rattle.positions.specs.Inner.{Follows, StandsIn};

use reporting::put_bytes;

// A byte of a text; 0 past its end.
pub fn byte_at(text: &[u8], at: usize) -> u8
    ensures { result ≡ get_or text.now at 0 }
{
    *text.get(at).unwrap_or(&0)
}

// A line and a column of a text.
#[derive(Clone, Copy)]
pub struct LineColumn {
    pub line: usize,
    pub column: usize,
}

// The line and the column behind a byte.
fn behind(before: LineColumn, byte: u8) -> LineColumn
    requires { (before.line ≤ 65536) × (before.column ≤ 65536) }
    ensures { Follows byte before result }
{
    if byte == b'\n' {
        return LineColumn {
            line: before.line + 1,
            column: 1,
        };
    }
    LineColumn {
        line: before.line,
        column: before.column + 1,
    }
}

// The line and the column in which a byte of a text stands.
pub fn position_at(text: &[u8], at: usize) -> LineColumn
    requires { at ≤ 65535 }
    ensures { StandsIn text.now at result }
{
    let mut position = LineColumn { line: 1, column: 1 };
    for k in 0..at {
        position = behind(position, byte_at(text, k));
    }
    position
}

// The line of a refusal. Kept by its number, here and below, and not by a `floor::Reason`: it is told for every number, as it was.
pub fn line_of(text: &[u8], number: u16, place: usize) -> usize
    requires { place ≤ 65535 }
    ensures { (result ≡ line_of_refusal text.now number place) × (result ≤ 65536) }
{
    match number {
        1 => position_at(text, place).line,
        2 => 1,
        _ => place + 1,
    }
}

// The first column of a field of line 1, counted from 1.
fn field_column(field: usize) -> usize
    requires { field ≤ 65535 }
    ensures { (result ≡ 5 * (field - 1) + 1) × (result ≤ 400000) }
{
    5 * field.saturating_sub(1) + 1
}

// The column of a refusal; of 3, 5 and 17 that of the field of the item's line that is the cause.
pub fn column_of(text: &[u8], number: u16, place: usize, field: usize) -> usize
    requires { (place ≤ 65535) × (field ≤ 10) }
    ensures { (result ≡ column_of_refusal text.now number place field) × (result ≤ 400000) }
{
    match number {
        1 => position_at(text, place).column,
        2 => field_column(place),
        4 | 6 => 1,
        _ => 5 * field + 1,
    }
}

// Puts the words of a position in front of a memory; their length is returned.
pub fn put_position(line: usize, column: usize, out: &mut [u8]) -> usize
    requires { (line ≤ 400000) × (column ≤ 400000) × (26 ≤ length out.old) }
    ensures { PutAt (position_text line column) out.old 0 out.new result }
{
    let n1 = put_bytes(out, 0, b"line ");
    let n2 = wording::put_decimal(out, n1, line as u32);
    let n3 = put_bytes(out, n2, b", column ");
    let n4 = wording::put_decimal(out, n3, column as u32);
    put_bytes(out, n4, b": ")
}
