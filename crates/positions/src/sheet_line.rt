// The lines of a sheet and their fields, found by its newlines. Line 1 has six fields, a carrier's line three and two a dock, a wall's two.
ghost use Rattle.std.specs.Prelude.{◌≡◌, ◌+◌, ◌*◌, ◌≤◌, ◌<◌, length};
ghost use Rattle.fields.specs.Field.{number_at};

// The number of the field at a column of a text; 0 where the text is too short.
pub fn number_at(text: &[u8], at: usize) -> usize
    ensures { at + 5 ≤ length text.now → result ≡ number_at text.now at }
{
    if 5 <= text.len() && at <= text.len() - 5 {
        fields::number(text, at) as usize
    } else {
        0
    }
}

// The column of a text at which a line, counted from 1, begins; the text's end where it has no such line.
pub fn line_start(text: &[u8], line: usize) -> usize
    ensures { result ≤ length text.now }
{
    let mut left = line;
    for (k, &byte) in text.iter().enumerate() {
        if left <= 1 {
            return k;
        }
        if byte == b'\n' {
            left -= 1;
        }
    }
    text.len()
}

// The number in field k, counted from 0, of the line that begins at a column.
pub fn field_at(text: &[u8], start: usize, k: usize) -> usize
    ensures { start ≤ 65536 → k ≤ 16 → start + 5 * k + 5 ≤ length text.now → result ≡ number_at text.now (start + 5 * k) }
{
    if start <= 65536 && k <= 16 {
        number_at(text, start + 5 * k)
    } else {
        0
    }
}

// The column at which the line of wall j, counted from 0, begins, where that of wall 0 is given.
pub fn wall_start(start: usize, j: usize) -> usize {
    if start <= 65536 && j <= 1023 {
        start + 11 * j
    } else {
        start
    }
}

// The carriers and the walls that line 1 counts.
pub fn carriers(text: &[u8]) -> usize
    ensures { result ≤ 99999 }
{
    counted(number_at(text, 20))
}

pub fn walls(text: &[u8]) -> usize
    ensures { result ≤ 99999 }
{
    counted(number_at(text, 25))
}

// A number of five digits.
fn counted(n: usize) -> usize
    ensures { result ≤ 99999 }
{
    n.min(99999)
}

// The number of fields of a line that begins at a column; 0 past the last line.
pub fn fields_of(text: &[u8], line: usize, start: usize) -> usize
    ensures { result ≤ 200001 }
{
    let n = carriers(text);
    if line == 1 {
        6
    } else if line <= n + 1 {
        3 + 2 * counted(field_at(text, start, 2))
    } else if line <= n + walls(text) + 1 {
        2
    } else {
        0
    }
}

// The lines of a sheet that are whole, and the column behind them.
#[derive(Clone, Copy)]
pub struct Walk {
    pub lines: usize,
    pub start: usize,
}

// The column behind the line, counted from 1, that begins at a column.
fn line_end(text: &[u8], line: usize, start: usize) -> usize
    requires { start ≤ 65535 }
    ensures { start < result }
{
    start + 5 * fields_of(text, line, start) + 1
}

// The lines of a sheet before its first wrong byte that are whole, where it ends at a column: each has its fields and its newline.
pub fn whole_lines(text: &[u8], end: usize) -> Walk
    requires { end ≤ 65535 }
    ensures { (result.start ≤ end) × (result.lines ≤ result.start) }
{
    let mut start: usize = 0;
    for lines in 0..65536 {
        let next = line_end(text, lines + 1, start);
        if end < next {
            return Walk { lines, start };
        }
        start = next;
    }
    Walk {
        lines: 65536,
        start,
    }
}
