// Refusal 1 in words, for a sheet that ends early.
ghost use Rattle.std.specs.Prelude.{◌≡◌, ◌≤◌, length};

use positions::position::LineColumn;
use positions::{position, sheet_line};
use wording::Text;

// Puts how many things of `counted` are there, by a sentence for one that is counted and one for several.
fn put_missing(one: &[u8], several: &[u8], counted: usize, there: usize, out: &mut Text<'_>)
    ensures same_memory { out.new.bytes.ghost_name ≡ out.old.bytes.ghost_name }
    ensures same_length { length out.new.bytes.now ≡ length out.old.bytes.now }
{
    out.put_count(counted, one, several);
    out.put_count(there, b"1 is there\n", b"% are there\n");
}

// Puts the position of the end. A line without a byte has no column.
fn put_where(end: LineColumn, out: &mut Text<'_>)
    ensures same_memory { out.new.bytes.ghost_name ≡ out.old.bytes.ghost_name }
    ensures same_length { length out.new.bytes.now ≡ length out.old.bytes.now }
{
    if end.column == 1 {
        out.fill(b"the sheet ends in line %: ", &[end.line]);
    } else {
        out.fill(
            b"the sheet ends in line %, column %: ",
            &[end.line, end.column],
        );
    }
}

// Puts what is missing behind a number of whole lines and a number of bytes.
fn put_rest(text: &[u8], lines: usize, bytes: usize, out: &mut Text<'_>)
    ensures same_memory { out.new.bytes.ghost_name ≡ out.old.bytes.ghost_name }
    ensures same_length { length out.new.bytes.now ≡ length out.old.bytes.now }
{
    let n = sheet_line::carriers(text);
    if lines < 1 {
        put_missing(b"", b"line 1 has % fields, ", 6, bytes / 5, out);
    } else if lines <= n {
        put_missing(
            b"line 1 counts 1 carrier, ",
            b"line 1 counts % carriers, ",
            n,
            lines - 1,
            out,
        );
    } else {
        put_missing(
            b"line 1 counts 1 wall, ",
            b"line 1 counts % walls, ",
            sheet_line::walls(text),
            lines - 1 - n,
            out,
        );
    }
}

// Puts what is missing where a sheet ends.
fn put_lack(text: &[u8], end: usize, out: &mut Text<'_>)
    requires { end ≤ 65535 }
    ensures same_memory { out.new.bytes.ghost_name ≡ out.old.bytes.ghost_name }
    ensures same_length { length out.new.bytes.now ≡ length out.old.bytes.now }
{
    let walk = sheet_line::whole_lines(text, end);
    let bytes = end - walk.start;
    let count = sheet_line::fields_of(text, walk.lines + 1, walk.start);
    if bytes == 5 * count {
        out.fill(b"a newline is missing after field %\n", &[count]);
    } else {
        put_rest(text, walk.lines, bytes, out);
    }
}

// Puts where a sheet ends early and what is missing.
pub fn put_end(text: &[u8], end: usize, out: &mut Text<'_>)
    requires { end ≤ 65535 }
    ensures same_memory { out.new.bytes.ghost_name ≡ out.old.bytes.ghost_name }
    ensures same_length { length out.new.bytes.now ≡ length out.old.bytes.now }
{
    if end == 0 {
        out.put(b"the sheet is empty\n");
    } else {
        put_where(position::position_at(text, end), out);
        put_lack(text, end, out);
    }
}
