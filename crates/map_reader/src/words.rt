// What is wrong with a map, in words.
ghost use Rattle.std.specs.Prelude.{◌+◌, ◌≤◌, ◌<◌, length};
ghost use Rattle.io.specs.Counts.{IsPrefixLen};

use crate::problems::Problem;
use reporting::put_bytes;

// Room for every refusal.
pub const WORDS: usize = 160;

// Puts a number in decimal digits; the column behind it is returned.
fn put_number(out: &mut [u8], at: usize, n: u16) -> usize
    requires { at + 20 ≤ length out.old }
    ensures { result ≤ at + 20 }
{
    let mut digits = [0u8; 20];
    let k = io::decimal(n as u64, &mut digits);
    put_bytes(out, at, &digits[..k])
}

// Puts a byte in quotes, or its number where it has no glyph; the column behind it is returned.
fn put_byte(out: &mut [u8], at: usize, b: u8) -> usize
    requires { at + 25 ≤ length out.old }
    ensures { result ≤ at + 25 }
{
    if b.is_ascii_graphic() {
        return put_bytes(out, at, &[b'\'', b, b'\'']);
    }
    let end = put_bytes(out, at, b"byte ");
    put_number(out, end, b as u16)
}

// Puts `line ` and its number; the column behind it is returned.
fn put_place(out: &mut [u8], line: u16) -> usize
    requires { 160 ≤ length out.old }
    ensures { result ≤ 25 }
{
    let at = put_bytes(out, 0, b"line ");
    put_number(out, at, line)
}

// Puts a line and the words behind it; the length is returned.
fn put_line(line: u16, words: &[u8], out: &mut [u8]) -> usize
    requires { (160 ≤ length out.old) × (length words.now ≤ 40) }
    ensures { result ≤ 150 }
{
    let at = put_place(out, line);
    put_bytes(out, at, words)
}

// Puts ` cell` or ` cells`; the column behind it is returned.
fn put_cells(n: u16, out: &mut [u8], at: usize) -> usize
    requires { at + 6 ≤ length out.old }
    ensures { result ≤ at + 6 }
{
    if n == 1 {
        return put_bytes(out, at, b" cell");
    }
    put_bytes(out, at, b" cells")
}

// Puts that a line is not as wide as line 2; the length is returned.
fn put_width(line: u16, n: u16, w: u16, out: &mut [u8]) -> usize
    requires { 160 ≤ length out.old }
    ensures { result ≤ 150 }
{
    let n1 = put_place(out, line);
    let n2 = put_bytes(out, n1, b" has ");
    let n3 = put_number(out, n2, n);
    let n4 = put_cells(n, out, n3);
    let n5 = put_bytes(out, n4, b", line 2 has ");
    put_number(out, n5, w)
}

// Puts a line, a column, the byte there and the words behind it; the length is returned.
fn put_mark(line: u16, column: u16, byte: u8, words: &[u8], out: &mut [u8]) -> usize
    requires { (160 ≤ length out.old) × (length words.now ≤ 40) }
    ensures { result ≤ 150 }
{
    let n1 = put_place(out, line);
    let n2 = put_bytes(out, n1, b", column ");
    let n3 = put_number(out, n2, column);
    let n4 = put_bytes(out, n3, b": ");
    let n5 = put_byte(out, n4, byte);
    put_bytes(out, n5, words)
}

// Puts a line, its letter and the words behind it; the length is returned.
fn put_letter(line: u16, letter: u8, words: &[u8], out: &mut [u8]) -> usize
    requires { (160 ≤ length out.old) × (length words.now ≤ 40) }
    ensures { result ≤ 150 }
{
    let n1 = put_place(out, line);
    let n2 = put_bytes(out, n1, b": ");
    let n3 = put_byte(out, n2, letter);
    put_bytes(out, n3, words)
}

// Puts a carrier and what it has; the column behind it is returned.
fn put_carrier(carrier: u16, words: &[u8], out: &mut [u8]) -> usize
    requires { (160 ≤ length out.old) × (length words.now ≤ 40) }
    ensures { result ≤ 73 }
{
    let n1 = put_bytes(out, 0, b"carrier ");
    let n2 = put_number(out, n1, carrier);
    let n3 = put_bytes(out, n2, b" has ");
    put_bytes(out, n3, words)
}

// Puts a carrier and how many it has; the length is returned.
fn put_count(carrier: u16, n: u16, words: &[u8], out: &mut [u8]) -> usize
    requires { (160 ≤ length out.old) × (length words.now ≤ 40) }
    ensures { result ≤ 150 }
{
    let n1 = put_carrier(carrier, b"", out);
    let n2 = put_number(out, n1, n);
    put_bytes(out, n2, words)
}

// Puts what is wrong, without a newline; the length is returned.
fn put_problem(x: Problem, out: &mut [u8]) -> usize
    requires { 160 ≤ length out.old }
    ensures { result ≤ 150 }
{
    match x {
        Problem::Head => put_bytes(out, 0, b"line 1 is not 'horizon H depth D'"),
        Problem::Horizon => put_bytes(out, 0, b"line 1: the horizon is not 1 to 63"),
        Problem::Depth => put_bytes(out, 0, b"line 1: the depth is not 1 to 4"),
        Problem::NoRow => put_bytes(out, 0, b"there is no row"),
        Problem::Unended { line } => put_line(line, b" has no newline at its end", out),
        Problem::Empty { line } => put_line(line, b" is empty", out),
        Problem::Wide { line } => put_line(line, b" has more than 32 cells", out),
        Problem::Uneven { line, cells, width } => put_width(line, cells, width, out),
        Problem::ManyRows => put_line(34, b": there are more than 32 rows", out),
        Problem::NoMark { line, column, byte } => put_mark(line, column, byte, b" is no mark", out),
        Problem::NoLetter { line, byte } => put_mark(line, 1, byte, b" is no letter", out),
        Problem::NoSpace { line } => put_line(line, b", column 2: a space is missing", out),
        Problem::Twice { line, column, byte } => put_mark(
            line,
            column,
            byte,
            b" stands twice",
            out,
        ),
        Problem::FewMarks { line } => put_line(line, b" has fewer than two marks", out),
        Problem::SecondLine { line, byte } => put_letter(line, byte, b" has a line already", out),
        Problem::Unused { line, byte } => put_letter(line, byte, b" is on no row", out),
        Problem::NoLine { line, column, byte } => put_mark(
            line,
            column,
            byte,
            b" has no line",
            out,
        ),
        Problem::NoCarrier => put_bytes(out, 0, b"there is no carrier"),
        Problem::NoStart { carrier } => put_carrier(carrier, b"no start", out),
        Problem::Starts { carrier, starts } => put_count(carrier, starts, b" starts", out),
        Problem::NoDock { carrier } => put_carrier(carrier, b"no dock", out),
        Problem::Docks { carrier, docks } => put_count(carrier, docks, b" docks", out),
        Problem::Floor => put_bytes(out, 0, b"the floor is refused"),
    }
}

// Puts what is wrong with a map in front of a memory, as a line; its length is returned.
pub fn put_words(x: Problem, out: &mut [u8; WORDS]) -> usize
    ensures { IsPrefixLen result out.new }
{
    let n = put_problem(x, out);
    out[n] = b'\n';
    n + 1
}
