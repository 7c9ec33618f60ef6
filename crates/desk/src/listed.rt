// The complete runs of a floor as text: the total on a line, then a line a run, its rank and the numbers of its steps, separated by
// single spaces. The contracts bound the lengths; what is printed is tested.
ghost use Rattle.std.specs.Prelude.{◌+◌, ◌≤◌, ◌<◌, length};

use crate::texts::DESK;
use console::Failed;
use floor::{Floor, Refusal};
use lister::{LINE, Listed};
use reporting::put_bytes;
use std::io::{IsTerminal, Read, Write};

// The lines that are listed at a time.
const LINES: usize = 2048;

// The most steps of a run.
const STEPS: usize = 11;

// The most bytes of a line: a number of 20 digits, then a space and such a number for each step, and a newline.
const TEXT: usize = 252;

// Writes the first n bytes of a text to standard output.
fn write_front<W: Write, E: Write>(
    writer: &mut W,
    errors: &mut E,
    text: &[u8],
    n: usize,
) -> Result<(), Failed> {
    let front = text.get(..n).ok_or(Failed)?;
    console::write(writer, errors, DESK.output, front)
}

// Puts a number in decimal digits from a column on; the column behind it is returned.
fn put_number(out: &mut [u8], at: usize, n: u64) -> usize
    requires { at + 20 ≤ length out.old }
    ensures { result ≤ at + 20 }
{
    let mut digits = [0u8; 20];
    let k = io::decimal(n, &mut digits);
    put_bytes(out, at, &digits[..k])
}

// Puts a number and a newline in front of a text; its length is returned.
fn put_total(out: &mut [u8], n: u64) -> usize
    requires { 252 ≤ length out.old }
{
    let at = put_number(out, 0, n);
    out[at] = b'\n';
    at + 1
}

// The number of step k of a line.
fn step_number(line: &[u16], k: usize) -> u64
    requires { (k < 11) × (23 ≤ length line.now) }
{
    u64::from(line[2 * k + 1])
}

// Puts the text of a run of a rank, whose line has the number of its steps in front and then two numbers a step; its length is returned.
fn put_run(out: &mut [u8], rank: u64, line: &[u16]) -> usize
    requires { (252 ≤ length out.old) × (23 ≤ length line.now) }
{
    let steps = STEPS.min(usize::from(line[0]));
    let mut at = put_number(out, 0, rank);
    for k in 0..steps {
        out[at] = b' ';
        at = put_number(out, at + 1, step_number(line, k));
    }
    out[at] = b'\n';
    at + 1
}

// Prints the line of a refusal.
fn print_refusal<W: Write, E: Write>(
    writer: &mut W,
    errors: &mut E,
    x: Refusal,
) -> Result<(), Failed> {
    let mut out = [0u8; TEXT];
    match printing::print_refusal(x.number(), x.place, &mut out) {
        Some(n) => write_front(writer, errors, &out, n),
        None => Ok(()),
    }
}

// Prints the total.
fn print_total<W: Write, E: Write>(writer: &mut W, errors: &mut E, n: u64) -> Result<(), Failed> {
    let mut out = [0u8; TEXT];
    let k = put_total(&mut out, n);
    write_front(writer, errors, &out, k)
}

// Prints the run of a rank by its line.
fn print_run<W: Write, E: Write>(
    writer: &mut W,
    errors: &mut E,
    rank: u64,
    line: &[u16],
) -> Result<(), Failed>
    requires { 23 ≤ length line.now }
{
    let mut out = [0u8; TEXT];
    let k = put_run(&mut out, rank, line);
    write_front(writer, errors, &out, k)
}

// Says on standard error how many runs are printed, where it is a terminal. What cannot be said is left.
fn progress<E: Write + IsTerminal>(errors: &mut E, printed: u64, total: u64) {
    if errors.is_terminal() {
        let _ = writeln!(errors, "desk: {printed} of {total} runs");
    }
}

// Prints lines, the first being that of a rank.
fn print_lines<W: Write, E: Write>(
    writer: &mut W,
    errors: &mut E,
    first: u64,
    lines: &[u16],
) -> Result<(), Failed>
    requires { first ≤ 4294967296 }
{
    for (i, line) in lines.chunks_exact(LINE).enumerate() {
        print_run(writer, errors, first + i as u64, line)?;
    }
    Ok(())
}

// Prints all runs of a floor, which has that total, a window at a time.
fn print_all<W: Write, E: Write + IsTerminal>(
    writer: &mut W,
    errors: &mut E,
    f: Floor,
    walls: &[u16],
    total: u64,
) -> Result<(), Failed> {
    if total > 4294967295 {
        return Ok(());
    }
    print_total(writer, errors, total)?;
    for first in (0..total).step_by(LINES) {
        let count = (total - first).min(LINES as u64);
        let mut lines = [0u16; LINES * LINE];
        let _ = lister::runs_from(f, walls, first, &mut lines);
        print_lines(writer, errors, first, &lines[..LINE * count as usize])?;
        progress(errors, first + count, total);
    }
    Ok(())
}

// Lists all runs of a floor.
fn list_all<W: Write, E: Write + IsTerminal>(
    writer: &mut W,
    errors: &mut E,
    f: Floor,
    walls: &[u16],
) -> Result<(), Failed> {
    match lister::runs_from(f, walls, 0, &mut [0u16; 1]) {
        Ok(total) => print_all(writer, errors, f, walls, total),
        Err(x) => print_refusal(writer, errors, x),
    }
}

// Prints the total and the run of a rank, whose report has two numbers a step.
fn print_one<W: Write, E: Write>(
    writer: &mut W,
    errors: &mut E,
    listed: Listed,
    rank: u64,
    report: &[u16],
) -> Result<(), Failed>
    requires { 22 ≤ length report.now }
{
    let mut line = [0u16; LINE];
    line[0] = listed.steps;
    line[1..].copy_from_slice(&report[..LINE - 1]);
    print_total(writer, errors, listed.total)?;
    print_run(writer, errors, rank, &line)
}

// Lists the run of a rank of a floor.
fn list_one<W: Write, E: Write>(
    writer: &mut W,
    errors: &mut E,
    f: Floor,
    walls: &[u16],
    rank: u64,
) -> Result<(), Failed> {
    let mut report = [0u16; 1004];
    match lister::run_of_rank(f, walls, rank, &mut report) {
        Ok(listed) => print_one(writer, errors, listed, rank, &report),
        Err(x) => print_refusal(writer, errors, x),
    }
}

// Lists the runs of a text that is a sheet, that of a rank or all; of any other text prints the line of its refusal.
fn list_text<W: Write, E: Write + IsTerminal>(
    writer: &mut W,
    errors: &mut E,
    text: &[u8],
    rank: Option<u64>,
) -> Result<(), Failed> {
    let mut space = sheet::no_walls();
    let f = match sheet::read(text, &mut space) {
        Ok(f) => f,
        Err(x) => return print_refusal(writer, errors, x),
    };
    let walls = space.get(..usize::from(f.walls)).ok_or(Failed)?;
    match rank {
        Some(rank) => list_one(writer, errors, f, walls, rank),
        None => list_all(writer, errors, f, walls),
    }
}

// Lists the runs of the sheet from standard input, that of a rank or all.
pub fn list_input<R: Read, W: Write, E: Write + IsTerminal>(
    reader: &mut R,
    writer: &mut W,
    errors: &mut E,
    rank: Option<u64>,
) -> Result<(), Failed> {
    let mut space = io::large_buffer();
    let n = console::read(reader, errors, DESK.input, &mut space)?;
    list_text(writer, errors, &space[..n], rank)
}
