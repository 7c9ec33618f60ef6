// The rows of a map: their marks into lent memory.
ghost use Rattle.std.specs.Prelude.{◌+◌, ◌≤◌, ◌<◌, length};
ghost use Rattle.map_reader.specs.Inner.{RowRead, ShapeRead};

use crate::line::Line;
use crate::problems::Problem;
use crate::tokens;

// The rows that were read.
#[derive(Clone, Copy)]
pub struct Shape {
    pub width: usize,
    pub height: usize,
    pub cells: usize,
    pub next: usize,
}

// Copies the w marks of a line to a base; the column behind their newline is answered.
fn copy_row(line: &Line, w: usize, base: usize, marks: &mut [u8]) -> Result<usize, Problem>
    requires { (w ≤ 32) × (line.now.at + w < length line.now.text.now) × (base + w ≤ length marks.old) }
    ensures { RowRead line.now.text.now line.now.at w marks.old base marks.new result }
{
    let row = &line.text[line.at..line.at + w];
    for (k, &byte) in row.iter().enumerate() {
        if !tokens::is_mark(byte) {
            return Err(Problem::NoMark {
                line: line.number,
                column: k as u16 + 1,
                byte,
            });
        }
    }
    marks[base..base + w].copy_from_slice(row);
    Ok(line.at + w + 1)
}

// Reads a row, which must have w cells; the column behind its newline is answered.
fn read_row(line: &Line, w: usize, base: usize, marks: &mut [u8]) -> Result<usize, Problem>
    requires { (w ≤ 32) × (base + 32 ≤ length marks.old) }
    ensures { RowRead line.now.text.now line.now.at w marks.old base marks.new result }
{
    let end = line.end();
    let n = end - line.at;
    let number = line.number;
    if n > 32 {
        return Err(Problem::Wide { line: number });
    }
    if end == line.text.len() {
        return Err(Problem::Unended { line: number });
    }
    if n == 0 {
        return Err(Problem::Empty { line: number });
    }
    if n != w {
        return Err(Problem::Uneven {
            line: number,
            cells: n as u16,
            width: w as u16,
        });
    }
    copy_row(line, w, base, marks)
}

// Reads rows of w cells from a column on, to the first line of a letter or the end.
fn rows_from(text: &[u8], first: usize, w: usize, marks: &mut [u8]) -> Result<Shape, Problem>
    requires { (1 ≤ w) × (w ≤ 32) × (first ≤ length text.now) × (1024 ≤ length marks.old) }
    ensures { ShapeRead text.now first marks.old marks.new result }
{
    let mut at = first;
    let mut height: usize = 0;
    let mut cells: usize = 0;
    // Kept: the loop goes from line to line, and a `for` over the rows would end in two places.
    while at < text.len() {
        let line = Line {
            text,
            at,
            number: height as u16 + 2,
        };
        if line.is_letters() {
            break;
        }
        if height == 32 {
            return Err(Problem::ManyRows);
        }
        at = read_row(&line, w, cells, marks)?;
        cells += w;
        height += 1;
    }
    Ok(Shape {
        width: w,
        height,
        cells,
        next: at,
    })
}

// Reads the rows from a column on, of which there must be one.
pub fn read_rows(text: &[u8], first: usize, marks: &mut [u8]) -> Result<Shape, Problem>
    requires { (first ≤ length text.now) × (1024 ≤ length marks.old) }
    ensures { ShapeRead text.now first marks.old marks.new result }
{
    if first == text.len() {
        return Err(Problem::NoRow);
    }
    let line = Line {
        text,
        at: first,
        number: 2,
    };
    if line.is_letters() {
        return Err(Problem::NoRow);
    }
    match line.end() - first {
        0 => Err(Problem::Empty { line: 2 }),
        33 => Err(Problem::Wide { line: 2 }),
        w => rows_from(text, first, w, marks),
    }
}
