// A map of a floor, read: any bytes in, the sheet of its floor out, or a refusal in words with line and column. For the program `desk`.
#![tactic(auto)]

mod build;
mod letters;
mod line;
mod problems;
mod rows;
mod tokens;
mod words;

ghost use Rattle.std.specs.Prelude.{length, ◌≤◌, ◌≡◌};
ghost use Rattle.io.specs.Counts.{IsPrefixLen};
ghost use Rattle.map_reader.specs.Told.{CarriersFrom, ToldIn, SheetOrNothing};
ghost use Rattle.map_reader.specs.Inner.{RowsIn, ToldOf};

use build::Cells;
use floor::Floor;
use letters::LETTERS;
use problems::Problem;
use rows::Shape;
use tokens::Head;
pub use words::WORDS;
use words::put_words;

// The length of the longest sheet.
pub const SHEET_LENGTH: usize = 11732;

// The cells of the largest floor.
const CELLS: usize = 1024;

// What is printed for a map.
// Kept: the clause `tells` of `print`, which docs/CLAIMS.md names, speaks of the sheet's length, 0 with a refusal.
#[derive(Clone, Copy)]
pub struct PrintedMap {
    // The length of the sheet; 0 with a refusal.
    pub sheet: usize,
    // The length of the refusal in words, a line; 0 with a sheet.
    pub words: usize,
}

// Room for a sheet.
pub fn no_sheet() -> [u8; SHEET_LENGTH]
    ensures { 11732 ≡ length result }
{
    [0; SHEET_LENGTH]
}

// Room for a mark a cell.
fn no_marks() -> [u8; CELLS]
    ensures { 1024 ≡ length result }
{
    [0; CELLS]
}

// Room for a wall a cell.
fn no_walls() -> [u16; CELLS]
    ensures { 1024 ≡ length result }
{
    [0; CELLS]
}

// Room for what the capital letters stand for.
fn no_letters() -> [u8; LETTERS]
    ensures { 442 ≡ length result }
{
    [0; LETTERS]
}

// The floor of a map, with its walls counted and not yet placed.
fn floor_of(head: Head, shape: Shape, cells: &Cells, carriers: u16, walls: u16) -> Floor
    requires { (shape.width ≤ 32) × (shape.height ≤ 32) }
    ensures sizes { (result.width ≡ shape.width) × (result.height ≡ shape.height) }
    ensures carriers { CarriersFrom cells.now.marks.now cells.now.table.now (length cells.now.marks.now) result }
{
    Floor {
        width: shape.width as u16,
        height: shape.height as u16,
        horizon: head.horizon,
        depth: head.depth,
        carriers,
        walls,
        starts: cells.starts(),
        counts: cells.counts(),
        docks: cells.docks(),
    }
}

// Writes the sheet of a floor; its length is answered.
fn write_sheet(f: Floor, walls: &[u16], out: &mut [u8]) -> Result<usize, Problem>
    ensures { ToldOf f walls.now out.new result }
{
    sheet::write(f, walls, out)?;
    Ok(sheet::sheet_length(f))
}

// Writes the sheet of a map whose rows and letters were read; its length is answered.
fn write_map(
    text: &[u8],
    head: Head,
    shape: Shape,
    cells: &Cells,
    carriers: u16,
    out: &mut [u8],
) -> Result<usize, Problem>
    requires { RowsIn text.now cells.now.marks.now shape }
    ensures { ToldIn text.now out.new result }
{
    let mut walls = no_walls();
    let k = build::put_walls(cells.marks, &mut walls);
    let f = floor_of(head, shape, cells, carriers, k as u16);
    write_sheet(f, &walls[..k], out)
}

// Reads what stands behind the rows, and writes the sheet; its length is answered.
fn read_rest(
    text: &[u8],
    head: Head,
    shape: Shape,
    marks: &[u8],
    out: &mut [u8],
) -> Result<usize, Problem>
    requires { RowsIn text.now marks.now shape }
    ensures { ToldIn text.now out.new result }
{
    let mut table = no_letters();
    letters::read_letters(text, shape.next, shape.height as u16 + 2, marks, &mut table)?;
    let cells = Cells {
        marks,
        table: &table,
    };
    if let Some(c) = cells.lineless() {
        return Err(Problem::NoLine {
            line: (c / shape.width) as u16 + 2,
            column: (c % shape.width) as u16 + 1,
            byte: marks[c],
        });
    }
    let carriers = cells.carriers();
    if carriers == 0 {
        return Err(Problem::NoCarrier);
    }
    cells.check_carriers(carriers)?;
    write_map(text, head, shape, &cells, carriers, out)
}

// Reads a map, and writes the sheet of its floor into lent memory; its length is answered.
fn read(text: &[u8], out: &mut [u8; SHEET_LENGTH]) -> Result<usize, Problem>
    ensures { ToldIn text.now out.new result }
{
    let head = tokens::read_head(text)?;
    let mut marks = no_marks();
    let shape = rows::read_rows(text, head.next, &mut marks)?;
    read_rest(text, head, shape, &marks[..shape.cells], out)
}

// Prints the sheet of a map into one lent memory, or what is wrong with the map in words into another.
pub fn print(text: &[u8], out: &mut [u8; SHEET_LENGTH], words: &mut [u8; WORDS]) -> PrintedMap
    ensures sheet { IsPrefixLen result.sheet out.new }
    ensures words { IsPrefixLen result.words words.new }
    ensures tells { SheetOrNothing text.now out.new result.sheet }
{
    match read(text, out) {
        Ok(sheet) => PrintedMap { sheet, words: 0 },
        Err(x) => PrintedMap {
            sheet: 0,
            words: put_words(x, words),
        },
    }
}
