// The sheet of document 01: the text form of a floor, read and written. Knows nothing of routes or messages.
#![tactic(auto)]

mod form;
mod lines;
mod values;

ghost use Rattle.std.specs.Prelude.{◌≡◌, length, ◌≤◌, IfOk};
ghost use Rattle.laws.specs.Verdict.{passed};
ghost use Rattle.floor.specs.Answers.{verdict_of};
ghost use Rattle.fields.specs.Reached.{said_by};
ghost use Rattle.floor.specs.Checks.{places_of};
ghost use Rattle.sheet.specs.Values.{floor_at, walls_at};
ghost use Rattle.sheet.specs.Read.{form_of, sheet_verdict, read_verdict, read_floor, read_walls, write_verdict, write_sheet};
ghost use Rattle.sheet.specs.Text.{sheet_length};

use floor::{Floor, Refusal};

// Line 1's form, then 2, then the other lines' form; the floor that a text in good form says.
fn form_of(text: &[u8]) -> Result<Floor, Refusal>
    ensures answers { said_by result ≡ form_of text.now }
    ensures returns { IfOk result (λ f. f ≡ floor_at text.now) }
{
    fields::line_form(text, 0, 6)?;
    let f = values::head(text);
    floor::limits(f)?;
    form::rest_form(text, f)?;
    Ok(values::floor(text, f))
}

// Room for the most walls that a floor can have.
pub fn no_walls() -> [u16; 1023]
    ensures { 1023 ≡ length result }
{
    [0; 1023]
}

// 3 to 17 on the floor of a text in good form, whose walls fit into the cells.
fn places_over(text: &[u8], f: Floor, cells: &mut [u16]) -> Result<(), Refusal>
    requires text_value { (form_of text.now ≡ passed) × (f ≡ floor_at text.now) }
    requires walls_in_bounds { f.walls ≤ length cells.old }
    ensures { verdict_of result ≡ places_of (floor_at text.now) (walls_at text.now) }
{
    values::walls(text, f, cells);
    floor::check(f, cells)
}

// The same in memory of its own; few walls take a small one, which is cleared sooner.
fn places_of(text: &[u8], f: Floor) -> Result<(), Refusal>
    requires { (form_of text.now ≡ passed) × (f ≡ floor_at text.now) }
    ensures { verdict_of result ≡ places_of (floor_at text.now) (walls_at text.now) }
{
    if f.walls <= 32 {
        let mut few = [0u16; 32];
        return places_over(text, f, &mut few);
    }
    let mut cells = no_walls();
    places_over(text, f, &mut cells)
}

// What a text says, and its refusals but for the last.
fn read_own(text: &[u8]) -> Result<Floor, Refusal>
    ensures answers { said_by result ≡ sheet_verdict text.now }
    ensures returns { IfOk result (λ f. f ≡ floor_at text.now) }
{
    let f = form_of(text)?;
    places_of(text, f)?;
    Ok(f)
}

// What reading a sheet into wall memory of `lent` places would answer; nothing is written.
pub fn check(text: &[u8], lent: usize) -> Result<(), Refusal>
    ensures { verdict_of result ≡ read_verdict text.now lent }
{
    let f = read_own(text)?;
    floor::check_length(f.walls as usize, lent)
}

// Reads a sheet: its floor by value, its walls into lent memory.
pub fn read(text: &[u8], walls: &mut [u16]) -> Result<Floor, Refusal>
    ensures answers { said_by result ≡ read_verdict text.now (length walls.old) }
    ensures returns { IfOk result (λ f. f ≡ read_floor text.now (length walls.old)) }
    ensures stores { walls.new ≡ read_walls text.now walls.old }
{
    let f = read_own(text)?;
    floor::check_length(f.walls as usize, walls.len())?;
    values::walls(text, f, walls);
    Ok(f)
}

// The length in bytes of a floor's sheet: 31, 16 a carrier and 10 a dock, 11 a wall. This is the needed length of sheet memory.
pub fn sheet_length(f: Floor) -> usize
    ensures { result ≡ sheet_length f }
{
    lines::walls_at(f) + 11 * f.walls as usize
}

// Writes the sheet of a floor into lent memory.
pub fn write(f: Floor, walls: &[u16], out: &mut [u8]) -> Result<(), Refusal>
    ensures answers { verdict_of result ≡ write_verdict f walls.now (length out.old) }
    ensures stores { out.new ≡ write_sheet f walls.now out.old }
{
    floor::check(f, walls)?;
    floor::check_length(sheet_length(f), out.len())?;
    lines::put_sheet(f, walls, out);
    Ok(())
}
