// The lines of the capital letters: what each letter stands for, into a table of 17 places a letter: 16 for `1` to `8`, `a` to `h`, and one
// that is 1 if the letter has a line.
ghost use Rattle.std.specs.Prelude.{◌≡◌, ◌+◌, ◌*◌, ◌≤◌, ◌<◌, length};
ghost use Rattle.map_reader.specs.Inner.{ReadWithin};

use crate::line::Line;
use crate::problems::Problem;
use crate::tokens;

// The places of the table.
// Kept: numbers, since `is_thing` of specs/Marks.antt, under the clause `tells` of `print`, reads the table as numbers.
pub const LETTERS: usize = 442;

// Reads the marks of a letter's line from its third byte on into 16 places, which are empty before; the column behind its newline is
// answered.
fn read_things(line: &Line, own: &mut [u8; 16]) -> Result<usize, Problem>
    requires { line.now.at + 2 ≤ length line.now.text.now }
    ensures { ReadWithin line.now.at (length line.now.text.now) result }
{
    let first = line.at + 2;
    for k in 0..17 {
        if line.text.len() - first <= k {
            return Err(Problem::Unended { line: line.number });
        }
        let byte = line.text[first + k];
        if byte == b'\n' {
            return Ok(first + k + 1);
        }
        let column = k as u16 + 3;
        let Some(thing) = tokens::thing_of(byte) else {
            return Err(Problem::NoMark {
                line: line.number,
                column,
                byte,
            });
        };
        if own[thing] == 1 {
            return Err(Problem::Twice {
                line: line.number,
                column,
                byte,
            });
        }
        own[thing] = 1;
    }
    Err(Problem::FewMarks { line: line.number })
}

// Reads the line of a letter, whose place is below 26; the column behind its newline is answered.
fn read_letter(line: &Line, letter: usize, table: &mut [u8]) -> Result<usize, Problem>
    requires { (letter < 26) × (line.now.at + 2 ≤ length line.now.text.now) × (442 ≤ length table.old) }
    ensures { ReadWithin line.now.at (length line.now.text.now) result }
{
    let base = 17 * letter;
    let mut own = [0u8; 16];
    let next = read_things(line, &mut own)?;
    if own.iter().filter(|x| **x == 1).count() < 2 {
        return Err(Problem::FewMarks { line: line.number });
    }
    if table[base + 16] == 1 {
        return Err(Problem::SecondLine {
            line: line.number,
            byte: line.text[line.at],
        });
    }
    table[base..base + 16].copy_from_slice(&own);
    table[base + 16] = 1;
    Ok(next)
}

// Reads a line, which must be that of a letter among the marks; the column behind its newline is answered.
fn read_line(line: &Line, marks: &[u8], table: &mut [u8]) -> Result<usize, Problem>
    requires { 442 ≤ length table.old }
    ensures { ReadWithin line.now.at (length line.now.text.now) result }
{
    let byte = line.text[line.at];
    let number = line.number;
    let Some(letter) = tokens::letter_of(byte) else {
        return Err(Problem::NoLetter { line: number, byte });
    };
    if line.text.len() - line.at < 2 || line.text[line.at + 1] != b' ' {
        return Err(Problem::NoSpace { line: number });
    }
    let next = read_letter(line, letter, table)?;
    if !marks.contains(&byte) {
        return Err(Problem::Unused { line: number, byte });
    }
    Ok(next)
}

// Reads the lines of letters from a column on to the end, of which the first has a number.
pub fn read_letters(
    text: &[u8],
    first: usize,
    number: u16,
    marks: &[u8],
    table: &mut [u8],
) -> Result<(), Problem>
    requires { (first ≤ length text.now) × (number ≤ 34) × (442 ≤ length table.old) }
{
    let mut at = first;
    for k in 0..27 {
        if at == text.len() {
            break;
        }
        let line = Line {
            text,
            at,
            number: number + k,
        };
        at = read_line(&line, marks, table)?;
    }
    Ok(())
}
