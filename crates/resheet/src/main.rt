// Reads a sheet from standard input and writes the sheet of the floor that it read, which is the same sheet, or, of a refused one, the
// line of its refusal. A failure of either is said on standard error.
#![tactic(auto)]

ghost use Rattle.std.specs.Prelude.{◌≡◌, ◌≤◌, length, take, IfSome};
ghost use Rattle.std.specs.Io.KnownBytes.{Appends};
ghost use Rattle.io.specs.Counts.{IsPrefixLen};
ghost use Rattle.console.specs.Moved.{OnWritten};
ghost use Rattle.floor.specs.Checks.{check_of};
ghost use Rattle.laws.specs.Verdict.{passed};
ghost use Rattle.sheet.specs.Text.{sheet_of};
ghost use Rattle.sheet.specs.Read.{sheet_verdict};
ghost use Rattle.printing.specs.Print.{or_refusal};
ghost use Rattle.printing.specs.Put.{TextPut};

use console::{Failed, Names};
use floor::Floor;
use std::io::{Read, Write};

// The length of the longest sheet: 31 bytes, 56 for each of eight carriers of four docks, 11 for each of 1,023 walls.
const SHEET_LENGTH: usize = 11732;

// What the program, its input and its output are called.
const RESHEET: Names<'static> = Names {
    program: b"resheet: ",
    input: b"resheet: standard input",
    output: b"resheet: standard output",
};

// Puts the sheet of a floor that was read, with its walls in front of `walls`; its length is returned.
fn put_sheet(f: Floor, walls: &[u16], out: &mut [u8]) -> usize
    requires walls_value { check_of f (take f.walls walls.now) ≡ passed }
    requires walls_in_bounds { f.walls ≤ length walls.now }
    requires in_bounds { 11732 ≤ length out.old }
    ensures { TextPut (sheet_of f (take f.walls walls.now)) out.old out.new result }
{
    let k = f.walls as usize;
    let _ = sheet::write(f, &walls[..k], out);
    sheet::sheet_length(f)
}

// Writes again any text that is a sheet, and of any other the line of its refusal; the number of written bytes is returned.
fn print(text: &[u8], out: &mut [u8; SHEET_LENGTH]) -> usize
    ensures counts { IsPrefixLen result out.new }
    ensures prints { take result out.new ≡ or_refusal (sheet_verdict text.now) text.now }
{
    let mut walls = sheet::no_walls();
    match sheet::read(text, &mut walls) {
        Ok(f) => put_sheet(f, &walls, out),
        Err(x) => printing::put_refusal(x.number(), x.place, out),
    }
}

// Writes the sheet that the input has again, or the line of its refusal; a failure of input or output is said. The longest sheet has
// 11,732 bytes; of a longer input the first 65,536 bytes hold the first extra byte.
fn run<R: Read, W: Write, E: Write>(
    reader: &mut R,
    writer: &mut W,
    errors: &mut E,
) -> Result<(), Failed>
    ensures { OnWritten result (IfSome (R.remaining reader.old)
        (λ xs. Appends (W.contents writer.old) (W.contents writer.new)
        (let text = take 65536 xs in or_refusal (sheet_verdict text) text))) }
{
    let mut room = [0u8; SHEET_LENGTH];
    let out = &mut room;
    console::through(reader, writer, errors, RESHEET, move |text| {
        let n = print(text, out);
        Ok(&out[..n])
    })
}

fn main(rt: HostRuntime) {
    let _ = run(&mut rt.stdin(), &mut rt.stdout(), &mut rt.stderr());
}
