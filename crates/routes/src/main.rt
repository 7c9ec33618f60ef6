// The program `routes` (document 01, 'The sheet'): a sheet from standard input, its printed routes to standard output, and nothing
// else; of a refused sheet the line of its refusal. A failure of either is said on standard error.
#![tactic(auto)]

ghost use Rattle.std.specs.Prelude.{◌≡◌, take, IfSome};
ghost use Rattle.std.specs.Io.KnownBytes.{Appends};
ghost use Rattle.io.specs.Counts.{IsPrefixLen};
ghost use Rattle.console.specs.Moved.{OnWritten};
ghost use Rattle.printing.specs.Print.{routes_of};

use console::{Failed, Names};
use std::io::{Read, Write};

// The length of the longest printed text: 11 bytes, and 331 for each of eight carriers.
const TEXT_LENGTH: usize = 2659;

// What the program, its input and its output are called.
const ROUTES: Names<'static> = Names {
    program: b"routes: ",
    input: b"routes: standard input",
    output: b"routes: standard output",
};

// Prints the routes of any text that is a sheet, and of any other the line of its refusal; the number of printed bytes is returned.
fn print(text: &[u8], out: &mut [u8; TEXT_LENGTH]) -> usize
    ensures counts { IsPrefixLen result out.new }
    ensures prints { take result out.new ≡ routes_of text.now }
{
    printing::routes(text, out).unwrap_or(0)
}

// Prints the routes of the sheet that the input has, or the line of its refusal; a failure of input or output is said. The longest sheet
// has 11,732 bytes; of a longer input the first 65,536 bytes hold the first extra byte.
fn run<R: Read, W: Write, E: Write>(
    reader: &mut R,
    writer: &mut W,
    errors: &mut E,
) -> Result<(), Failed>
    ensures { OnWritten result (IfSome (R.remaining reader.old)
        (λ xs. Appends (W.contents writer.old) (W.contents writer.new) (routes_of (take 65536 xs)))) }
{
    let mut room = [0u8; TEXT_LENGTH];
    let out = &mut room;
    console::through(reader, writer, errors, ROUTES, move |text| {
        let n = print(text, out);
        Ok(&out[..n])
    })
}

fn main(rt: HostRuntime) {
    let _ = run(&mut rt.stdin(), &mut rt.stdout(), &mut rt.stderr());
}
