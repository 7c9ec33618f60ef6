// The texts of the desk's commands over sheets and maps of any bytes, by a script on standard input. A section is a line `@`, a command,
// its numbers and the length of a sheet, then the sheet and a newline; the line is written again, and behind it what the command prints for
// the sheet. What must come out is the file `stdout`, made by an independent implementation (`paper tryouts < stdin`,
// host/src/bin/paper.rs).
//
//     @ why 73            why a sheet of 73 bytes is refused
//     @ picture 73        its picture
//     @ meeting 1 2 73    where carriers 1 and 2 meet
//     @ blockers 73       who shuts the stranded carriers in
//     @ draw 73           the floor beat by beat
//     @ at 3 73           the floor at beat 3
//     @ sheet 73          the sheet of a map of 73 bytes, or what is wrong with it
#![tactic(auto)]

ghost use Rattle.std.specs.Prelude.{◌≡◌, length};

use console::Failed;
use std::convert::AsSlice;
use std::io::{Result, Write};
use testkit::{fields, memory, show};

// Room for the script: twice a large buffer.
fn script_room() -> [u8; 131072]
    ensures { 131072 ≡ length result }
{
    [0; 131072]
}

// Has a text printed into memory, by a function that answers how long it is, and writes it.
fn show_printed<W: Write, B: AsSlice<u8> + Drop, P: FnOnce(&mut B) -> usize>(
    writer: &mut W,
    mut room: B,
    print: P,
) -> Result<()>
    requires { P.IsAlwaysCallable print }
{
    let n = print(&mut room);
    show::text(writer, memory::part(room.as_slice(), 0, n))
}

// Prints the sheet of a map, or what is wrong with it.
fn read_map<W: Write>(writer: &mut W, map: &[u8]) -> Result<()> {
    let mut out = map_reader::no_sheet();
    let mut words = [0u8; map_reader::WORDS];
    let printed = map_reader::print(map, &mut out, &mut words);
    show::text(writer, &out[..printed.sheet])?;
    show::text(writer, &words[..printed.words])
}

// The place of a section's length among its numbers: behind the two carriers of `meeting` and the beat of `at`.
fn length_place(text: &[u8]) -> usize {
    match memory::at(text, 2) {
        b'm' => 2,
        b'a' => 1,
        _ => 0,
    }
}

// Prints what the command of a section, by its first letter, prints for a sheet.
fn run<W: Write>(writer: &mut W, text: &[u8], sheet: &[u8]) -> Result<()> {
    let number = |k: usize| memory::narrow(fields::field(text, k));
    match memory::at(text, 2) {
        b'w' => show_printed(writer, [0; reasons::TEXT_LENGTH], |out| {
            reasons::print(sheet, out)
        }),
        b'p' => show_printed(writer, io::large_buffer(), |out| picture::print(sheet, out)),
        b'm' => show_printed(writer, [0; meeting::TEXT_LENGTH], |out| {
            meeting::print(sheet, number(0), number(1), out)
        }),
        b'b' => show_printed(writer, [0; stranded::TEXT_LENGTH], |out| {
            stranded::print(sheet, out)
        }),
        b'd' => show_printed(writer, frames::no_text(), |out| frames::print(sheet, out)),
        b'a' => show_printed(writer, [0; frames::BEAT_LENGTH], |out| {
            frames::print_beat(sheet, number(0), out)
        }),
        b's' => read_map(writer, sheet),
        _ => Ok(()),
    }
}

// Plays the section at the front of a script; its length is returned.
fn section<W: Write>(writer: &mut W, script: &[u8]) -> Result<usize> {
    let end = memory::plus(fields::end(script), 1);
    let n = fields::field(script, length_place(script));
    show::text(writer, memory::part(script, 0, end))?;
    run(writer, script, memory::part(script, end, n))?;
    Ok(memory::plus(memory::plus(end, n), 1))
}

// Plays the sections of a script, of which there are fewer than 1,000.
fn play<W: Write>(writer: &mut W, script: &[u8]) -> Result<()> {
    let mut rest = script;
    for _ in 0..1000 {
        if rest.is_empty() {
            break;
        }
        let n = section(writer, rest)?;
        rest = rest.get(n..).unwrap_or(&[]);
    }
    Ok(())
}

fn main(rt: HostRuntime) -> Result<()> {
    let mut space = script_room();
    match console::read(
        &mut rt.stdin(),
        &mut rt.stderr(),
        b"tryouts: standard input",
        &mut space,
    ) {
        Ok(n) => play(&mut rt.stdout(), &space[..n]),
        Err(Failed) => Ok(()),
    }
}
