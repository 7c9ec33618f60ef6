// What the commands but `runs` print, for the sheet or the map on standard input. The longest sheet has 11,732 bytes; of a longer input
// the first 65,536 bytes hold the first extra byte.
// Kept alike: what they share is `console::through`; each has its own contract, text and room.
ghost use Rattle.std.specs.Prelude.{◌≡◌, ℕ, take, IfSome};
ghost use Rattle.std.specs.Io.KnownBytes.{Appends};
ghost use Rattle.laws.specs.Verdict.{refused};
ghost use Rattle.sheet.specs.Read.{sheet_verdict};
ghost use Rattle.reasons.specs.Told.{Explains};
ghost use Rattle.console.specs.Moved.{OnWritten, PutSome};
ghost use Rattle.meeting.specs.Text.{meeting_text};
ghost use Rattle.stranded.specs.Text.{blockers_text};
ghost use Rattle.frames.specs.Text.{beat_text, draw_text};
ghost use Rattle.map_reader.specs.Told.{SheetOrNothing};
ghost use Rattle.desk.specs.Text.{trial_text};

use crate::played;
use console::{Failed, Names, through};
use std::io::{Read, Write};

// What the program, its input and its output are called.
pub const DESK: Names<'static> = Names {
    program: b"desk: ",
    input: b"desk: standard input",
    output: b"desk: standard output",
};

// The same where the words are a line of their own, said in one piece.
const LINE: Names<'static> = Names {
    program: b"",
    input: b"desk: standard input",
    output: b"desk: standard output",
};

// Plays the trial of the sheet, and prints its text.
pub fn play<R: Read, W: Write, E: Write>(
    reader: &mut R,
    writer: &mut W,
    errors: &mut E,
    order: u16,
    seed: u32,
) -> Result<(), Failed>
    ensures { OnWritten result (IfSome (R.remaining reader.old)
        (λ xs. Appends (W.contents writer.old) (W.contents writer.new) (trial_text (take 65536 xs) order seed))) }
{
    let mut room = [0u8; played::TEXT_LENGTH];
    let out = &mut room;
    through(reader, writer, errors, DESK, move |text| {
        let n = played::print(text, order, seed, out);
        Ok(&out[..n])
    })
}

// Prints the meeting of two carriers of the sheet.
pub fn meet<R: Read, W: Write, E: Write>(
    reader: &mut R,
    writer: &mut W,
    errors: &mut E,
    i: u16,
    j: u16,
) -> Result<(), Failed>
    ensures { OnWritten result (IfSome (R.remaining reader.old)
        (λ xs. Appends (W.contents writer.old) (W.contents writer.new) (meeting_text (take 65536 xs) i j))) }
{
    let mut room = [0u8; meeting::TEXT_LENGTH];
    let out = &mut room;
    through(reader, writer, errors, DESK, move |text| {
        let n = meeting::print(text, i, j, out);
        Ok(&out[..n])
    })
}

// Prints who shuts the stranded carriers of the sheet in.
pub fn show_stranded<R: Read, W: Write, E: Write>(
    reader: &mut R,
    writer: &mut W,
    errors: &mut E,
) -> Result<(), Failed>
    ensures { OnWritten result (IfSome (R.remaining reader.old)
        (λ xs. Appends (W.contents writer.old) (W.contents writer.new) (blockers_text (take 65536 xs)))) }
{
    let mut room = [0u8; stranded::TEXT_LENGTH];
    let out = &mut room;
    through(reader, writer, errors, DESK, move |text| {
        let n = stranded::print(text, out);
        Ok(&out[..n])
    })
}

// Prints why the sheet is refused.
pub fn explain<R: Read, W: Write, E: Write>(
    reader: &mut R,
    writer: &mut W,
    errors: &mut E,
) -> Result<(), Failed>
    ensures { OnWritten result (IfSome (R.remaining reader.old)
        (λ xs. PutSome (W.contents writer.old) (W.contents writer.new)
        (λ out n. (k p : ℕ) → sheet_verdict (take 65536 xs) ≡ refused k p → Explains (take 65536 xs) k p out n))) }
{
    let mut room = [0u8; reasons::TEXT_LENGTH];
    let out = &mut room;
    through(reader, writer, errors, DESK, move |text| {
        let n = reasons::print(text, out);
        Ok(&out[..n])
    })
}

// Prints the picture of the sheet.
pub fn show_picture<R: Read, W: Write, E: Write>(
    reader: &mut R,
    writer: &mut W,
    errors: &mut E,
) -> Result<(), Failed> {
    let mut room = io::large_buffer();
    let out = &mut room;
    through(reader, writer, errors, DESK, move |text| {
        let n = picture::print(text, out);
        Ok(&out[..n])
    })
}

// Draws the sheet's floor beat by beat: prints the map, the arrivals and all beats.
pub fn draw_all<R: Read, W: Write, E: Write>(
    reader: &mut R,
    writer: &mut W,
    errors: &mut E,
) -> Result<(), Failed>
    ensures { OnWritten result (IfSome (R.remaining reader.old)
        (λ xs. Appends (W.contents writer.old) (W.contents writer.new) (draw_text (take 65536 xs)))) }
{
    let mut room = frames::no_text();
    let out = &mut room;
    through(reader, writer, errors, DESK, move |text| {
        let n = frames::print(text, out);
        Ok(&out[..n])
    })
}

// Draws the sheet's floor at beat t; one above the horizon is told in words.
pub fn draw_beat<R: Read, W: Write, E: Write>(
    reader: &mut R,
    writer: &mut W,
    errors: &mut E,
    t: u16,
) -> Result<(), Failed>
    ensures { OnWritten result (IfSome (R.remaining reader.old)
        (λ xs. Appends (W.contents writer.old) (W.contents writer.new) (beat_text (take 65536 xs) t))) }
{
    let mut room = [0u8; frames::BEAT_LENGTH];
    let out = &mut room;
    through(reader, writer, errors, LINE, move |text| {
        let n = frames::print_beat(text, t, out);
        if n == 0 {
            return Err(b"desk: the beat is above the horizon\n");
        }
        Ok(&out[..n])
    })
}

// Prints the sheet of the map, or says in words what is wrong with it.
pub fn print_sheet<R: Read, W: Write, E: Write>(
    reader: &mut R,
    writer: &mut W,
    errors: &mut E,
) -> Result<(), Failed>
    ensures { OnWritten result (IfSome (R.remaining reader.old)
        (λ xs. PutSome (W.contents writer.old) (W.contents writer.new)
        (λ out n. SheetOrNothing (take 65536 xs) out n))) }
{
    let mut room = map_reader::no_sheet();
    let mut told = [0u8; map_reader::WORDS];
    let out = &mut room;
    let words = &mut told;
    through(reader, writer, errors, DESK, move |text| {
        let printed = map_reader::print(text, out, words);
        if printed.sheet == 0 {
            return Err(&words[..printed.words]);
        }
        Ok(&out[..printed.sheet])
    })
}
