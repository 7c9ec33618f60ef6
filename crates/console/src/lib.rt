// Standard input and standard output, whole: all of the input into a lent buffer, all of a text to the output. A call that moves
// only a part, that a signal interrupts or that finds nothing ready is followed by the next one, and a failure is told from the
// input's end. A failure is said in a line on standard error. Input, output and what failures are said on are any reader and writers;
// the contracts bound the number of bytes, and say which they are where the reader and the writer say it. Those of the system do not.
#![tactic(auto)]

ghost use Rattle.std.specs.Prelude.{length, take, IfSome};
ghost use Rattle.console.specs.Told.{MayTell, Tells, ToldPut};
ghost use Rattle.console.specs.Turned.{Turned};
ghost use Rattle.console.specs.Within.{InputWithin, PartWithin};
ghost use Rattle.console.specs.Moved.{InputSaid, InputTaken, OnWritten, OutputPut, OutputSaid, PartRead, PartWritten, PartsRead, PartsWritten};

use std::io::{Error, ErrorKind, Read, Write};
use std::thread;

// Reading or writing failed, or nothing was moved for too long; standard error says which. Some of the bytes may be moved.
#[derive(Clone, Copy, Debug)]
pub struct Failed;

// Why a call moved no bytes.
#[derive(Clone, Copy)]
enum Stop {
    // It may yet: a signal came between, or nothing is ready.
    NotYet,
    // It failed, and why.
    Failed(Error),
}

// The number of calls in a row that may move nothing before they are given up: some minutes of waiting.
const TURNS: u64 = 200000000;

// Lets other processes run before the next call.
fn pause() {
    thread::yield_now();
}

// Why a call that failed so moved no bytes: one that a signal interrupted, or that finds nothing ready yet, may succeed later.
fn stopped(error: Error) -> Stop {
    match error.kind() {
        ErrorKind::WouldBlock => {
            pause();
            Stop::NotYet
        }
        ErrorKind::Interrupted => Stop::NotYet,
        _ => Stop::Failed(error),
    }
}

// One read of the input; it moves 0 bytes only at the input's end.
fn read_once<R: Read>(reader: &mut R, buf: &mut [u8]) -> Result<usize, Stop>
    ensures within { PartWithin 0 (length buf.new) result }
    ensures bytes { PartRead (R.remaining reader.old) (R.remaining reader.new) result buf.new }
{
    match reader.read(buf) {
        Ok(n) => Ok(n),
        Err(e) => Err(stopped(e)),
    }
}

// One write to the output; one that takes 0 bytes has moved nothing yet.
fn write_once<W: Write>(writer: &mut W, text: &[u8]) -> Result<usize, Stop>
    ensures within { PartWithin 1 (length text.now) result }
    ensures bytes { PartWritten (W.contents writer.old) (W.contents writer.new) result text.now }
{
    match writer.write(text) {
        Ok(0) => {
            pause();
            Err(Stop::NotYet)
        }
        Ok(n) => Ok(n),
        Err(e) => Err(stopped(e)),
    }
}

// Calls until a call moves bytes, finds the end or fails, or the turns are used up.
fn in_turns<F: FnMut() -> Result<usize, Stop>>(call: &mut F) -> Result<usize, Stop>
    requires { F.IsAlwaysCallable call.old }
    ensures { Turned (λ f r g. F.step f r g) call.old result call.new }
{
    for _ in 0..TURNS {
        let part = call();
        if !matches!(part, Err(Stop::NotYet)) {
            return part;
        }
    }
    Err(Stop::NotYet)
}

// Reads until a call moves bytes, finds the input's end or fails, or the turns are used up.
fn read_some<R: Read>(reader: &mut R, buf: &mut [u8]) -> Result<usize, Stop>
    ensures within { PartWithin 0 (length buf.new) result }
    ensures bytes { PartRead (R.remaining reader.old) (R.remaining reader.new) result buf.new }
{
    let mut call = || read_once(reader, buf);
    in_turns(&mut call)
}

// Writes until a call moves bytes or fails, or the turns are used up.
fn write_some<W: Write>(writer: &mut W, text: &[u8]) -> Result<usize, Stop>
    ensures within { PartWithin 1 (length text.now) result }
    ensures bytes { PartWritten (W.contents writer.old) (W.contents writer.new) result text.now }
{
    let mut call = || write_once(writer, text);
    in_turns(&mut call)
}

// Reads part after part until the input ends or the buffer is full, and counts the bytes of all parts.
fn read_all<R: Read>(reader: &mut R, buf: &mut [u8]) -> Result<usize, Stop>
    ensures within { PartWithin 0 (length buf.new) result }
    ensures bytes { PartsRead (R.remaining reader.old) (R.remaining reader.new) result buf.new }
{
    let mut n = 0;
    while n < buf.len() {
        let more = read_some(reader, &mut buf[n..])?;
        if more == 0 {
            return Ok(n);
        }
        n += more;
    }
    Ok(n)
}

// Writes part after part until all of the text is written, and counts the bytes of all parts.
// Kept beside `read_all`: a loop for both, over a closure, is no plainer, as its contract, which has to tell what every call did from
// which place, is longer than this loop.
fn write_all<W: Write>(writer: &mut W, text: &[u8]) -> Result<usize, Stop>
    ensures within { PartWithin (length text.now) (length text.now) result }
    ensures bytes { PartsWritten (W.contents writer.old) (W.contents writer.new) result text.now }
{
    let mut n = 0;
    while n < text.len() {
        let more = write_some(writer, &text[n..])?;
        n += more;
    }
    Ok(n)
}

// Says that the turns were used up, under the name of the input or output. A line that cannot be said is left.
fn give_up<E: Write>(errors: &mut E, name: &[u8]) {
    let _ = errors.write_all(name);
    let _ = errors.write_all(b": not ready for too long, given up\n");
}

// Room for an error's words.
const WORDS: usize = 96;

// An error's words alone: std writes its number behind them, in brackets.
fn without_number(text: &[u8]) -> &[u8] {
    let number = (0..text.len()).find(|i| text[*i..].starts_with(b" (os error "));
    &text[..number.unwrap_or(text.len())]
}

// Says what failed, under the name of the input or output, and why. A line that cannot be said is left.
fn fail<E: Write>(errors: &mut E, name: &[u8], error: Error) {
    let mut words = [0u8; WORDS];
    let mut rest = &mut words[..];
    let _ = write!(rest, "{error}");
    let n = WORDS.saturating_sub(rest.len());
    let _ = errors.write_all(name);
    let _ = errors.write_all(b": ");
    let _ = errors.write_all(without_number(&words[..n]));
    let _ = errors.write_all(b"\n");
}

// Says why no more was moved, under the name of the input or output.
fn say<E: Write>(errors: &mut E, name: &[u8], stop: Stop) -> Failed {
    match stop {
        Stop::NotYet => give_up(errors, name),
        Stop::Failed(e) => fail(errors, name, e),
    }
    Failed
}

// Reads all of the input into lent memory, or its first bytes where it is longer, and answers how many bytes there are; a failure is said
// under the input's name.
#[tactic(auto, using(crate::proofs::WithinLaws::counts_within), unfolding(crate::specs::Moved::InputTaken, crate::specs::Moved::InputSaid))]
pub fn read<R: Read, E: Write>(
    reader: &mut R,
    errors: &mut E,
    name: &[u8],
    buf: &mut [u8],
) -> Result<usize, Failed>
    ensures within { InputWithin result buf.new }
    ensures bytes { InputTaken (R.remaining reader.old) (R.remaining reader.new) result buf.new }
    ensures said { InputSaid (E.contents errors.old) (E.contents errors.new) result }
{
    match read_all(reader, buf) {
        Ok(n) => Ok(n),
        Err(stop) => Err(say(errors, name, stop)),
    }
}

// Writes all of a text to the output; a failure is said under the output's name.
#[tactic(auto, unfolding(crate::specs::Moved::OutputPut, crate::specs::Moved::OutputSaid))]
pub fn write<W: Write, E: Write>(
    writer: &mut W,
    errors: &mut E,
    name: &[u8],
    text: &[u8],
) -> Result<(), Failed>
    ensures bytes { OutputPut (W.contents writer.old) (W.contents writer.new) result text.now }
    ensures said { OutputSaid (E.contents errors.old) (E.contents errors.new) result }
{
    match write_all(writer, text) {
        Ok(_) => Ok(()),
        Err(stop) => Err(say(errors, name, stop)),
    }
}

// What a program, its input and its output are called where something is said of them. The program's name has its colon and its space
// behind it, as it stands in front of words; it is empty where the words begin with it, so that they are said in one piece.
#[derive(Clone, Copy)]
pub struct Names<'a> {
    pub program: &'a [u8],
    pub input: &'a [u8],
    pub output: &'a [u8],
}

// Reads the input, or its first 65,536 bytes, has a text told for it, and writes that text to the output. Where words are told in place of
// a text, they are said behind the program's name; a failure is said too.
pub fn through<'a, R: Read, W: Write, E: Write, T: FnOnce(&[u8]) -> Result<&'a [u8], &'a [u8]>>(
    reader: &mut R,
    writer: &mut W,
    errors: &mut E,
    names: Names,
    tell: T,
) -> Result<(), Failed>
    requires callable { MayTell T.FnOnce tell }
    ensures { OnWritten result (IfSome (R.remaining reader.old)
        (λ xs. Tells T.FnOnce tell (take 65536 xs) (ToldPut (W.contents writer.old) (W.contents writer.new)))) }
{
    let mut space = io::large_buffer();
    let n = read(reader, errors, names.input, &mut space)?;
    match tell(&space[..n]) {
        Ok(text) => write(writer, errors, names.output, text),
        Err(words) => {
            let _ = errors.write_all(names.program);
            let _ = errors.write_all(words);
            Ok(())
        }
    }
}
