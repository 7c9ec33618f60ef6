// Why a sheet is refused, in words, with the line and the column of the sheet, both from 1: one line of text over a fixed array. Of an
// accepted sheet its size. For the program `desk`.
#![tactic(auto)]

mod item;

ghost use Rattle.std.specs.Prelude.{◌≡◌, ℕ, ◌≤◌, length};
ghost use Rattle.io.specs.Counts.{IsPrefixLen};
ghost use Rattle.positions.specs.Position.{line_of_refusal, column_of_refusal, position_text};
ghost use Rattle.reasons.specs.Told.{BeginsWith, Explains};
ghost use Rattle.laws.specs.Verdict.{refused};
ghost use Rattle.floor.specs.Answers.{number_of};
ghost use Rattle.sheet.specs.Read.{sheet_verdict};

use floor::{Floor, Reason, Refusal};
use positions::{cause, position, sheet_line};
use reporting::put_bytes;
use wording::Text;

// The length of the longest text.
pub const TEXT_LENGTH: usize = 160;

// The length of the longest reason, without its position.
const REASON_LENGTH: usize = 128;

// Puts that a value of line 1 is outside its limits.
fn put_limit(text: &[u8], field: usize, out: &mut Text<'_>) {
    let Some(before) = field.checked_sub(1) else {
        return;
    };
    let x = sheet_line::field_at(text, 0, before);
    match field {
        1 => out.fill(
            b"the width is %, it must be 1 to %",
            &[x, Floor::MAX_WIDTH as usize],
        ),
        2 => out.fill(
            b"the height is %, it must be 1 to %",
            &[x, Floor::MAX_HEIGHT as usize],
        ),
        3 => out.fill(
            b"the horizon is %, it must be 1 to %",
            &[x, Floor::MAX_HORIZON as usize],
        ),
        4 => out.fill(
            b"the depth is %, it must be 1 to %",
            &[x, Floor::MAX_DEPTH as usize],
        ),
        5 => out.fill(
            b"the number of carriers is %, it must be 1 to %",
            &[x, Floor::MAX_CARRIERS as usize],
        ),
        _ => out.fill(
            b"the number of walls is %, it must be 0 to %",
            &[x, Floor::MAX_WALLS as usize],
        ),
    }
}

// Puts the cause of a refusal, a field of an item's line where there is one.
fn put_cause(text: &[u8], x: Refusal, field: usize, out: &mut Text<'_>)
    requires { (x.place ≤ 65535) × (field ≤ 10) }
{
    match x.reason {
        Reason::Form => malformed::put_reason(text, x.place, out),
        Reason::Limits => put_limit(text, x.place, out),
        Reason::OutsideGrid => item::put_outside(text, x.place, field, out),
        Reason::WallOrder => item::put_order(text, x.place, out),
        Reason::OnWall => item::put_on_wall(text, x.place, field, out),
        Reason::SharedStart => item::put_shared(text, x.place, out),
        _ => item::put_twice(text, x.place, field, out),
    }
}

// Puts the reason of a refusal and a newline in front of a memory; the length of both is returned.
fn put_reason(text: &[u8], x: Refusal, field: usize, memory: &mut [u8]) -> usize
    requires { (x.place ≤ 65535) × (field ≤ 10) }
    ensures { IsPrefixLen result memory.new }
{
    let mut out = Text::new(memory);
    put_cause(text, x, field, &mut out);
    out.put(b"\n");
    let n = out.at;
    wording::within(n, memory)
}

// Puts the position of a refusal and its reason in front of a memory; the length of both is returned.
fn put_refused(text: &[u8], x: Refusal, field: usize, out: &mut [u8]) -> usize
    requires { (x.place ≤ 65535) × (field ≤ 10) × (160 ≤ length out.old) }
    ensures { BeginsWith (position_text (line_of_refusal text.now (number_of x.reason) x.place)
        (column_of_refusal text.now (number_of x.reason) x.place field)) out.new result }
{
    let mut reason = [0u8; REASON_LENGTH];
    let n = put_reason(text, x, field, &mut reason);
    let number = x.number();
    let line = position::line_of(text, number, x.place);
    let column = position::column_of(text, number, x.place, field);
    let at = position::put_position(line, column, out);
    put_bytes(out, at, &reason[..n])
}

// The docks of all carriers of a floor.
fn docks(f: Floor) -> usize {
    let mut sum: usize = 0;
    for &count in f.counts.iter().take(f.carriers as usize) {
        sum += count as usize;
    }
    sum
}

// Puts the size of a floor in front of a memory; its length is returned.
fn put_accepted(f: Floor, memory: &mut [u8]) -> usize
    ensures { IsPrefixLen result memory.new }
{
    let mut out = Text::new(memory);
    out.fill(
        b"accepted: % by % cells, horizon %, depth %",
        &[
            f.width as usize,
            f.height as usize,
            f.horizon as usize,
            f.depth as usize,
        ],
    );
    out.put_count(f.carriers as usize, b", 1 carrier", b", % carriers");
    out.put_count(docks(f), b" with 1 dock", b" with % docks");
    out.put_count(f.walls as usize, b", 1 wall\n", b", % walls\n");
    let n = out.at;
    wording::within(n, memory)
}

// Puts where a sheet ends early in front of a memory; the length of the text is returned.
fn put_end(text: &[u8], end: usize, memory: &mut [u8]) -> usize
    requires { end ≤ 65535 }
    ensures { IsPrefixLen result memory.new }
{
    let mut out = Text::new(memory);
    malformed::put_end(text, end, &mut out);
    let n = out.at;
    wording::within(n, memory)
}

// Puts the text of a refusal in front of a memory; its length is returned.
fn put_text(text: &[u8], x: Refusal, out: &mut [u8]) -> usize
    requires { (x.place ≤ 65535) × (160 ≤ length out.old) }
    ensures { Explains text.now (number_of x.reason) x.place out.new result }
{
    match x.reason {
        Reason::Form if x.place == text.len() => put_end(text, x.place, out),
        _ => put_refused(text, x, cause::cause(text, x.number(), x.place), out),
    }
}

// Prints why a text is no sheet of a floor, or the size of its floor where it is one; the number of printed bytes is returned.
pub fn print(text: &[u8], out: &mut [u8; TEXT_LENGTH]) -> usize
    ensures counts { IsPrefixLen result out.new }
    ensures places { (k p : ℕ) → sheet_verdict text.now ≡ refused k p
        → Explains text.now k p out.new result }
{
    let mut walls = sheet::no_walls();
    match sheet::read(text, &mut walls) {
        Ok(f) => put_accepted(f, out),
        Err(x) => put_text(text, x, out),
    }
}
