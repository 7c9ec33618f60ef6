// Refusal 1 in words: what is wrong with the form of a sheet at a byte.
ghost use Rattle.std.specs.Prelude.{◌≡◌, ◌≤◌, IfSome, length};

use positions::{position, sheet_line};
use wording::Text;

// Byte i of the field at a column.
fn field_byte(text: &[u8], at: usize, i: usize) -> u8
    requires { (at ≤ 65535) × (i ≤ 5) }
{
    position::byte_at(text, at + i)
}

// The first byte of a field that may not stand in one, being no space and no digit.
fn foreign(text: &[u8], at: usize) -> Option<u8>
    requires { at ≤ 65535 }
{
    (0..5)
        .map(|i| field_byte(text, at, i))
        .find(|byte| !matches!(*byte, b' ' | b'0'..=b'9'))
}

// The place of the first byte of a field that is no space.
fn first_place(text: &[u8], at: usize) -> Option<usize>
    requires { at ≤ 65535 }
    ensures { IfSome result (λ place. place ≤ 4) }
{
    (0..5).find(|i| field_byte(text, at, *i) != b' ')
}

// Whether a field has a space behind a place.
fn has_space(text: &[u8], at: usize, place: usize) -> bool
    requires { (at ≤ 65535) × (place ≤ 5) }
{
    (place..5).any(|i| field_byte(text, at, i) == b' ')
}

// Puts that field k has a byte that may not stand in it.
fn put_foreign(k: usize, byte: u8, out: &mut Text<'_>)
    ensures same_memory { out.new.bytes.ghost_name ≡ out.old.bytes.ghost_name }
    ensures same_length { length out.new.bytes.now ≡ length out.old.bytes.now }
{
    match byte {
        b'\n' => out.fill(b"field % has a newline in it", &[k]),
        b'\r' => out.fill(b"field % has a carriage return in it", &[k]),
        b'\t' => out.fill(b"field % has a tab in it", &[k]),
        b'!'..=b'~' => put_character(k, byte, out),
        _ => out.fill(b"field % has the byte % in it", &[k, byte as usize]),
    }
}

// The same of a byte that is shown.
fn put_character(k: usize, byte: u8, out: &mut Text<'_>)
    ensures same_memory { out.new.bytes.ghost_name ≡ out.old.bytes.ghost_name }
    ensures same_length { length out.new.bytes.now ≡ length out.old.bytes.now }
{
    if byte.is_ascii_alphabetic() {
        out.fill(b"field % has the letter ", &[k]);
    } else {
        out.fill(b"field % has the character ", &[k]);
    }
    out.put(&[b'\'', byte, b'\'', b' ', b'i', b'n', b' ', b'i', b't']);
}

// Puts that the field at a column, in good form, is no dock count.
fn put_count(text: &[u8], at: usize, out: &mut Text<'_>)
    ensures same_memory { out.new.bytes.ghost_name ≡ out.old.bytes.ghost_name }
    ensures same_length { length out.new.bytes.now ≡ length out.old.bytes.now }
{
    out.fill(
        b"the dock count is %, it must be 1 to 4",
        &[sheet_line::number_at(text, at)],
    );
}

// Puts what is wrong with field k, which stands at a column.
fn put_bad_field(text: &[u8], at: usize, k: usize, out: &mut Text<'_>)
    requires { at ≤ 65535 }
    ensures same_memory { out.new.bytes.ghost_name ≡ out.old.bytes.ghost_name }
    ensures same_length { length out.new.bytes.now ≡ length out.old.bytes.now }
{
    if let Some(byte) = foreign(text, at) {
        return put_foreign(k, byte, out);
    }
    match first_place(text, at) {
        None => out.fill(b"field % is empty", &[k]),
        Some(first) if has_space(text, at, first) => {
            out.fill(b"field % has a space behind a digit", &[k])
        },
        Some(first) if first < 4 && field_byte(text, at, first) == b'0' => {
            out.fill(b"field % has a leading zero", &[k])
        },
        Some(_) => put_count(text, at, out),
    }
}

// Puts what stands where a newline should, behind field k.
fn put_no_newline(text: &[u8], at: usize, k: usize, out: &mut Text<'_>)
    requires { at ≤ 65535 }
    ensures same_memory { out.new.bytes.ghost_name ≡ out.old.bytes.ghost_name }
    ensures same_length { length out.new.bytes.now ≡ length out.old.bytes.now }
{
    match (field_byte(text, at, 0), field_byte(text, at, 1)) {
        (b'\r', b'\n') => out.put(b"a carriage return stands before the newline"),
        (b'\t', b'\n') => out.put(b"a tab stands before the newline"),
        (b' ', b'\n') => out.put(b"a space stands before the newline"),
        _ => out.fill(b"a newline is missing after field %", &[k]),
    }
}

// Puts what is wrong with the form of a sheet at a byte.
pub fn put_reason(text: &[u8], at: usize, out: &mut Text<'_>)
    requires { at ≤ 65535 }
    ensures same_memory { out.new.bytes.ghost_name ≡ out.old.bytes.ghost_name }
    ensures same_length { length out.new.bytes.now ≡ length out.old.bytes.now }
{
    let position = position::position_at(text, at);
    let column = position.column;
    let count = sheet_line::fields_of(text, position.line, at + 1 - column);
    if count == 0 {
        out.put(b"nothing may follow the last line");
    } else if column == 5 * count + 1 {
        put_no_newline(text, at, count, out);
    } else {
        put_bad_field(text, at, column / 5 + 1, out);
    }
}
