// What must stand at a column of a sheet: a field, a newline, or nothing more. Refusal 1 says where it does not.
ghost use Rattle.std.specs.Prelude.{◌≡◌, ◌+◌, ◌≤◌, ◌<◌, length};
ghost use Rattle.floor.specs.Answers.{number_of};
ghost use Rattle.laws.specs.Verdict.{◌gives◌};
ghost use Rattle.fields.specs.Form.{field_form, newline_form, count_form, end_form};
ghost use Rattle.fields.specs.Reached.{column_told};

use crate::field;
use floor::{Reason, Refusal};

// Refusal 1 with a byte offset.
fn malformed(place: usize) -> Refusal
    ensures { (number_of result.reason ≡ 1) × (result.place ≡ place) }
{
    Refusal {
        reason: Reason::Form,
        place,
    }
}

// The field at a column; the column behind it.
pub fn field_form(text: &[u8], at: usize) -> Result<usize, Refusal>
    requires { at ≤ 65536 }
    ensures { column_told result ≡ (field_form text.now at gives (at + 5)) }
{
    if text.len() < at + 5 {
        return Err(malformed(text.len()));
    }
    if !field::is_field(text, at) {
        return Err(malformed(at));
    }
    Ok(at + 5)
}

// The field at a column, which counts 1 to 4; the column behind it.
pub fn count_form(text: &[u8], at: usize) -> Result<usize, Refusal>
    requires { at ≤ 65536 }
    ensures { column_told result ≡ (count_form text.now at gives (at + 5)) }
{
    field_form(text, at)?;
    let x = field::number(text, at);
    if !(1..=4).contains(&x) {
        return Err(malformed(at));
    }
    Ok(at + 5)
}

// The newline at a column; the column behind it.
pub fn newline_form(text: &[u8], at: usize) -> Result<usize, Refusal>
    requires { at ≤ 65536 }
    ensures { column_told result ≡ (newline_form text.now at gives (at + 1)) }
{
    if text.len() <= at {
        return Err(malformed(text.len()));
    }
    if text[at] != b'\n' {
        return Err(malformed(at));
    }
    Ok(at + 1)
}

// Nothing follows the last line.
pub fn end_form(text: &[u8], at: usize) -> Result<usize, Refusal>
    ensures { column_told result ≡ (end_form text.now at gives at) }
{
    if at < text.len() {
        return Err(malformed(at));
    }
    Ok(at)
}
