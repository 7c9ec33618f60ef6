// A line of a sheet: fields and a newline.
ghost use Rattle.std.specs.Prelude.{◌≡◌, ◌+◌, ◌*◌, ◌≤◌};
ghost use Rattle.laws.specs.Verdict.{◌gives◌};
ghost use Rattle.fields.specs.Form.{line_form, counted_form, past_counted, past_pair};
ghost use Rattle.fields.specs.Reached.{column_told};

use crate::{field, slot};
use floor::Refusal;

// A line of k fields from a column on; the column behind it.
pub fn line_form(text: &[u8], at: usize, k: usize) -> Result<usize, Refusal>
    requires { (at ≤ 65000) × (k ≤ 8) }
    ensures { column_told result ≡ (line_form text.now at k gives (at + 5 * k + 1)) }
{
    for i in 0..k {
        slot::field_form(text, at + 5 * i)?;
    }
    slot::newline_form(text, at + 5 * k)
}

// A line of two fields; the column behind it.
pub fn pair_form(text: &[u8], at: usize) -> Result<usize, Refusal>
    requires { at ≤ 65000 }
    ensures { column_told result ≡ (line_form text.now at 2 gives past_pair at) }
{
    line_form(text, at, 2)
}

// A counted line, which is two fields, a count, and as many pairs of fields; the column behind it.
pub fn counted_form(text: &[u8], at: usize) -> Result<usize, Refusal>
    requires { at ≤ 64000 }
    ensures { column_told result ≡ (counted_form text.now at gives past_counted text.now at) }
{
    slot::field_form(text, at)?;
    slot::field_form(text, at + 5)?;
    slot::count_form(text, at + 10)?;
    line_form(text, at + 15, 2 * field::number(text, at + 10) as usize)
}
