// Refusal 1: the form of a sheet's lines.
ghost use Rattle.std.specs.Prelude.{◌≡◌, ◌≤◌};
ghost use Rattle.floor.specs.Answers.{verdict_of};
ghost use Rattle.sheet.specs.Form.{rest_form};

use floor::{Floor, Refusal};

// The lines after line 1, for the counts that line 1 gives: the carriers' lines, the walls', and nothing more.
pub fn rest_form(text: &[u8], f: Floor) -> Result<(), Refusal>
    requires { (f.carriers ≤ 8) × (f.walls ≤ 1023) }
    ensures { verdict_of result ≡ rest_form text.now f }
{
    let column = fields::counted_lines(text, 31, f.carriers as usize)?;
    let last = fields::pair_lines(text, column, f.walls as usize)?;
    fields::end_form(text, last)?;
    Ok(())
}
