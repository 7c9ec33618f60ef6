// The reader of a sheet: the text together with its next column (document 01, 'The sheet', and its named form). It goes along the sheet
// from line to line, each beginning at the column that the one before it reached.
ghost use Rattle.std.specs.Prelude.{◌≡◌, ◌+◌, ◌*◌, ◌≤◌, ℕ};
ghost use Rattle.laws.specs.Verdict.{Verdict, ◌gives◌};
ghost use Rattle.fields.specs.Form.{line_form, counted_form, past_counted, past_pair, column_past, lines_form};
ghost use Rattle.fields.specs.Reached.{column_told, Readable, ReadsAs};

use crate::line;
use floor::Refusal;

// A text and the column that is read next.
#[derive(Clone, Copy)]
pub struct Reader<'a> {
    pub text: &'a [u8],
    pub column: usize,
}

impl<'a> Reader<'a> {
    // The counted line that comes next; the column behind it.
    pub fn counted(&self) -> Result<usize, Refusal>
        requires { self.now.column ≤ 64000 }
        ensures { column_told result ≡ (counted_form self.now.text.now self.now.column
            gives past_counted self.now.text.now self.now.column) }
    {
        line::counted_form(self.text, self.column)
    }

    // The line of two fields that comes next; the column behind it.
    pub fn pair(&self) -> Result<usize, Refusal>
        requires { self.now.column ≤ 65000 }
        ensures { column_told result ≡ (line_form self.now.text.now self.now.column 2 gives past_pair self.now.column) }
    {
        line::pair_form(self.text, self.column)
    }
}

// n lines from a column on, one behind the other, each as `line` reads it; the column behind the last.
fn lines<F: Fn(usize) -> Result<usize, Refusal>>(
    line: F,
    at: usize,
    n: usize,
) -> Result<usize, Refusal>
    requires { Readable (F.pre line) (F.post line) at n }
    ensures { (form : ℕ → Verdict) (past : ℕ → ℕ) → ReadsAs (F.post line) form past
        → column_told result ≡ (lines_form form past at n gives column_past past at n) }
{
    let mut column = at;
    for i in 0..n {
        column = line(column)?;
    }
    Ok(column)
}

// n counted lines from a column on, one behind the other; the column behind the last.
pub fn counted_lines(text: &[u8], at: usize, n: usize) -> Result<usize, Refusal>
    requires { (at ≤ 60000) × (n ≤ 8) }
    ensures { column_told result ≡ (lines_form (counted_form text.now) (past_counted text.now) at n
        gives column_past (past_counted text.now) at n) }
{
    lines(|column| Reader { text, column }.counted(), at, n)
}

// k lines of two fields from a column on, one behind the other; the column behind the last.
pub fn pair_lines(text: &[u8], at: usize, k: usize) -> Result<usize, Refusal>
    requires { (at ≤ 50000) × (k ≤ 1023) }
    ensures { column_told result ≡ (lines_form (λ c. line_form text.now c 2) past_pair at k
        gives column_past past_pair at k) }
{
    lines(|column| Reader { text, column }.pair(), at, k)
}
