// The report of a trial as text (document 02, slip 1): carriers, order and steps taken, then a line a step: its place from 1 and its
// number as fields of five columns, a space, the word of its answer. Helpers of the program `desk`.
#![tactic(auto)]

ghost use Rattle.std.specs.Prelude.{◌∷◌, [], ◌+◌, ◌*◌, ◌≤◌, ◌<◌, length};
ghost use Rattle.reporting.specs.Words.{short_decimal};
ghost use Rattle.sheet.specs.Text.{line_of, lines_of};
ghost use Rattle.reporting.specs.Text.{answer_word, step_line, entry_line, entry_count, report_text, report_length};
ghost use Rattle.reporting.specs.Put.{PutAt};

// Puts bytes from a column on; the column behind them is returned.
pub fn put_bytes(out: &mut [u8], at: usize, bytes: &[u8]) -> usize
    requires { at + length bytes.now ≤ length out.old }
    ensures { PutAt bytes.now out.old at out.new result }
{
    let end = at + bytes.len();
    out[at..end].copy_from_slice(bytes);
    end
}

// Puts a number below 100 in decimal digits; the column behind it is returned.
pub fn put_short_decimal(out: &mut [u8], at: usize, n: usize) -> usize
    requires { (n < 100) × (at + 2 ≤ length out.old) }
    ensures { PutAt (short_decimal n) out.old at out.new result }
{
    if n < 10 {
        return put_bytes(out, at, &[b'0' + n as u8]);
    }
    put_bytes(out, at, &[b'0' + (n / 10) as u8, b'0' + (n % 10) as u8])
}

// Puts the word of an answer; the column behind it is returned.
fn put_word(out: &mut [u8], at: usize, answer: u16) -> usize
    requires { at + 9 ≤ length out.old }
    ensures puts { PutAt (answer_word answer) out.old at out.new result }
    ensures short { result ≤ at + 9 }
{
    match answer {
        0 => put_bytes(out, at, b"kept"),
        1 => put_bytes(out, at, b"sent"),
        _ => put_bytes(out, at, b"delivered"),
    }
}

// Puts the line of a step; the column behind it is returned.
fn put_step(out: &mut [u8], at: usize, place: u16, number: u16, answer: u16) -> usize
    requires { at + 21 ≤ length out.old }
    ensures puts { PutAt (step_line place number answer) out.old at out.new result }
    ensures short { result ≤ at + 21 }
{
    fields::put_field(out, at, place);
    fields::put_field(out, at + 5, number);
    out[at + 10] = b' ';
    let end = put_word(out, at + 11, answer);
    out[end] = b'\n';
    end + 1
}

// Puts the lines of a report's entries behind line 1; the column behind them is returned.
fn put_entries(report: &[u16], out: &mut [u8]) -> usize
    requires { (entry_count report.now < 65536) × (report_length (entry_count report.now) ≤ length out.old) }
    ensures { PutAt (lines_of (entry_line report.now) (entry_count report.now))
        out.old 16 out.new result }
{
    let steps = report.len() / 2;
    let mut at: usize = 16;
    for k in 0..steps {
        at = put_step(out, at, k as u16 + 1, report[2 * k], report[2 * k + 1]);
    }
    at
}

// Puts a line of three numbers in front of a buffer; its length is returned.
fn put_line(a: u16, b: u16, c: u16, out: &mut [u8]) -> usize
    requires { 16 ≤ length out.old }
    ensures { PutAt (line_of (a ∷ b ∷ c ∷ [])) out.old 0 out.new result }
{
    fields::put_field(out, 0, a);
    fields::put_field(out, 5, b);
    fields::put_field(out, 10, c);
    out[15] = b'\n';
    16
}

// Puts the text of a report, two numbers an entry, in front of a buffer; its length is returned.
pub fn put_report(carriers: u16, order: u16, report: &[u16], out: &mut [u8]) -> usize
    requires { (entry_count report.now < 65536) × (report_length (entry_count report.now) ≤ length out.old) }
    ensures { PutAt (report_text carriers order report.now) out.old 0 out.new result }
{
    put_line(carriers, order, (report.len() / 2) as u16, out);
    put_entries(report, out)
}
