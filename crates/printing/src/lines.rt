// The lines of printed routes.
ghost use Rattle.std.specs.Prelude.{◌≡◌, ◌∷◌, ◌+◌, ◌*◌, ◌≤◌, ◌<◌, length, take};
ghost use Rattle.laws.specs.Memory.{put};
ghost use Rattle.sheet.specs.Text.{line_of};
ghost use Rattle.printing.specs.Text.{fields_of, none_word, none_line, first_line, refusal_line};
ghost use Rattle.printing.specs.Put.{text_in, TextPut, LinePut, LinesPut, Printable};

use floor::Floor;
use route::Route;

// The first n cells of a route, a field each.
fn put_cells(out: &mut [u8], at: usize, cells: Route, n: usize)
    requires n_bound { n ≤ 64 }
    requires n_in_bounds { at + 5 * n ≤ length out.old }
    ensures { out.new ≡ put out.old at (fields_of (take n cells)) }
{
    for t in 0..n {
        fields::put_field(out, at + 5 * t, cells[t]);
    }
}

// The line of a carrier that has a route: its number, its arrival, its cells at beats 0 to H.
fn put_route(out: &mut [u8], at: usize, number: u16, arrival: u16, cells: Route, n: usize)
    requires n_bound { n ≤ 64 }
    requires n_in_bounds { at + 5 * n + 11 ≤ length out.old }
    ensures { out.new ≡ put out.old at (line_of (number ∷ arrival ∷ take n cells)) }
{
    fields::put_field(out, at, number);
    fields::put_field(out, at + 5, arrival);
    put_cells(out, at + 10, cells, n);
    out[at + 10 + 5 * n] = b'\n';
}

// ` none`: a space and four letters.
fn put_word(out: &mut [u8], at: usize)
    requires { at + 5 ≤ length out.old }
    ensures { out.new ≡ put out.old at none_word }
{
    out[at..at + 5].copy_from_slice(b" none");
}

// The line of a carrier that has none.
fn put_none(out: &mut [u8], at: usize, number: u16)
    requires { at + 11 ≤ length out.old }
    ensures { out.new ≡ put out.old at (none_line number) }
{
    fields::put_field(out, at, number);
    put_word(out, at + 5);
    out[at + 10] = b'\n';
}

// The line of carrier i, counted from 0, for its answer in memory; the column behind it is returned.
fn put_answer(f: Floor, i: usize, answers: &[u16], out: &mut [u8], at: usize) -> usize
    requires i_bound { (i < 8) × (f.horizon ≤ 63) }
    requires i_in_bounds { 65 * i + 65 ≤ length answers.now }
    requires at_in_bounds { at + 331 ≤ length out.old }
    ensures { LinePut f i answers.now out.old at out.new result }
{
    let number = i as u16 + 1;
    if answers[65 * i] != 2 {
        put_none(out, at, number);
        return at + 11;
    }
    let horizon = f.horizon;
    let cells = records::load(answers, 65 * i + 1);
    let n = horizon as usize + 1;
    put_route(out, at, number, route::arrival(cells, horizon), cells, n);
    at + 11 + 5 * n
}

// The lines of the carriers, from a column on; the column behind them is returned.
fn put_answers(f: Floor, answers: &[u16], out: &mut [u8]) -> usize
    requires { Printable f answers.now out.old }
    ensures { LinesPut f answers.now out.old f.carriers out.new result }
{
    let n = f.carriers as usize;
    let mut at: usize = 11;
    for i in 0..n {
        at = put_answer(f, i, answers, out, at);
    }
    at
}

// Line 1.
fn put_first(f: Floor, failing: u16, out: &mut [u8])
    requires { 11 ≤ length out.old }
    ensures { out.new ≡ put out.old 0 (first_line f failing) }
{
    fields::put_field(out, 0, f.carriers);
    fields::put_field(out, 5, failing);
    out[10] = b'\n';
}

// The printed routes of a floor, from its answers in memory; their length is returned.
pub fn put_routes(f: Floor, failing: u16, answers: &[u16], out: &mut [u8]) -> usize
    requires { Printable f answers.now out.old }
    ensures { TextPut (text_in f failing answers.now) out.old out.new result }
{
    put_first(f, failing, out);
    put_answers(f, answers, out)
}

// Puts the line of a refusal; its length is returned.
pub fn put_refusal(number: u16, place: usize, out: &mut [u8]) -> usize
    requires { (place ≤ 65535) × (16 ≤ length out.old) }
    ensures { TextPut (refusal_line number place) out.old out.new result }
{
    fields::put_field(out, 0, 0);
    fields::put_field(out, 5, number);
    fields::put_field(out, 10, place as u16);
    out[15] = b'\n';
    16
}
