// What a picture has for each beat: the points of a trace, the places of a moving carrier, the numerals of the beats and their turns, each
// for the beats from one to another, both included.
ghost use Rattle.std.specs.Prelude.{◌≡◌, length};

use canvas::answers::Carrier;
use canvas::page;
use canvas::page::Page;
use wording::Text;

// Puts the points of the trace of a carrier.
pub(crate) fn put_points(carrier: Carrier<'_>, last: usize, out: &mut Text<'_>)
    ensures same_memory { out.new.bytes.ghost_name ≡ out.old.bytes.ghost_name }
    ensures same_length { length out.new.bytes.now ≡ length out.old.bytes.now }
{
    for t in 0..=last.min(64) {
        let (x, y) = carrier.page.track_of(carrier.cell(t), carrier.place);
        out.fill(b" %,%", &[x, y]);
    }
}

// Puts the places of a moving carrier.
pub(crate) fn put_places(carrier: Carrier<'_>, first: usize, last: usize, out: &mut Text<'_>)
    ensures same_memory { out.new.bytes.ghost_name ≡ out.old.bytes.ghost_name }
    ensures same_length { length out.new.bytes.now ≡ length out.old.bytes.now }
{
    for t in first..=last.min(64) {
        let (x, y) = carrier.page.middle_of(carrier.cell(t));
        out.fill(b";% %", &[x, y]);
    }
}

// Puts the numerals of the beats.
pub fn put_numerals(page: Page, last: usize, out: &mut Text<'_>)
    ensures same_memory { out.new.bytes.ghost_name ≡ out.old.bytes.ghost_name }
    ensures same_length { length out.new.bytes.now ≡ length out.old.bytes.now }
{
    for t in 0..=last.min(64) {
        out.fill(
            b"<text x=\"%\" y=\"%\">%</text>\n",
            &[page.legend() + 44, page::legend_line(t), t],
        );
    }
}

// Puts the places of all numerals at which that of a beat is shown.
pub fn put_turns(first: usize, last: usize, out: &mut Text<'_>)
    ensures same_memory { out.new.bytes.ghost_name ≡ out.old.bytes.ghost_name }
    ensures same_length { length out.new.bytes.now ≡ length out.old.bytes.now }
{
    for t in first..=last.min(64) {
        out.fill(b";0 -%", &[30 * t]);
    }
}
