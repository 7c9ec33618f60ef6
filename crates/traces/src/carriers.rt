// What a picture has for each carrier: its words, its trace, its body at the start, its body that moves, its line in the legend.
ghost use Rattle.std.specs.Prelude.{◌≡◌, ◌≤◌, length};

use crate::beats;
use canvas::answers::Carrier;
use canvas::page;
use canvas::page::Page;
use wording::Text;

// Puts the same thing of every carrier.
pub fn put_all<F: Fn(Carrier<'_>, &mut Text<'_>)>(
    page: Page,
    answers: &[u16],
    put: F,
    out: &mut Text<'_>,
)
    requires { F.IsAlwaysCallable put }
    ensures same_memory { ((c : _) (a b : _) → F.post put c a tt b → b.now.bytes.ghost_name ≡ a.now.bytes.ghost_name)
        → out.new.bytes.ghost_name ≡ out.old.bytes.ghost_name }
    ensures same_length { ((c : _) (a b : _) → F.post put c a tt b → length b.now.bytes.now ≡ length a.now.bytes.now)
        → length out.new.bytes.now ≡ length out.old.bytes.now }
{
    for place in 0..(page.carriers as usize).min(8) {
        let carrier = Carrier {
            page,
            answers,
            place,
        };
        put(carrier, out);
    }
}

// Puts the arrival of a carrier in words, for readers who hear the picture.
pub fn put_words(carrier: Carrier<'_>, out: &mut Text<'_>)
    ensures same_memory { out.new.bytes.ghost_name ≡ out.old.bytes.ghost_name }
    ensures same_length { length out.new.bytes.now ≡ length out.old.bytes.now }
{
    let name = carrier.place + 1;
    if carrier.has_route() {
        out.fill(b"carrier %: beat %. ", &[name, carrier.arrival()]);
    } else {
        out.fill(b"carrier %: none. ", &[name]);
    }
}

// The last beat, of those that a record has a cell for.
fn last_beat(carrier: Carrier<'_>) -> usize
    ensures { result ≤ 63 }
{
    (carrier.page.horizon as usize).min(63)
}

// Puts the trace of a carrier that has a route, and a dot where it ends.
pub fn put_trace(carrier: Carrier<'_>, out: &mut Text<'_>)
    ensures same_memory { out.new.bytes.ghost_name ≡ out.old.bytes.ghost_name }
    ensures same_length { length out.new.bytes.now ≡ length out.old.bytes.now }
{
    if !carrier.has_route() {
        return;
    }
    let name = carrier.place + 1;
    out.fill(b"<polyline class=\"s%\" points=\"", &[name]);
    beats::put_points(carrier, carrier.arrival(), out);
    let c = carrier.cell(last_beat(carrier));
    let (x, y) = carrier.page.track_of(c, carrier.place);
    out.fill(
        b"\"/><circle class=\"f%\" cx=\"%\" cy=\"%\" r=\"5\" stroke=\"none\"/>\n",
        &[name, x, y],
    );
}

// Puts the opening of a body's group, at its start.
fn put_start(carrier: Carrier<'_>, out: &mut Text<'_>)
    ensures same_memory { out.new.bytes.ghost_name ≡ out.old.bytes.ghost_name }
    ensures same_length { length out.new.bytes.now ≡ length out.old.bytes.now }
{
    let (x, y) = carrier.page.middle_of(carrier.cell(0));
    out.fill(b"<g transform=\"translate(% %)\">", &[x, y]);
}

// Puts a body and the end of its group.
fn put_body(carrier: Carrier<'_>, out: &mut Text<'_>)
    ensures same_memory { out.new.bytes.ghost_name ≡ out.old.bytes.ghost_name }
    ensures same_length { length out.new.bytes.now ≡ length out.old.bytes.now }
{
    let name = carrier.place + 1;
    if carrier.page.small {
        out.fill(
            b"<circle class=\"f%\" r=\"9\" stroke=\"#222\"/><text class=\"t%\" y=\"4\">%</text></g>\n",
            &[name, name, name],
        );
    } else {
        out.fill(
            b"<circle class=\"f%\" r=\"14\" stroke=\"#222\"/><text class=\"t%\" y=\"5\">%</text></g>\n",
            &[name, name, name],
        );
    }
}

// Puts the body of a carrier that has a route, at its start.
pub fn put_still(carrier: Carrier<'_>, out: &mut Text<'_>)
    ensures same_memory { out.new.bytes.ghost_name ≡ out.old.bytes.ghost_name }
    ensures same_length { length out.new.bytes.now ≡ length out.old.bytes.now }
{
    if carrier.has_route() {
        put_start(carrier, out);
        put_body(carrier, out);
    }
}

// Puts the movement of a carrier: its places at all beats, the last two more times.
fn put_movement(carrier: Carrier<'_>, out: &mut Text<'_>)
    ensures same_memory { out.new.bytes.ghost_name ≡ out.old.bytes.ghost_name }
    ensures same_length { length out.new.bytes.now ≡ length out.old.bytes.now }
{
    let page = carrier.page;
    let (x, y) = page.middle_of(carrier.cell(0));
    let last = last_beat(carrier);
    out.fill(
        b"<animateTransform attributeName=\"transform\" type=\"translate\" dur=\"%ms\" repeatCount=\"indefinite\" values=\"% %",
        &[page.duration(), x, y],
    );
    beats::put_places(carrier, 1, last, out);
    beats::put_places(carrier, last, last, out);
    beats::put_places(carrier, last, last, out);
    out.put(b"\"/>");
}

// Puts the body of a carrier that has a route, moving.
pub fn put_moving(carrier: Carrier<'_>, out: &mut Text<'_>)
    ensures same_memory { out.new.bytes.ghost_name ≡ out.old.bytes.ghost_name }
    ensures same_length { length out.new.bytes.now ≡ length out.old.bytes.now }
{
    if carrier.has_route() {
        put_start(carrier, out);
        put_movement(carrier, out);
        put_body(carrier, out);
    }
}

// Puts the body of a carrier that has no route, at its start and hatched.
pub fn put_stranded(carrier: Carrier<'_>, out: &mut Text<'_>)
    ensures same_memory { out.new.bytes.ghost_name ≡ out.old.bytes.ghost_name }
    ensures same_length { length out.new.bytes.now ≡ length out.old.bytes.now }
{
    if carrier.has_route() {
        return;
    }
    let page = carrier.page;
    let (x, y) = page.corner_of(carrier.cell(0));
    let side = page.side();
    out.fill(
        b"<rect x=\"%\" y=\"%\" width=\"%\" height=\"%\" fill=\"url(#hatch)\"/>\n",
        &[x, y, side, side],
    );
    put_start(carrier, out);
    put_body(carrier, out);
}

// Puts the line of a carrier in the legend.
pub fn put_line(carrier: Carrier<'_>, out: &mut Text<'_>)
    ensures same_memory { out.new.bytes.ghost_name ≡ out.old.bytes.ghost_name }
    ensures same_length { length out.new.bytes.now ≡ length out.old.bytes.now }
{
    let name = carrier.place + 1;
    let x = carrier.page.legend();
    let y = page::legend_line(name);
    out.fill(
        b"<circle class=\"f%\" cx=\"%\" cy=\"%\" r=\"9\" stroke=\"#222\"/><text x=\"%\" y=\"%\">",
        &[name, x + 10, y - 5, x + 28, y],
    );
    if carrier.has_route() {
        out.fill(b"carrier %: beat %</text>\n", &[name, carrier.arrival()]);
    } else {
        out.fill(b"carrier %: none</text>\n", &[name]);
    }
}
