// A floor and its routes as one picture that moves: an SVG with the grid, the walls, the docks in the colours of their carriers, a trace
// for each route, the carriers going a cell a beat, the number of the beat, and a legend with the arrivals. A viewer that does not play
// it, or is asked for less motion, shows the carriers at their starts with their traces. For the program `desk`.
#![tactic(auto)]

ghost use Rattle.std.specs.Prelude.{◌≡◌, ◌<◌, length};
ghost use Rattle.io.specs.Counts.{IsPrefixLen};

use canvas::ground;
use canvas::page::Page;
use floor::Floor;
use records::TEAM;
use traces::{beats, carriers};
use wording::Text;

// The length of the longest text, and some more.
pub const TEXT_LENGTH: usize = 65536;

// Puts the head of the picture: its size and its title.
fn put_head(page: Page, out: &mut Text<'_>) {
    let w = page.width();
    let h = page.height();
    out.fill(
        b"<svg xmlns=\"http://www.w3.org/2000/svg\" width=\"%\" height=\"%\" viewBox=\"0 0 % %\"",
        &[w, h, w, h],
    );
    out.put(b" role=\"img\" aria-labelledby=\"title desc\">\n");
    out.fill(
        b"<title id=\"title\">Routes on a floor of % by % cells</title>\n<desc id=\"desc\">",
        &[page.columns as usize, page.rows as usize],
    );
}

// Puts the colours of bodies, docks and traces, eight that colour-blind readers can tell apart.
fn put_colours(out: &mut Text<'_>) {
    out.put(
        b"</desc>\n<style>\n.f1{fill:#e69f00}.f2{fill:#56b4e9}.f3{fill:#009e73}.f4{fill:#f0e442}",
    );
    out.put(b".f5{fill:#0072b2}.f6{fill:#d55e00}.f7{fill:#cc79a7}.f8{fill:#000}\n");
    out.put(b".s1{stroke:#e69f00}.s2{stroke:#56b4e9}.s3{stroke:#009e73}.s4{stroke:#f0e442}");
    out.put(b".s5{stroke:#0072b2}.s6{stroke:#d55e00}.s7{stroke:#cc79a7}.s8{stroke:#000}\n");
}

// Puts the colours of the letters on bodies, and what readers are shown who ask for less motion.
fn put_motion(out: &mut Text<'_>) {
    out.put(b".t1,.t2,.t4,.t7{fill:#000}.t3,.t5,.t6,.t8{fill:#fff}\n");
    out.put(b"@media (prefers-reduced-motion:reduce){.moving{display:none}}\n");
    out.put(b"@media (prefers-reduced-motion:no-preference){.still{display:none}}\n</style>\n");
}

// Puts the patterns of the grid and of the hatching.
fn put_patterns(side: usize, out: &mut Text<'_>) {
    out.fill(
        b"<defs>\n<pattern id=\"grid\" x=\"28\" y=\"28\" width=\"%\" height=\"%\" patternUnits=\"userSpaceOnUse\">",
        &[side, side],
    );
    out.fill(
        b"<path d=\"M% 0H0V%\" fill=\"none\" stroke=\"#ccc\"/></pattern>\n<pattern id=\"hatch\" width=\"6\" height=\"6\"",
        &[side, side],
    );
    out.put(b" patternUnits=\"userSpaceOnUse\" patternTransform=\"rotate(45)\">");
    out.put(b"<path d=\"M0 0V6\" stroke=\"#222\" stroke-width=\"3\"/></pattern>\n");
}

// Puts the window through which a beat's numeral is seen.
fn put_window(page: Page, out: &mut Text<'_>) {
    out.fill(
        b"<clipPath id=\"window\"><rect x=\"%\" y=\"30\" width=\"36\" height=\"28\"/></clipPath>\n</defs>\n",
        &[page.legend() + 40],
    );
}

// Puts the paper of the picture and opens the group of all that is drawn on it.
fn put_paper(page: Page, out: &mut Text<'_>) {
    out.fill(
        b"<rect width=\"%\" height=\"%\" fill=\"#fff\"/>\n<g font-family=\"sans-serif\" font-size=\"14\" fill=\"#222\">\n",
        &[page.width(), page.height()],
    );
}

// Puts all that stands before the drawing.
fn put_front(page: Page, answers: &[u16], out: &mut Text<'_>) {
    put_head(page, out);
    carriers::put_all(page, answers, carriers::put_words, out);
    put_colours(out);
    put_motion(out);
    put_patterns(page.side(), out);
    put_window(page, out);
    put_paper(page, out);
}

// Puts the floor.
fn put_ground(page: Page, walls: &[u16], docks: &[Option<u16>], out: &mut Text<'_>) {
    ground::put_grid(page, out);
    ground::put_walls(page, walls, out);
    ground::put_docks(page, docks, out);
}

// Puts the traces.
fn put_traces(page: Page, answers: &[u16], out: &mut Text<'_>) {
    out.put(
        b"<g fill=\"none\" stroke-width=\"3\" stroke-opacity=\".8\" stroke-linejoin=\"round\" stroke-linecap=\"round\">\n",
    );
    carriers::put_all(page, answers, carriers::put_trace, out);
    out.put(b"</g>\n");
}

// Puts the opening of the group of all bodies.
fn put_bodies(page: Page, out: &mut Text<'_>) {
    let size = if page.small { 12 } else { 16 };
    out.fill(
        b"<g font-size=\"%\" font-weight=\"bold\" text-anchor=\"middle\">\n",
        &[size],
    );
}

// Puts the carriers: the stranded ones, those at their starts, those that move.
fn put_carriers(page: Page, answers: &[u16], out: &mut Text<'_>) {
    put_bodies(page, out);
    carriers::put_all(page, answers, carriers::put_stranded, out);
    out.put(b"<g class=\"still\">\n");
    carriers::put_all(page, answers, carriers::put_still, out);
    out.put(b"</g>\n<g class=\"moving\">\n");
    carriers::put_all(page, answers, carriers::put_moving, out);
    out.put(b"</g>\n</g>\n");
}

// Puts the beat in the legend, as it is at rest.
fn put_beat(page: Page, out: &mut Text<'_>) {
    let x = page.legend();
    out.fill(
        b"<g font-size=\"16\">\n<text x=\"%\" y=\"50\">beat</text><text x=\"%\" y=\"50\">of %</text>\n",
        &[x, x + 80, page.horizon as usize],
    );
    out.fill(
        b"<g class=\"still\"><text x=\"%\" y=\"50\">0</text></g>\n",
        &[x + 44],
    );
}

// Puts the turning of the numerals, a line a beat.
fn put_turning(page: Page, out: &mut Text<'_>) {
    let last = page.horizon as usize;
    out.put(
        b"<g class=\"moving\" clip-path=\"url(#window)\"><g><animateTransform attributeName=\"transform\" type=\"translate\"",
    );
    out.fill(
        b" calcMode=\"discrete\" dur=\"%ms\" repeatCount=\"indefinite\" values=\"0 0",
        &[page.duration()],
    );
    beats::put_turns(1, last, out);
    beats::put_turns(last, last, out);
}

// Puts the numerals of the beats, which turn behind a window.
fn put_numerals(page: Page, out: &mut Text<'_>) {
    put_turning(page, out);
    out.put(b"\"/>\n");
    beats::put_numerals(page, page.horizon as usize, out);
    out.put(b"</g></g>\n</g>\n");
}

// Puts the legend and the end of the picture.
fn put_legend(page: Page, answers: &[u16], out: &mut Text<'_>) {
    put_beat(page, out);
    put_numerals(page, out);
    carriers::put_all(page, answers, carriers::put_line, out);
    out.put(b"</g>\n</svg>\n");
}

// What stands in place p of a floor's docks: its dock p % 4 of carrier p / 4, if there is one.
fn dock_in(f: Floor, p: usize) -> Option<u16>
    requires { p < 32 }
{
    let i = p / 4;
    if i < f.carriers as usize && p % 4 < f.counts[i] as usize {
        Some(f.docks[p])
    } else {
        None
    }
}

// The docks of a floor, four places a carrier.
fn docks_in(f: Floor) -> [Option<u16>; 32]
    ensures { 32 ≡ length result }
{
    let mut docks = [None; 32];
    for p in 0..32 {
        docks[p] = dock_in(f, p);
    }
    docks
}

// The answers of a floor's carriers, with the start of each at beat 0 also where it has no route.
fn answers_of(f: Floor, walls: &[u16]) -> [u16; TEAM]
    ensures { 520 ≡ length result }
{
    let mut m = records::blank();
    let _ = planner::plan(f, walls, &mut m);
    for i in 0..8 {
        m[65 * i + 1] = f.starts[i];
    }
    m
}

// Puts the picture of a floor with its walls in front of a memory; its length is returned.
fn put_picture(f: Floor, walls: &[u16], memory: &mut [u8]) -> usize {
    let page = Page::from(f);
    let answers = answers_of(f, walls);
    let mut out = Text::new(memory);
    put_front(page, &answers, &mut out);
    put_ground(page, walls, &docks_in(f), &mut out);
    put_traces(page, &answers, &mut out);
    put_carriers(page, &answers, &mut out);
    put_legend(page, &answers, &mut out);
    out.at
}

// Puts the picture of a floor that was read, with its walls in front of `walls`; its length is returned.
fn put_read(f: Floor, walls: &[u16], memory: &mut [u8]) -> usize {
    match walls.get(..f.walls as usize) {
        Some(walls) => put_picture(f, walls, memory),
        None => 0,
    }
}

// Prints the picture of any text that is a sheet, and of any other text the line of its refusal; the number of printed bytes is returned.
pub fn print(text: &[u8], out: &mut [u8; TEXT_LENGTH]) -> usize
    ensures { IsPrefixLen result out.new }
{
    let mut walls = sheet::no_walls();
    let n = match sheet::read(text, &mut walls) {
        Ok(f) => put_read(f, &walls, out),
        Err(x) => printing::put_refusal(x.number(), x.place, out),
    };
    wording::within(n, out)
}
