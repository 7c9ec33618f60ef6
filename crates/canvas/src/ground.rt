// The floor of a picture: its grid with labels, its walls, its docks.
ghost use Rattle.std.specs.Prelude.{◌≡◌, ◌+◌, ◌≤◌, ◌<◌, length};

use crate::page::Page;
use wording::Text;

// Puts the labels of the columns, and of the rows.
fn put_labels(page: Page, out: &mut Text<'_>)
    ensures same_memory { out.new.bytes.ghost_name ≡ out.old.bytes.ghost_name }
    ensures same_length { length out.new.bytes.now ≡ length out.old.bytes.now }
{
    for k in 0..page.columns {
        out.fill(
            b"<text x=\"%\" y=\"20\" text-anchor=\"middle\">%</text>\n",
            &[page.middle(k), k as usize],
        );
    }
    for k in 0..page.rows {
        out.fill(
            b"<text x=\"22\" y=\"%\" text-anchor=\"end\">%</text>\n",
            &[page.middle(k) + 4, k as usize],
        );
    }
}

// Puts the grid and its labels.
pub fn put_grid(page: Page, out: &mut Text<'_>)
    ensures same_memory { out.new.bytes.ghost_name ≡ out.old.bytes.ghost_name }
    ensures same_length { length out.new.bytes.now ≡ length out.old.bytes.now }
{
    out.fill(
        b"<rect x=\"28\" y=\"28\" width=\"%\" height=\"%\" fill=\"url(#grid)\" stroke=\"#999\"/>\n<g font-size=\"11\" fill=\"#555\">\n",
        &[page.cells(page.columns), page.cells(page.rows)],
    );
    put_labels(page, out);
    out.put(b"</g>\n");
}

// Puts the square of a cell as a part of a path.
fn put_square(page: Page, c: u16, out: &mut Text<'_>)
    ensures same_memory { out.new.bytes.ghost_name ≡ out.old.bytes.ghost_name }
    ensures same_length { length out.new.bytes.now ≡ length out.old.bytes.now }
{
    let (x, y) = page.corner_of(c);
    let side = page.side();
    out.fill(b"M% %h%v%h-%z", &[x, y, side, side, side]);
}

// Puts the walls.
pub fn put_walls(page: Page, walls: &[u16], out: &mut Text<'_>)
    ensures same_memory { out.new.bytes.ghost_name ≡ out.old.bytes.ghost_name }
    ensures same_length { length out.new.bytes.now ≡ length out.old.bytes.now }
{
    out.put(b"<path fill=\"#444\" d=\"");
    for &wall in walls {
        put_square(page, wall, out);
    }
    out.put(b"\"/>\n");
}

// Dock p of those in a memory; cell 0 past its end.
fn dock(docks: &[Option<u16>], p: usize) -> Option<u16> {
    *docks.get(p).unwrap_or(&Some(0))
}

// Whether a cell is one of the four docks from a place on.
fn has_dock(docks: &[Option<u16>], at: usize, c: u16) -> bool
    requires { at ≤ 32 }
{
    (at..at + 4).any(|p| dock(docks, p) == Some(c))
}

// The number of carriers, of those before carrier n, that have a cell as a dock.
fn sharers(docks: &[Option<u16>], n: usize, c: u16) -> usize
    requires { n ≤ 8 }
    ensures { result ≤ n }
{
    (0..n).filter(|i| has_dock(docks, 4 * *i, c)).count()
}

// Where stripe k of `all` begins within a cell.
fn stripe(page: Page, k: usize, all: usize) -> usize
    requires { k ≤ 9 }
    ensures { result ≤ 40 }
{
    (page.side() * k).checked_div(all).unwrap_or(0).min(40)
}

// Puts a dock of carrier i, counted from 0: the carrier's stripe of the cell, which is parted among all that have it.
fn put_stripe(page: Page, i: usize, c: u16, before: usize, all: usize, out: &mut Text<'_>)
    requires { (i < 8) × (before ≤ 8) }
    ensures same_memory { out.new.bytes.ghost_name ≡ out.old.bytes.ghost_name }
    ensures same_length { length out.new.bytes.now ≡ length out.old.bytes.now }
{
    let from = stripe(page, before, all);
    let to = stripe(page, before + 1, all);
    let (x, y) = page.corner_of(c);
    out.fill(
        b"<rect class=\"f%\" x=\"%\" y=\"%\" width=\"%\" height=\"%\" fill-opacity=\".4\"/>\n",
        &[i + 1, x + from, y, to.saturating_sub(from), page.side()],
    );
}

// Puts the edge of a dock.
fn put_edge(page: Page, c: u16, out: &mut Text<'_>)
    ensures same_memory { out.new.bytes.ghost_name ≡ out.old.bytes.ghost_name }
    ensures same_length { length out.new.bytes.now ≡ length out.old.bytes.now }
{
    out.put(b"<path d=\"");
    put_square(page, c, out);
    out.put(b"\" fill=\"none\" stroke=\"#222\" stroke-dasharray=\"4 3\"/>\n");
}

// Puts the docks of all carriers, four places each.
pub fn put_docks(page: Page, docks: &[Option<u16>], out: &mut Text<'_>)
    ensures same_memory { out.new.bytes.ghost_name ≡ out.old.bytes.ghost_name }
    ensures same_length { length out.new.bytes.now ≡ length out.old.bytes.now }
{
    for p in 0..32 {
        if let Some(c) = dock(docks, p) {
            let i = p / 4;
            let before = sharers(docks, i, c);
            let all = sharers(docks, 8, c);
            put_stripe(page, i, c, before, all, out);
            put_edge(page, c, out);
        }
    }
}
