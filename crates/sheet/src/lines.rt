// The lines of a sheet, put into a buffer.
ghost use Rattle.std.specs.Prelude.{◌≡◌, ◌++◌, ◌+◌, ◌*◌, ◌%◌, ◌/◌, ◌≤◌, ◌<◌, length};
ghost use Rattle.floor.specs.Checks.{count_of, dock_of};
ghost use Rattle.floor.specs.Accepted.{CountsWithin};
ghost use Rattle.fields.specs.Field.{field_of};
ghost use Rattle.fields.specs.Form.{counted_length};
ghost use Rattle.sheet.specs.Text.{lines_of, head_line, carrier_line, wall_line, carrier_lines, wall_lines, sheet_of};
ghost use Rattle.sheet.specs.Text.{carrier_at, sheet_length};
ghost use Rattle.laws.specs.Memory.{put};

use fields::put_field;
use floor::Floor;

// The two fields of a cell: column and row.
fn put_cell(out: &mut [u8], at: usize, width: u16, c: u16)
    requires at_in_bounds { at + 10 ≤ length out.old }
    requires width_nonzero { 0 < width }
    ensures { out.new ≡ put out.old at (field_of (c % width) ++ field_of (c / width)) }
{
    put_field(out, at, c % width);
    put_field(out, at + 5, c / width);
}

// Line 1.
fn put_head(f: Floor, out: &mut [u8])
    requires { 31 ≤ length out.old }
    ensures { out.new ≡ put out.old 0 (head_line f) }
{
    put_field(out, 0, f.width);
    put_field(out, 5, f.height);
    put_field(out, 10, f.horizon);
    put_field(out, 15, f.depth);
    put_field(out, 20, f.carriers);
    put_field(out, 25, f.walls);
    out[30] = b'\n';
}

// The dock count of carrier i; 0 for one that the record has no place for.
fn dock_count(f: Floor, i: usize) -> usize
    ensures { (result ≡ count_of f i) × (result ≤ 65535) }
{
    match f.counts.get(i) {
        Some(count) => *count as usize,
        None => 0,
    }
}

// The column past the carriers' lines, at which the walls' begin.
pub fn walls_at(f: Floor) -> usize
    ensures { (result ≡ carrier_at f f.carriers) × (result ≤ 100000000000) }
{
    let n = f.carriers as usize;
    let mut at: usize = 31;
    for i in 0..n {
        at += 16 + 10 * dock_count(f, i);
    }
    at
}

// The first docks of a carrier: their columns and rows.
fn put_docks(f: Floor, i: usize, count: usize, out: &mut [u8], at: usize)
    requires i_bound { (i < 8) × (0 < f.width) }
    requires count_bound { (count ≤ 4) × (at + 10 * count ≤ length out.old) }
    ensures { out.new ≡ put out.old at
        (lines_of (λ k. field_of (dock_of f i k % f.width) ++ field_of (dock_of f i k / f.width)) count) }
{
    let width = f.width;
    for k in 0..count {
        put_cell(out, at + 10 * k, width, f.docks[4 * i + k]);
    }
}

// A carrier's line.
fn put_carrier(f: Floor, i: usize, out: &mut [u8], at: usize)
    requires i_bound { (i < 8) × (0 < f.width) }
    requires i_bound_2 { (count_of f i ≤ 4) × (at + counted_length (count_of f i) ≤ length out.old) }
    ensures { out.new ≡ put out.old at (carrier_line f i) }
{
    let width = f.width;
    let start = f.starts[i];
    let count = f.counts[i];
    put_cell(out, at, width, start);
    put_field(out, at + 10, count);
    put_docks(f, i, count as usize, out, at + 15);
    out[at + 15 + 10 * count as usize] = b'\n';
}

// The carriers' lines.
fn put_carriers(f: Floor, out: &mut [u8])
    requires carriers_bound { (f.carriers ≤ 8) × (0 < f.width) }
    requires counts_within { CountsWithin f }
    requires carriers_in_bounds { carrier_at f f.carriers ≤ length out.old }
    ensures { out.new ≡ put out.old 31 (carrier_lines f) }
{
    let n = f.carriers as usize;
    let mut at: usize = 31;
    for i in 0..n {
        put_carrier(f, i, out, at);
        at += 16 + 10 * dock_count(f, i);
    }
}

// A wall's line.
fn put_wall(width: u16, c: u16, out: &mut [u8], at: usize)
    requires width_nonzero { 0 < width }
    requires at_in_bounds { at + 11 ≤ length out.old }
    ensures { out.new ≡ put out.old at (wall_line width c) }
{
    put_cell(out, at, width, c);
    out[at + 10] = b'\n';
}

// The walls' lines.
fn put_walls(f: Floor, walls: &[u16], out: &mut [u8])
    requires walls_in_bounds { (f.walls ≤ length walls.now) × (0 < f.width) }
    requires f_in_bounds { sheet_length f ≤ length out.old }
    ensures { out.new ≡ put out.old (carrier_at f f.carriers) (wall_lines f walls.now) }
{
    let width = f.width;
    let base = walls_at(f);
    let few = &walls[..f.walls as usize];
    for (j, wall) in few.iter().enumerate() {
        put_wall(width, *wall, out, base + 11 * j);
    }
}

// The whole sheet.
pub fn put_sheet(f: Floor, walls: &[u16], out: &mut [u8])
    requires walls_in_bounds { (f.walls ≤ length walls.now) × (0 < f.width) }
    requires carriers_bound { (f.carriers ≤ 8) × CountsWithin f }
    requires f_in_bounds { sheet_length f ≤ length out.old }
    ensures { out.new ≡ put out.old 0 (sheet_of f walls.now) }
{
    put_head(f, out);
    put_carriers(f, out);
    put_walls(f, walls, out);
}
