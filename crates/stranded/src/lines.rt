// The line of a stranded carrier: its number, and the carriers that shut it in.
ghost use Rattle.std.specs.Prelude.{◌+◌, ◌≤◌, ◌<◌, length};
ghost use Rattle.sheet.specs.Text.{lines_of};
ghost use Rattle.reporting.specs.Put.{PutAt};
ghost use Rattle.stranded.specs.Text.{name_of, by_whom, shut_line};

use reporting::put_bytes;

// Puts a space and the number of carrier j + 1, if it is in the set; the column behind it is returned.
fn put_name(set: u16, j: usize, out: &mut [u8], at: usize) -> usize
    requires { (j < 8) × (at + 2 ≤ length out.old) }
    ensures { PutAt (name_of set j) out.old at out.new result }
{
    if bitrows::has(&[set as u32], 0, j) {
        return put_bytes(out, at, &[b' ', b'1' + j as u8]);
    }
    at
}

// Puts the numbers of the carriers of a set; the column behind them is returned.
fn put_names(set: u16, out: &mut [u8], at: usize) -> usize
    requires { at + 16 ≤ length out.old }
    ensures { PutAt (lines_of (name_of set) 8) out.old at out.new result }
{
    let mut end = at;
    for j in 0..8 {
        end = put_name(set, j, out, end);
    }
    end
}

// Puts the end of a line: the carriers of a set, or the cause where there is none; the column behind it is returned.
fn put_by(set: u16, out: &mut [u8], at: usize) -> usize
    requires { at + 22 ≤ length out.old }
    ensures { PutAt (by_whom set) out.old at out.new result }
{
    if set == 0 {
        return put_bytes(out, at, b" walls or the horizon\n");
    }
    let end = put_names(set, out, at);
    put_bytes(out, end, b"\n")
}

// Puts the line of the carrier with i above it, which a set shuts in; the column behind it is returned.
pub fn put_shut(i: usize, set: u16, out: &mut [u8], at: usize) -> usize
    requires { (i < 8) × (at + 45 ≤ length out.old) }
    ensures { PutAt (shut_line i set) out.old at out.new result }
{
    let a = put_bytes(out, at, b"carrier ");
    let b = put_bytes(out, a, &[b'1' + i as u8]);
    let c = put_bytes(out, b, b" is shut in by");
    put_by(set, out, c)
}
