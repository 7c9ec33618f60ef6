// The lines of listed runs: 23 numbers each, how many steps a run has, then two numbers a step as in a report.
ghost use Rattle.std.specs.Prelude.{◌≡◌, ◌+◌, ◌≤◌, length, take};
ghost use Rattle.laws.specs.Memory.{put};
ghost use Rattle.lister.specs.Lines.{line_written};
ghost use Rattle.lister.specs.Inner.{trail_of};

use crate::node::{Node, STEPS, TRAIL};

// The numbers of a line.
pub const LINE: usize = TRAIL + 1;

// Writes the first k numbers of a trail from a place on.
pub fn write_trail(lines: &mut [u16], at: usize, trail: &[u16], k: usize)
    requires { (k ≤ length trail.now) × (at + k ≤ length lines.old) }
    ensures { lines.new ≡ put lines.old at (take k trail.now) }
{
    lines[at..at + k].copy_from_slice(&trail[..k]);
}

// Writes the run of a rank as its line, where the lines are those of the ranks from `first` on; a run that has none is not written.
pub fn write_run(lines: &mut [u16], first: u64, rank: u64, node: &Node)
    requires { node.now.steps ≤ 11 }
    ensures { lines.new ≡ line_written first rank node.now.steps (trail_of node.now) lines.old }
{
    if rank < first {
        return;
    }
    let line = rank - first;
    let all = lines.len() / LINE;
    if line >= all as u64 {
        return;
    }
    let at = LINE * line as usize;
    lines[at] = node.steps as u16;
    write_trail(lines, at + 1, &node.trail, 2 * node.steps);
}
