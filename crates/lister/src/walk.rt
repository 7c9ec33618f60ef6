// The walk over the tree of runs: following an open step and trying the next one beside it take turns.
ghost use Rattle.std.specs.Prelude.{◌≡◌, true, ◌+◌, ◌≤◌, ◌<◌, length};
ghost use Rattle.orders.specs.Orders.{places, step_at};
ghost use Rattle.encoding.specs.InnerSteps.{open_in};
ghost use Rattle.steps.specs.Inner.{bare};
ghost use Rattle.lister.specs.Inner.{followed_in, beside_in, Branch, BranchListed};

use crate::node::Node;
use floor::Floor;
use search::Rows;

// Follows the open step at a place: lists the runs that go on from there, `left` steps being left with it; the rank behind them.
#[cycle(beside_follow)]
fn follow(
    f: Floor,
    walls: &[u16],
    free: Rows,
    node: &Node,
    left: usize,
    p: usize,
    first: u64,
    rank: u64,
    lines: &mut [u16],
) -> u64
    requires branch { Branch f walls.now free node.now left × (1 ≤ left) }
    requires p_bound { (p < places f.carriers) × (open_in (bare f) node.now.memory (step_at f.carriers p) ≡ true) }
    requires p_bound_2 { rank + length (followed_in f walls.now left node.now.memory p) < 18446744073709551616 }
    ensures { BranchListed f walls.now node.now first (followed_in f walls.now left node.now.memory p) rank
        lines.old result lines.new }
{
    let next = node.after(f, walls, free, p);
    if next.is_silent(f) {
        crate::lines::write_run(lines, first, rank, &next);
        return rank + 1;
    }
    beside(f, walls, free, &next, left - 1, 0, first, rank, lines)
}

// Tries the steps from a place of the ranking on, one beside the other: lists the runs that begin with one; the rank behind them.
#[cycle(beside_follow)]
pub fn beside(
    f: Floor,
    walls: &[u16],
    free: Rows,
    node: &Node,
    left: usize,
    p: usize,
    first: u64,
    rank: u64,
    lines: &mut [u16],
) -> u64
    requires branch { Branch f walls.now free node.now left × (p ≤ places f.carriers) }
    requires p_bound { rank + length (beside_in f walls.now left node.now.memory p) < 18446744073709551616 }
    ensures { BranchListed f walls.now node.now first (beside_in f walls.now left node.now.memory p) rank
        lines.old result lines.new }
{
    if left == 0 || p == trial::count(f.carriers as usize) {
        return rank;
    }
    if node.is_open_at(f, p) {
        let behind = follow(f, walls, free, node, left, p, first, rank, lines);
        return beside(f, walls, free, node, left, p + 1, first, behind, lines);
    }
    beside(f, walls, free, node, left, p + 1, first, rank, lines)
}
