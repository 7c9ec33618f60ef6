// The test that a memory is a state of a floor: document 01's refusal 10.
ghost use Rattle.std.specs.Prelude.{◌≡◌, cond, ◌+◌, ◌*◌, ◌≤◌, ◌<◌, length, get_or, ltb};
ghost use Rattle.laws.specs.Verdict.{each};
ghost use Rattle.encoding.specs.Places.{state_size};
ghost use Rattle.encoding.specs.Valid.{used_by, cells_valid, record_valid, carrier_valid, place_valid};
ghost use Rattle.encoding.specs.Valid.{channel_valid, pair_valid, count_valid, valid};
ghost use Rattle.state.specs.Numbers.{Largest};

use crate::lent::State;
use crate::places::{
    PLACES, answer_place, channel_place, due_place, message_place, planned_place, view_place,
};
use floor::Floor;

// The largest of some numbers, 0 where there is none. It looks at all of them, so that the compiler takes many at once.
fn largest(numbers: &[u16]) -> u16
    ensures { Largest numbers.now (length numbers.now) result }
{
    let mut most: u16 = 0;
    for x in numbers {
        most = most.max(*x);
    }
    most
}

// Whether some numbers are below a bound.
fn all_below(numbers: &[u16], bound: usize) -> bool
    ensures { result ≡ each (length numbers.now) (λ t. ltb (get_or numbers.now t 0) bound) }
{
    numbers.is_empty() || (largest(numbers) as usize) < bound
}

// The 64 numbers at a place: cells of the grid while cells are used, and 0 behind.
#[tactic(auto, unfolding(encoding::specs::Valid::cells_valid))]
fn cells_valid(m: &[u16], at: usize, used: usize, cells: usize) -> bool
    requires { at + 64 ≤ length m.now }
    ensures { result ≡ cells_valid m.now at used cells }
{
    let n = used.min(records::CELLS);
    all_below(&m[at..at + n], cells) && all_below(&m[at + n..at + records::CELLS], 1)
}

// How many cells of a record are used.
#[tactic(auto, unfolding(encoding::specs::Valid::used_by))]
fn used_by(tag: u16, horizon: u16) -> usize
    ensures { result ≡ used_by tag horizon }
{
    if tag == 2 { horizon as usize + 1 } else { 0 }
}

// The record at a place, its tag being within low to high.
#[tactic(auto, unfolding(encoding::specs::Valid::record_valid, floor::specs::Checks::within))]
fn record_valid(s: &State, at: usize, low: u16, high: u16) -> bool
    requires { at + 65 ≤ length s.now.memory.now }
    ensures { result ≡ record_valid s.now.floor s.now.memory.now at low high }
{
    let tag = s.memory[at];
    (low..=high).contains(&tag)
        && cells_valid(
            s.memory,
            at + 1,
            used_by(tag, s.floor.horizon),
            s.floor.width as usize * s.floor.height as usize,
        )
}

// Carrier i: planned and due are 0 or 1, and its answer is none or a route.
#[tactic(auto, unfolding(encoding::specs::Valid::carrier_valid))]
fn carrier_valid(s: &State, i: usize) -> bool
    requires { (i < 8) × (69 + 67 * i ≤ length s.now.memory.now) }
    ensures { result ≡ carrier_valid s.now.floor s.now.memory.now i }
{
    s.memory[planned_place(i)] <= 1
        && s.memory[due_place(i)] <= 1
        && record_valid(s, answer_place(i), 1, 2)
}

// Place p of the channel that begins at `channel` and has `count` messages. A call in each arm: with the bounds of the tag chosen first and
// one call, every place is tested as one with a message, and a step of eight carriers takes up to half as long again.
#[tactic(auto, unfolding(encoding::specs::Valid::place_valid))]
fn place_valid(s: &State, channel: usize, count: usize, p: usize) -> bool
    requires { (p < 4) × (channel + 261 ≤ length s.now.memory.now) × (channel ≤ 9665) }
    ensures { result ≡ place_valid s.now.floor s.now.memory.now (channel + 1) count p }
{
    let at = message_place(channel, p);
    if p < count {
        record_valid(s, at, 1, 2)
    } else {
        record_valid(s, at, 0, 0)
    }
}

// The channel that begins at `channel`.
#[tactic(auto, unfolding(encoding::specs::Valid::channel_valid))]
fn channel_valid(s: &State, channel: usize) -> bool
    requires { (channel + 261 ≤ length s.now.memory.now) × (channel ≤ 9665) }
    ensures { result ≡ channel_valid s.now.floor s.now.memory.now channel }
{
    let count = s.memory[channel];
    count <= s.floor.depth && (0..PLACES).all(|p| place_valid(s, channel, count as usize, p))
}

// The view that carrier i has of carrier j, and the channel between them.
#[tactic(auto, unfolding(encoding::specs::Valid::pair_valid))]
fn pair_valid(s: &State, i: usize, j: usize) -> bool
    requires { (j < i) × (i < s.now.floor.carriers) }
    ensures { result ≡ pair_valid s.now.floor s.now.memory.now i j }
{
    let n = s.floor.carriers as usize;
    record_valid(s, view_place(n, i, j), 0, 2) && channel_valid(s, channel_place(n, i, j))
}

// The pairs of receiver i.
fn receiver_valid(s: &State, i: usize) -> bool
    requires { i < s.now.floor.carriers }
    ensures { result ≡ each i (pair_valid s.now.floor s.now.memory.now i) }
{
    (0..i).all(|j| pair_valid(s, i, j))
}

// All pairs.
fn pairs_valid(s: &State) -> bool
    ensures { result ≡ each s.now.floor.carriers (λ i. each i (pair_valid s.now.floor s.now.memory.now i)) }
{
    (0..s.floor.carriers as usize).all(|i| receiver_valid(s, i))
}

// All carriers.
#[tactic(auto, unfolding(encoding::specs::Places::state_size))]
fn carriers_valid(s: &State) -> bool
    ensures { result ≡ each s.now.floor.carriers (carrier_valid s.now.floor s.now.memory.now) }
{
    (0..s.floor.carriers as usize).all(|i| carrier_valid(s, i))
}

// Whether the taken count is within its bounds.
#[tactic(auto, unfolding(encoding::specs::Valid::count_valid))]
fn count_valid(m: &[u16]) -> bool
    requires { 2 ≤ length m.now }
    ensures { result ≡ count_valid m.now }
{
    m[0] <= 999 && m[1] <= 999
}

// Whether the memory is a state of the floor. It takes the two apart, not as a `State`: docs/CONTRIBUTING.md names it, so it asks
// what it asked before.
#[tactic(auto, unfolding(encoding::specs::Valid::valid, encoding::specs::Places::state_size))]
pub fn valid(f: Floor, m: &[u16]) -> bool
    requires { (f.carriers ≤ 8) × (state_size f.carriers ≤ length m.now) }
    ensures { result ≡ valid f m.now }
{
    let s = State {
        floor: f,
        memory: m,
    };
    count_valid(m) && carriers_valid(&s) && pairs_valid(&s)
}
