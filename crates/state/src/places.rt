// Where each part of a state lies. The offsets of the state stand here and nowhere else in the code.
ghost use Rattle.std.specs.Prelude.{◌≡◌, ◌+◌, ◌*◌, ◌≤◌, ◌<◌};
ghost use Rattle.encoding.specs.Places.{pairs_before, planned_place, due_place, answer_place, view_place, channel_place, state_size};

use floor::Floor;

// The places of a channel: as many as the largest depth.
pub const PLACES: usize = Floor::MAX_DEPTH as usize;

// The numbers of the taken count.
pub const COUNT: usize = 2;

// The numbers of a carrier: planned, due, its answer.
const CARRIER: usize = 2 + records::SIZE;

// The numbers of a channel: its length and its places.
const CHANNEL: usize = 1 + PLACES * records::SIZE;

// The numbers of a pair: a view and a channel.
const PAIR: usize = records::SIZE + CHANNEL;

// The pairs with a receiver below i.
#[tactic(auto, unfolding(encoding::specs::Places::pairs_before), using(crate::proofs::PlaceLaws::pairs_more, crate::proofs::PlaceLaws::pairs_most))]
pub fn pairs_before(i: usize) -> usize
    requires { i ≤ 8 }
    ensures { (result ≡ pairs_before i) × (result ≤ 28) }
{
    let mut p: usize = 0;
    for k in 0..i {
        p += k;
    }
    p
}

// Where the numbers of carrier i begin, right behind those of the carriers before it; of n carriers, the first view is at the place n.
pub fn carrier_place(i: usize) -> usize
    requires { i ≤ 8 }
    ensures { result ≡ 2 + 67 * i }
{
    COUNT + CARRIER * i
}

// The flag planned of carrier i.
#[tactic(auto, unfolding(encoding::specs::Places::planned_place))]
pub fn planned_place(i: usize) -> usize
    requires { i < 8 }
    ensures { (result ≡ planned_place i) × (result ≡ 2 + 67 * i) }
{
    carrier_place(i)
}

// The flag due of carrier i.
#[tactic(auto, unfolding(encoding::specs::Places::due_place))]
pub fn due_place(i: usize) -> usize
    requires { i < 8 }
    ensures { (result ≡ due_place i) × (result ≡ 3 + 67 * i) }
{
    carrier_place(i) + 1
}

// The answer of carrier i.
#[tactic(auto, unfolding(encoding::specs::Places::answer_place))]
pub fn answer_place(i: usize) -> usize
    requires { i < 8 }
    ensures { (result ≡ answer_place i) × (result ≡ 4 + 67 * i) }
{
    carrier_place(i) + 2
}

// The view that carrier i has of carrier j.
pub fn view_place(n: usize, i: usize, j: usize) -> usize
    requires { (j < i) × (i < n) × (n ≤ 8) }
    ensures { (result ≡ view_place n i j) × (result + 65 ≤ state_size n) × (result ≤ 9665) }
{
    views_start(n, i) + records::SIZE * j
}

// The first view that carrier i has; the views of carrier i stand one behind the other.
pub fn views_start(n: usize, i: usize) -> usize
    requires { (i < n) × (n ≤ 8) }
    ensures { (result ≡ view_place n i 0) × (result + 65 * i ≤ state_size n) × (result ≤ 9665) }
{
    carrier_place(n) + records::SIZE * pairs_before(i)
}

// The place behind the last view that carrier i has.
pub fn views_end(n: usize, i: usize) -> usize
    requires { (i < n) × (n ≤ 8) }
    ensures { (result ≡ view_place n i 0 + 65 * i) × (result ≤ state_size n) }
{
    views_start(n, i) + records::SIZE * i
}

// The channel from carrier j to carrier i.
pub fn channel_place(n: usize, i: usize, j: usize) -> usize
    requires { (j < i) × (i < n) × (n ≤ 8) }
    ensures { (result ≡ channel_place n i j) × (result + 261 ≤ state_size n) × (result ≤ 9665) }
{
    carrier_place(n) + records::SIZE * pairs_before(n) + CHANNEL * (pairs_before(i) + j)
}

// Place p of the channel that begins at `channel`; the oldest message stands in place 0.
pub fn message_place(channel: usize, p: usize) -> usize
    requires { (channel ≤ 9665) × (p < 4) }
    ensures { (result ≡ channel + 1 + 65 * p) × (result + 65 ≤ channel + 261) }
{
    channel + 1 + records::SIZE * p
}

// The needed length of a state.
#[tactic(auto, unfolding(encoding::specs::Places::state_size))]
pub fn state_size(n: usize) -> usize
    requires { n ≤ 8 }
    ensures { (result ≡ state_size n) × (result ≤ 9666) }
{
    carrier_place(n) + PAIR * pairs_before(n)
}
