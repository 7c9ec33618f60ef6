// Channels: a length and four records, oldest first.
ghost use Rattle.std.specs.Prelude.{◌≡◌, ◌∷◌, ◌+◌, ◌-◌, ◌≤◌, ◌<◌, length};
ghost use Rattle.encoding.specs.Places.{state_size};
ghost use Rattle.encoding.specs.InnerSteps.{shifted, popped, pushed, pushed_below, sent_to};

use crate::places::{PLACES, channel_place, message_place};
use floor::Floor;
use route::Route;

// The messages behind the oldest move up, and the last place is cleared.
fn shift(m: &mut [u16], channel: usize)
    requires { (channel + 261 ≤ length m.old) × (channel ≤ 9665) }
    ensures { m.new ≡ shifted m.old channel }
{
    for p in 1..PLACES {
        records::copy(m, message_place(channel, p), message_place(channel, p - 1));
    }
    records::clear(m, message_place(channel, PLACES - 1));
}

// The oldest message leaves the channel that begins at `channel`.
#[tactic(auto, unfolding(encoding::specs::InnerSteps::popped), using(laws::proofs::PutLaws::put_one))]
pub fn pop(m: &mut [u16], channel: usize)
    requires { (channel + 261 ≤ length m.old) × (channel ≤ 9665) }
    ensures { m.new ≡ popped m.old channel }
{
    let count = m[channel];
    shift(m, channel);
    m[channel] = count.saturating_sub(1);
}

// Puts an answer last on the channel that begins at `channel`, if it has capacity.
#[tactic(auto, using(crate::proofs::RecordLaws::push_stores, crate::proofs::RecordLaws::push_full))]
fn push(m: &mut [u16], channel: usize, tag: u16, cells: Route)
    requires { (channel + 261 ≤ length m.old) × (channel ≤ 9665) }
    ensures { m.new ≡ pushed m.old channel (tag ∷ cells) }
{
    let count = m[channel];
    if count < Floor::MAX_DEPTH {
        records::store(m, message_place(channel, count as usize), tag, cells);
        m[channel] = count + 1;
    }
}

// Puts an answer last on every channel from carrier i, that is to each carrier below it.
pub fn send(m: &mut [u16], n: usize, i: usize, tag: u16, cells: Route)
    requires { (i < n) × (n ≤ 8) × (state_size n ≤ length m.old) }
    ensures { m.new ≡ sent_to n i (tag ∷ cells) m.old n }
{
    for k in i + 1..n {
        push(m, channel_place(n, k, i), tag, cells);
    }
}
