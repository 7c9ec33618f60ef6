// The fresh state: all due, none planned, answers none, views not heard, channels empty, count 0.
ghost use Rattle.std.specs.Prelude.{◌≡◌, ◌+◌, ◌*◌, ◌≤◌, ◌<◌, length, replicate};
ghost use Rattle.laws.specs.Memory.{put};
ghost use Rattle.reference.specs.State.{fresh};
ghost use Rattle.encoding.specs.Places.{state_size};
ghost use Rattle.encoding.specs.Encode.{encode, carrier_block, blocks};

use crate::places::{COUNT, carrier_place, state_size};

// Carrier i, fresh.
fn write_carrier(m: &mut [u16], i: usize)
    requires { (i < 8) × (69 + 67 * i ≤ length m.old) }
    ensures { m.new ≡ put m.old (2 + 67 * i) (carrier_block fresh i) }
{
    crate::carriers::write(m, i, 0, 1, 1, [0u16; records::CELLS]);
}

// The first n carriers, fresh.
#[tactic(auto, unfolding(encoding::specs::Encode::blocks), using(crate::proofs::FreshLaws::carriers_more))]
fn write_carriers(m: &mut [u16], n: usize)
    requires { (n ≤ 8) × (2 + 67 * n ≤ length m.old) }
    ensures { m.new ≡ put m.old 2 (blocks n (carrier_block fresh)) }
{
    for i in 0..n {
        write_carrier(m, i);
    }
}

// The fresh state of n carriers.
#[tactic(auto, unfolding(encoding::specs::Places::state_size))]
pub fn write_fresh(m: &mut [u16], n: usize)
    requires { (n ≤ 8) × (state_size n ≤ length m.old) }
    ensures { m.new ≡ put m.old 0 (encode n fresh) }
{
    m[..COUNT].fill(0);
    write_carriers(m, n);
    m[carrier_place(n)..state_size(n)].fill(0);
}
