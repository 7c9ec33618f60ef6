// What an order takes: one of the open places of the ranking.
ghost use Rattle.std.specs.Prelude.{◌≡◌, ◌<◌, ◌≤◌, slice_index};
ghost use Rattle.orders.specs.Orders.{round, places, start_memory, remembered, passing};
ghost use Rattle.trial.specs.Entry.{order_meant, OrderAsked};
ghost use Rattle.trial.specs.Inner.{opens_in, open_count, turn_in, chosen_in};

use floor::{Reason, Refusal};
use state::State;

// The order in which a trial takes steps.
#[derive(Clone, Copy)]
pub enum Order {
    // The first open step of the ranking.
    First,
    // The next open step round the ranking.
    Round,
    // An open step by drawn numbers.
    Drawn,
}

// The orders 1 to 3; any other number is refused with 11.
impl TryFrom<u16> for Order {
    type Error = Refusal;

    ghost try_from_gives = { OrderAsked };

    fn try_from(number: u16) -> Result<Order, Refusal> {
        match number {
            1 => Ok(Order::First),
            2 => Ok(Order::Round),
            3 => Ok(Order::Drawn),
            _ => Err(Refusal {
                reason: Reason::NoOrder,
                place: 0,
            }),
        }
    }
}

// Whether the step at a place is open.
#[tactic(auto, unfolding(crate::specs::Inner::opens_in))]
fn open_at(s: &State, p: usize) -> bool
    requires p_bound { p < places s.now.floor.carriers }
    ensures { result ≡ opens_in s.now.floor s.now.memory.now p }
{
    steps::is_open(
        s.floor,
        s.memory,
        crate::places::step_at(s.floor.carriers as usize, p),
    )
}

// How many of the first k places are open.
pub fn count_open(s: &State, k: usize) -> usize
    requires k_bound { k ≤ places s.now.floor.carriers }
    ensures { (result ≡ open_count s.now.floor s.now.memory.now k) × (result ≤ k) }
{
    let mut count: usize = 0;
    for p in 0..k {
        if open_at(s, p) {
            count += 1;
        }
    }
    count
}

// The open place that has i others before it.
fn place_at(s: &State, i: usize) -> usize
    requires i_bound { i < open_count s.now.floor s.now.memory.now (places s.now.floor.carriers) }
    ensures { (result ≡ slice_index (passing (opens_in s.now.floor s.now.memory.now) (places s.now.floor.carriers)) i)
        × (result < places s.now.floor.carriers) }
{
    let all = crate::places::count(s.floor.carriers as usize);
    let mut before: usize = 0;
    for p in 0..all {
        if open_at(s, p) {
            if before == i {
                return p;
            }
            before += 1;
        }
    }
    unreachable!()
}

// Which of the open places an order takes that remembers kept: order 1 the first; order 2 the one behind those before place kept;
// order 3 the one at the drawn number.
#[tactic(auto, unfolding(crate::specs::Entry::order_meant, crate::specs::Inner::turn_in))]
fn turn(s: &State, order: Order, kept: u32) -> usize
    requires kept_bound { order_meant order ≡ round → kept ≤ places s.now.floor.carriers }
    ensures { result ≡ turn_in (order_meant order) s.now.floor s.now.memory.now kept }
{
    match order {
        Order::First => 0,
        Order::Round => count_open(s, kept as usize),
        Order::Drawn => crate::generator::draw(kept),
    }
}

// The place that an order takes among the open ones, whose number is given.
pub fn choose(s: &State, order: Order, kept: u32, candidates: usize) -> usize
    requires candidates_value { (candidates ≡ open_count s.now.floor s.now.memory.now (places s.now.floor.carriers)) × (0 < candidates) }
    requires kept_bound { order_meant order ≡ round → kept ≤ places s.now.floor.carriers }
    ensures { (result ≡ chosen_in (order_meant order) s.now.floor s.now.memory.now kept) × (result < places s.now.floor.carriers) }
{
    place_at(s, turn(s, order, kept) % candidates)
}

// What an order remembers when it starts.
#[tactic(auto, unfolding(crate::specs::Entry::order_meant, orders::specs::Orders::start_memory))]
pub fn start(order: Order, seed: u32) -> u32
    ensures { result ≡ start_memory (order_meant order) seed }
{
    match order {
        Order::First | Order::Round => 0,
        Order::Drawn => seed,
    }
}

// What an order remembers after it took place p.
#[tactic(auto, unfolding(crate::specs::Entry::order_meant, orders::specs::Orders::remembered))]
pub fn next(order: Order, kept: u32, p: usize) -> u32
    requires { p < 36 }
    ensures { result ≡ remembered (order_meant order) kept p }
{
    match order {
        Order::First => 0,
        Order::Round => p as u32 + 1,
        Order::Drawn => crate::generator::next_number(kept),
    }
}
