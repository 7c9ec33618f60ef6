// The machine's state in lent memory: its places, records, channels and count, and the test that a memory is a state. The
// functions here are helpers between crates: what they require is checked by the entries of `machine`.
#![tactic(auto)]

mod carriers;
mod channels;
mod checks;
mod count;
mod lent;
mod places;
mod start;

pub use carriers::{is_news, set_due, set_planned};
pub use channels::{pop, send};
pub use checks::valid;
pub use count::tick;
pub use lent::State;
pub use places::{
    channel_place, due_place, message_place, state_size, view_place, views_end, views_start,
};
pub use start::write_fresh;
