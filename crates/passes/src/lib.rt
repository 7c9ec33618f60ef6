// The passes of the best-route search over a table of sets: forward to the least arrival, backward to the sets that lead there, and the
// walk along them. Helpers of the search: what they require is checked by its entry.
#![tactic(auto)]

pub mod backward;
pub mod docks;
pub mod forward;
pub mod walk;
