// The floor of a picture, as parts of an SVG: where things stand on the page, the grid, the walls and the docks; the carriers and their
// answers, read. Helpers of `picture`.
#![tactic(auto)]

pub mod answers;
pub mod ground;
pub mod page;
