// Positions in the text of a sheet: lines and columns of its bytes, the lines by their newlines and the numbers in their fields, and
// the field that is the cause of a refusal. Helpers of `reasons`.
#![tactic(auto)]

pub mod cause;
pub mod position;
pub mod sheet_line;
