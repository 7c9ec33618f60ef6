// What is wrong with the form of a sheet, refusal 1, in words: at a byte, or where the sheet ends early. Helpers of `reasons`.
#![tactic(auto)]

mod ending;
mod form;

pub use ending::put_end;
pub use form::put_reason;
