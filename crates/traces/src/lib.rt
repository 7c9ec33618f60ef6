// What a picture has for each carrier, its trace, its body and its line in the legend, and for each beat. Helpers of `picture`.
#![tactic(auto)]

pub mod beats;
pub mod carriers;
