// Numbers in five columns (document 01, 'The sheet'): a field read, tested and written, and the form of lines of fields. Helpers of
// `sheet` and `printing`.
#![tactic(auto)]

mod field;
mod line;
mod reader;
mod slot;

pub use field::{number, put_field};
pub use line::line_form;
pub use reader::{counted_lines, pair_lines};
pub use slot::end_form;
