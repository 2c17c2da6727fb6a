//! What the programs of cases have in common: files of cases, the words of a line, and bytes that are put together.
#![tactic(auto)]

mod cases;
mod notation;
mod output;
mod values;
mod words;

pub use cases::{Cases, check_cases};
pub use notation::{expand, unescaped};
pub use output::Output;
pub use values::{read_row, read_rows, read_value};
pub use words::Words;
