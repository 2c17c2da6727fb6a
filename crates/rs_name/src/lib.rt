//! System-wide names: resolving written names, and parsing and printing.
#![tactic(auto)]

mod laws;
mod reading;
mod resolving;

pub use laws::{
    different_texts, each_name_is_read, plain_is_synonym, printed_is_text, read_is_printed,
    resolved_again, synonym_is_of_plain, whole_is_itself, written_parts_stay,
};
pub use reading::parse_swn;
pub use resolving::resolve;
pub use rs_base::print_swn;
