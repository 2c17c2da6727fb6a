//! The encodings of fields, written and read: bytes, numbers, integers and texts.
#![tactic(auto)]

mod fields;
mod laws;
mod put;
mod read;

pub use fields::Fields;
pub use laws::{
    bytes_of_count, bytes_of_int, bytes_of_text, counts_are_read, each_count, each_int, each_text,
    encoded_once, length_of_count, length_of_int, length_of_text, longest_count, numbers_are_read,
    one_count, one_int, one_text, written,
};
pub use put::{put_byte, put_count, put_int, put_text, put_u32, put_u64};
