//! The parser of statements, by recursive descent over the tokens of a text.
#![tactic(auto)]

mod changes;
mod clauses;
mod cursor;
mod list;
mod names;
mod parser;
mod programs;
mod queries;
mod schema;
mod statement;
mod terms;
mod token;

pub use parser::{ParseFault, TEXT_LIMIT, parse};
