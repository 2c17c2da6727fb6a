//! The tokens of statements: words, numbers, texts and symbols, the reserved words, and the split of a text into tokens.
#![tactic(auto)]

mod reserved;
mod scanner;
mod span;
mod token;
mod token_split;
mod tokenizer;

pub use reserved::is_reserved;
pub use token::{Symbol, Token, Tokens};
pub use token_split::Split;
pub use tokenizer::split;
