//! The split of a text into tokens.

use crate::token::Tokens;
use sqlite_items::Items;

/// A text's tokens, the byte offset at which each begins, and the byte offset at which the split ends.
#[derive(Drop)]
pub struct Split {
    pub tokens: Tokens,
    pub starts: Items<usize>,
    /// The text's length if it is split to its end, and otherwise the offset of the first byte reached at which no token
    /// begins.
    pub end: usize,
    /// Whether the text is split to its end.
    pub whole: bool,
}
