//! The tokenizer.

ghost use Rattle.std.specs.Prelude.{◌≡◌, IfOk};
ghost use Rattle.rs_token.specs.Tokens as spec;

use crate::scanner::Scanner;
use crate::token_split::Split;
use rs_base::{NoMemory, with_room};
use std::alloc::Global;

/// The number of tokens that most texts don't exceed.
const ROOM: usize = 16;

/// Splits a text into tokens, up to the first byte at which no token begins. Linear in the text's length.
pub fn split(alloc: Global, text: &[u8]) -> Result<Split, NoMemory>
    ensures { IfOk result (λ split. split ≡ spec.split_of text.now) }
{
    let mut tokens = with_room(alloc, ROOM)?;
    let mut starts = with_room(alloc, ROOM)?;
    let mut scanner = Scanner::new(text);
    loop {
        scanner.skip_blanks();
        let offset = text.len() - scanner.len();
        let Some(token) = scanner.next(alloc)? else {
            return Ok(Split {
                tokens,
                starts,
                end: offset,
                whole: offset == text.len(),
            });
        };
        tokens.push(token)?;
        starts.push(offset)?;
    }
}
