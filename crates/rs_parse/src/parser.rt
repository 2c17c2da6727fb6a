//! The parser's entry point.

ghost use Rattle.std.specs.Prelude.{◌≡◌, ◌≤◌, ℕ, length, Err, IfOk};
ghost use Rattle.rs_ast.specs.Limits.{KeepsLimits};
ghost use Rattle.rs_ast.specs.declared.stmt.Stmt.{Stmt};
ghost use Rattle.rs_parse.specs.Parsing.{Spells, IsFault, Statement, ParseGives, offset_of, parsed_of, text_limit};
ghost use Rattle.rs_parse.specs.declared.parser.ParseFault.TheVariants as faults;

use crate::cursor::Cursor;
use crate::statement::request;
use rs_ast::Stmt;
use rs_base::{NoMemory, ReadFault};
use rs_token::{Split, split};
use std::alloc::Global;
use thiserror::Error;

/// The most bytes of a text that is parsed.
pub const TEXT_LIMIT: usize = 8192;

/// The fault of a text that isn't parsed.
#[derive(Clone, Copy, Debug, PartialEq, Eq, Error)]
pub enum ParseFault {
    /// No request has this text. `place` is the byte offset, from 0, at which it stops being a prefix of one.
    #[error("no request has this text")]
    Syntax { place: u32 },
    #[error("out of memory")]
    NoMemory,
}

impl From<NoMemory> for ParseFault {
    ghost use Rattle.std.specs.Prelude.{◌≡◌};
    ghost use Rattle.rs_parse.specs.declared.parser.ParseFault.TheVariants as faults;

    ghost from_gives = { λ _ own. own ≡ faults.NoMemory };

    fn from(_fault: NoMemory) -> ParseFault {
        ParseFault::NoMemory
    }
}

/// Returns the byte offset of the first of the last `left` tokens, or the end of the split if `left` is 0.
fn offset(split: &Split, left: usize) -> usize
    ensures { result ≡ offset_of split.now left }
{
    let number = split.tokens.len().saturating_sub(left);
    match split.starts.get(number) {
        Some(start) => *start,
        None => split.end,
    }
}

/// Reports the byte offset of a fault.
fn fault_at(offset: usize) -> ParseFault
    requires { offset ≤ text_limit }
    ensures { result ≡ faults.Syntax offset }
{
    ParseFault::Syntax {
        place: offset as u32,
    }
}

#[tactic(auto, unfolding(crate::specs::Parsing::parsed_of))]
fn read(alloc: Global, text: &[u8]) -> Result<Stmt, ParseFault>
    requires { length text.now ≤ text_limit }
    ensures { ParseGives result (parsed_of text.now) }
{
    let split = split(alloc, text)?;
    let mut tokens = Cursor::new(split.tokens.as_slice());
    match request(alloc, &mut tokens) {
        Ok(stmt) => {
            if split.whole {
                Ok(stmt)
            } else {
                Err(fault_at(split.end))
            }
        }
        Err(ReadFault::Malformed) => Err(fault_at(offset(&split, tokens.len()))),
        Err(ReadFault::NoMemory) => Err(ParseFault::NoMemory),
    }
}

/// Parses the text of a statement, at most `TEXT_LIMIT` bytes, with or without a semicolon at its end. Words are read in either case. A statement
/// has at most 16 columns, select items, GROUP BY columns, sort keys, parameters, values of a tuple or of an EXECUTE,
/// and assignments, a query at most 6 tables, and a program at most 8 statements; a word has at most 24 bytes, a text
/// literal at most 255, and a number is at most `2 ^ 63 - 1`.
///
/// `Syntax` reports that no request has this text, with the byte offset, from 0, of the first token such that no
/// request begins with the tokens up to it; or of the first byte at which no token begins, if that is reached before;
/// or the text's length, if some request begins with all of the tokens but they are no request. On out of memory
/// nothing is reported of the text. Linear in the text's length.
pub fn parse(alloc: Global, text: &[u8]) -> Result<Stmt, ParseFault>
    requires short { length text.now ≤ text_limit }
    // The text is that of the statement that is returned.
    ensures found { IfOk result (λ stmt. Spells text.now stmt) }
    // The text of a statement is parsed, unless an allocation fails.
    ensures only { (stmt : Stmt) → Spells text.now stmt → ParseGives result (Statement stmt) }
    // The statement keeps the limits of statements.
    ensures limits { IfOk result (λ stmt. KeepsLimits stmt) }
    // The text's fault is at the byte offset that is reported.
    ensures fault { (offset : ℕ) → result ≡ Err (faults.Syntax offset) → IsFault text.now offset }
    // The statement or the byte offset is a function of the text.
    ensures exact { ParseGives result (parsed_of text.now) }
{
    read(alloc, text)
}
