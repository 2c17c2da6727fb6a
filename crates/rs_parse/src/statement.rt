//! Parsing of a whole request.

ghost use Rattle.rs_parse.specs.Read.{Reads};
ghost use Rattle.rs_parse.specs.Reader as spec;

use crate::changes::dml;
use crate::cursor::Cursor;
use crate::programs::{compile, execute, explain, show};
use crate::schema::{create, drop_any, migrate};
use rs_ast::Stmt;
use rs_base::ReadFault;
use rs_token::Symbol;
use std::alloc::Global;

#[tactic(auto, unfolding(crate::specs::Reader::stmt_at))]
fn stmt(alloc: Global, tokens: &mut Cursor<'_>) -> Result<Stmt, ReadFault>
    ensures { Reads (spec.stmt_at tokens.old) result tokens.new }
{
    if tokens.begins_with_word(b"create") {
        create(alloc, tokens)
    } else if tokens.begins_with_word(b"drop") {
        drop_any(tokens)
    } else if tokens.begins_with_word(b"migrate") {
        migrate(tokens)
    } else if tokens.begins_with_word(b"compile") {
        compile(alloc, tokens)
    } else if tokens.begins_with_word(b"execute") {
        execute(alloc, tokens)
    } else if tokens.begins_with_word(b"explain") {
        explain(alloc, tokens)
    } else if tokens.begins_with_word(b"show") {
        show(tokens)
    } else {
        Ok(Stmt::Dml(dml(alloc, tokens)?))
    }
}

/// Parses an optional semicolon.
#[tactic(auto, unfolding(crate::specs::Reader::end_at))]
fn end(tokens: &mut Cursor<'_>) -> Result<(), ReadFault>
    ensures { Reads (spec.end_at tokens.old) result tokens.new }
{
    if tokens.begins_with_symbol(Symbol::Semicolon) {
        tokens.expect_symbol(Symbol::Semicolon)
    } else {
        Ok(())
    }
}

#[tactic(auto, unfolding(crate::specs::Reader::request_at))]
fn ended(alloc: Global, tokens: &mut Cursor<'_>) -> Result<Stmt, ReadFault>
    ensures { Reads (spec.request_at tokens.old) result tokens.new }
{
    let stmt = stmt(alloc, tokens)?;
    end(tokens)?;
    Ok(stmt)
}

/// Parses all of the tokens as one statement.
#[tactic(auto, unfolding(crate::specs::Reader::request_of))]
pub fn request(alloc: Global, tokens: &mut Cursor<'_>) -> Result<Stmt, ReadFault>
    ensures { Reads (spec.request_of tokens.old) result tokens.new }
{
    let stmt = ended(alloc, tokens)?;
    tokens.expect_end(stmt)
}
