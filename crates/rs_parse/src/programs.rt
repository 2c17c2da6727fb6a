//! Parsing of statements on programs, and of EXPLAIN and SHOW.

ghost use Rattle.rs_parse.specs.Read.{Reads};
ghost use Rattle.rs_parse.specs.Reader as spec;

use crate::changes::dml;
use crate::cursor::Cursor;
use crate::list::{Separator, separated_list};
use crate::queries::select;
use rs_ast::{Dml, Dmls, Idents, Stmt};
use rs_base::{ReadFault, Row};
use rs_token::Symbol;
use sqlite_items::Items;
use std::alloc::Global;

#[tactic(auto, unfolding(crate::specs::Reader::dml_ended_at))]
fn dml_ended(alloc: Global, tokens: &mut Cursor<'_>) -> Result<Dml, ReadFault>
    ensures { Reads (spec.dml_ended_at tokens.old) result tokens.new }
{
    let dml = dml(alloc, tokens)?;
    tokens.expect_symbol(Symbol::Semicolon)?;
    Ok(dml)
}

/// Parses one to eight statements, each with its semicolon.
#[tactic(auto, unfolding(crate::specs::Reader::body_at))]
fn body(alloc: Global, tokens: &mut Cursor<'_>) -> Result<Dmls, ReadFault>
    ensures { Reads (spec.body_at tokens.old) result tokens.new }
{
    let mut body = Items::new(alloc);
    body.push(dml_ended(alloc, tokens)?)?;
    for _ in 0..7u32 {
        if !tokens.begins_with_dml() {
            return Ok(body);
        }
        body.push(dml_ended(alloc, tokens)?)?;
    }
    Ok(body)
}

fn params(alloc: Global, tokens: &mut Cursor<'_>) -> Result<Idents, ReadFault>
    ensures { Reads (spec.list_or_none_at spec.is_ident_token spec.ident_at 15 tokens.old) result tokens.new }
{
    if tokens.begins_with_ident() {
        separated_list(alloc, tokens, Separator::Comma, 15)
    } else {
        Ok(Items::new(alloc))
    }
}

fn given(alloc: Global, tokens: &mut Cursor<'_>) -> Result<Row, ReadFault>
    ensures { Reads (spec.list_or_none_at spec.begins_literal spec.literal_at 15 tokens.old) result tokens.new }
{
    if tokens.begins_with_literal() {
        separated_list(alloc, tokens, Separator::Comma, 15)
    } else {
        Ok(Items::new(alloc))
    }
}

#[tactic(auto, unfolding(crate::specs::Reader::compile_at))]
pub fn compile(alloc: Global, tokens: &mut Cursor<'_>) -> Result<Stmt, ReadFault>
    ensures { Reads (spec.compile_at tokens.old) result tokens.new }
{
    tokens.expect_keyword(b"compile")?;
    let program = tokens.ident()?;
    tokens.expect_symbol(Symbol::Open)?;
    let params = params(alloc, tokens)?;
    tokens.expect_symbol(Symbol::Close)?;
    tokens.expect_keyword(b"as")?;
    let body = body(alloc, tokens)?;
    tokens.expect_keyword(b"end")?;
    Ok(Stmt::Compile {
        program,
        params,
        body,
    })
}

#[tactic(auto, unfolding(crate::specs::Reader::execute_at))]
pub fn execute(alloc: Global, tokens: &mut Cursor<'_>) -> Result<Stmt, ReadFault>
    ensures { Reads (spec.execute_at tokens.old) result tokens.new }
{
    tokens.expect_keyword(b"execute")?;
    let program = tokens.ident()?;
    tokens.expect_symbol(Symbol::Open)?;
    let values = given(alloc, tokens)?;
    tokens.expect_symbol(Symbol::Close)?;
    Ok(Stmt::Execute { program, values })
}

#[tactic(auto, unfolding(crate::specs::Reader::explain_at))]
pub fn explain(alloc: Global, tokens: &mut Cursor<'_>) -> Result<Stmt, ReadFault>
    ensures { Reads (spec.explain_at tokens.old) result tokens.new }
{
    tokens.expect_keyword(b"explain")?;
    Ok(Stmt::Explain(select(alloc, tokens)?))
}

#[tactic(auto, unfolding(crate::specs::Reader::show_at))]
pub fn show(tokens: &mut Cursor<'_>) -> Result<Stmt, ReadFault>
    ensures { Reads (spec.show_at tokens.old) result tokens.new }
{
    tokens.expect_keyword(b"show")?;
    if tokens.begins_with_word(b"sections") {
        tokens.expect_keyword(b"sections")?;
        Ok(Stmt::ShowSections)
    } else {
        tokens.expect_keyword(b"cache")?;
        Ok(Stmt::ShowCache)
    }
}
