//! Parsing of INSERT, UPDATE and DELETE, and of all statements on rows.

ghost use Rattle.rs_parse.specs.Read.{Reads};
ghost use Rattle.rs_parse.specs.Reader as spec;

use crate::clauses::optional_clauses;
use crate::cursor::Cursor;
use crate::list::{Separator, all, separated_list};
use crate::names::name;
use crate::queries::select;
use rs_ast::Dml;
use rs_base::ReadFault;
use std::alloc::Global;

#[tactic(auto, unfolding(crate::specs::Reader::insert_at))]
fn insert(alloc: Global, tokens: &mut Cursor<'_>) -> Result<Dml, ReadFault>
    ensures { Reads (spec.insert_at tokens.old) result tokens.new }
{
    tokens.expect_keyword(b"insert")?;
    tokens.expect_keyword(b"into")?;
    let name = name(tokens)?;
    tokens.expect_keyword(b"values")?;
    let rows = all(alloc, tokens, Separator::Comma)?;
    Ok(Dml::Insert { name, rows })
}

#[tactic(auto, unfolding(crate::specs::Reader::update_at))]
fn update(alloc: Global, tokens: &mut Cursor<'_>) -> Result<Dml, ReadFault>
    ensures { Reads (spec.update_at tokens.old) result tokens.new }
{
    tokens.expect_keyword(b"update")?;
    let name = name(tokens)?;
    tokens.expect_keyword(b"set")?;
    let sets = separated_list(alloc, tokens, Separator::Comma, 15)?;
    let clauses = optional_clauses(alloc, tokens)?;
    Ok(Dml::Update {
        name,
        sets,
        clauses,
    })
}

#[tactic(auto, unfolding(crate::specs::Reader::delete_at))]
fn delete(alloc: Global, tokens: &mut Cursor<'_>) -> Result<Dml, ReadFault>
    ensures { Reads (spec.delete_at tokens.old) result tokens.new }
{
    tokens.expect_keyword(b"delete")?;
    tokens.expect_keyword(b"from")?;
    let name = name(tokens)?;
    let clauses = optional_clauses(alloc, tokens)?;
    Ok(Dml::Delete { name, clauses })
}

/// Parses a statement on rows.
#[tactic(auto, unfolding(crate::specs::Reader::dml_at))]
pub fn dml(alloc: Global, tokens: &mut Cursor<'_>) -> Result<Dml, ReadFault>
    ensures { Reads (spec.dml_at tokens.old) result tokens.new }
{
    if tokens.begins_with_word(b"select") {
        Ok(Dml::Select(select(alloc, tokens)?))
    } else if tokens.begins_with_word(b"insert") {
        insert(alloc, tokens)
    } else if tokens.begins_with_word(b"update") {
        update(alloc, tokens)
    } else {
        delete(alloc, tokens)
    }
}
