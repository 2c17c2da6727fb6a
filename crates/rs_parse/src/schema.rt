//! Parsing of CREATE, DROP and MIGRATE.

ghost use Rattle.rs_parse.specs.Read.{Reads};
ghost use Rattle.rs_parse.specs.Reader as spec;

use crate::cursor::Cursor;
use crate::list::{Separator, separated_list};
use crate::names::name;
use rs_ast::Stmt;
use rs_base::ReadFault;
use rs_token::Symbol;
use std::alloc::Global;

#[tactic(auto, unfolding(crate::specs::Reader::create_table_at))]
fn create_table(alloc: Global, tokens: &mut Cursor<'_>) -> Result<Stmt, ReadFault>
    ensures { Reads (spec.create_table_at tokens.old) result tokens.new }
{
    tokens.expect_keyword(b"table")?;
    let name = name(tokens)?;
    tokens.expect_symbol(Symbol::Open)?;
    let columns = separated_list(alloc, tokens, Separator::Comma, 15)?;
    tokens.expect_symbol(Symbol::Close)?;
    Ok(Stmt::CreateTable { name, columns })
}

#[tactic(auto, unfolding(crate::specs::Reader::create_index_at))]
fn create_index(tokens: &mut Cursor<'_>) -> Result<Stmt, ReadFault>
    ensures { Reads (spec.create_index_at tokens.old) result tokens.new }
{
    tokens.expect_keyword(b"index")?;
    let index = tokens.ident()?;
    tokens.expect_keyword(b"on")?;
    let name = name(tokens)?;
    tokens.expect_symbol(Symbol::Open)?;
    let column = tokens.ident()?;
    tokens.expect_symbol(Symbol::Close)?;
    Ok(Stmt::CreateIndex {
        index,
        name,
        column,
    })
}

#[tactic(auto, unfolding(crate::specs::Reader::create_synonym_at))]
fn create_synonym(tokens: &mut Cursor<'_>) -> Result<Stmt, ReadFault>
    ensures { Reads (spec.create_synonym_at tokens.old) result tokens.new }
{
    tokens.expect_keyword(b"synonym")?;
    let synonym = tokens.ident()?;
    tokens.expect_keyword(b"for")?;
    let name = name(tokens)?;
    Ok(Stmt::CreateSynonym { synonym, name })
}

#[tactic(auto, unfolding(crate::specs::Reader::create_at))]
pub fn create(alloc: Global, tokens: &mut Cursor<'_>) -> Result<Stmt, ReadFault>
    ensures { Reads (spec.create_at tokens.old) result tokens.new }
{
    tokens.expect_keyword(b"create")?;
    if tokens.begins_with_word(b"table") {
        create_table(alloc, tokens)
    } else if tokens.begins_with_word(b"index") {
        create_index(tokens)
    } else {
        create_synonym(tokens)
    }
}

#[tactic(auto, unfolding(crate::specs::Reader::drop_table_at))]
fn drop_table(tokens: &mut Cursor<'_>) -> Result<Stmt, ReadFault>
    ensures { Reads (spec.drop_table_at tokens.old) result tokens.new }
{
    tokens.expect_keyword(b"table")?;
    let name = name(tokens)?;
    Ok(Stmt::DropTable { name })
}

#[tactic(auto, unfolding(crate::specs::Reader::drop_index_at))]
fn drop_index(tokens: &mut Cursor<'_>) -> Result<Stmt, ReadFault>
    ensures { Reads (spec.drop_index_at tokens.old) result tokens.new }
{
    tokens.expect_keyword(b"index")?;
    let index = tokens.ident()?;
    tokens.expect_keyword(b"on")?;
    let name = name(tokens)?;
    Ok(Stmt::DropIndex { index, name })
}

#[tactic(auto, unfolding(crate::specs::Reader::drop_synonym_at))]
fn drop_synonym(tokens: &mut Cursor<'_>) -> Result<Stmt, ReadFault>
    ensures { Reads (spec.drop_synonym_at tokens.old) result tokens.new }
{
    tokens.expect_keyword(b"synonym")?;
    let synonym = tokens.ident()?;
    Ok(Stmt::DropSynonym { synonym })
}

#[tactic(auto, unfolding(crate::specs::Reader::drop_program_at))]
fn drop_program(tokens: &mut Cursor<'_>) -> Result<Stmt, ReadFault>
    ensures { Reads (spec.drop_program_at tokens.old) result tokens.new }
{
    tokens.expect_keyword(b"program")?;
    let program = tokens.ident()?;
    Ok(Stmt::DropProgram { program })
}

#[tactic(auto, unfolding(crate::specs::Reader::drop_at))]
pub fn drop_any(tokens: &mut Cursor<'_>) -> Result<Stmt, ReadFault>
    ensures { Reads (spec.drop_at tokens.old) result tokens.new }
{
    tokens.expect_keyword(b"drop")?;
    if tokens.begins_with_word(b"table") {
        drop_table(tokens)
    } else if tokens.begins_with_word(b"index") {
        drop_index(tokens)
    } else if tokens.begins_with_word(b"synonym") {
        drop_synonym(tokens)
    } else {
        drop_program(tokens)
    }
}

#[tactic(auto, unfolding(crate::specs::Reader::migrate_at))]
pub fn migrate(tokens: &mut Cursor<'_>) -> Result<Stmt, ReadFault>
    ensures { Reads (spec.migrate_at tokens.old) result tokens.new }
{
    tokens.expect_keyword(b"migrate")?;
    tokens.expect_keyword(b"table")?;
    let name = name(tokens)?;
    tokens.expect_keyword(b"to")?;
    let to = tokens.site()?;
    Ok(Stmt::Migrate { name, to })
}
