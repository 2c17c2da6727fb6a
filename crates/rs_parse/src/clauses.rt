//! Parsing of predicates.

ghost use Rattle.rs_parse.specs.Read.{Reads};
ghost use Rattle.rs_parse.specs.Reader as spec;

use crate::cursor::Cursor;
use crate::list::{ListItem, Separator, all};
use crate::names::col_ref;
use crate::terms::{literal, param};
use rs_ast::{Clause, Clauses, Cmp, Operand};
use rs_base::ReadFault;
use rs_token::Symbol;
use sqlite_items::Items;
use std::alloc::Global;

/// Parses the right operand of a comparison.
#[tactic(auto, unfolding(crate::specs::Reader::operand_at))]
fn operand(alloc: Global, tokens: &mut Cursor<'_>) -> Result<Operand, ReadFault>
    ensures { Reads (spec.operand_at tokens.old) result tokens.new }
{
    if tokens.begins_with_ident() {
        Ok(Operand::Col(col_ref(tokens)?))
    } else if tokens.begins_with_symbol(Symbol::Colon) {
        Ok(Operand::Param(param(tokens)?))
    } else {
        Ok(Operand::Lit(literal(alloc, tokens)?))
    }
}

/// Parses a comparison.
#[tactic(auto, unfolding(crate::specs::Reader::cmp_at))]
fn cmp(alloc: Global, tokens: &mut Cursor<'_>) -> Result<Cmp, ReadFault>
    ensures { Reads (spec.cmp_at tokens.old) result tokens.new }
{
    let left = col_ref(tokens)?;
    let op = tokens.op()?;
    let right = operand(alloc, tokens)?;
    Ok(Cmp { left, op, right })
}

#[tactic(auto, unfolding(crate::specs::Reader::bracketed_clause_at))]
fn bracketed_clause(alloc: Global, tokens: &mut Cursor<'_>) -> Result<Clause, ReadFault>
    ensures { Reads (spec.bracketed_clause_at tokens.old) result tokens.new }
{
    tokens.expect_symbol(Symbol::Open)?;
    let any = all(alloc, tokens, Separator::Or)?;
    tokens.expect_symbol(Symbol::Close)?;
    Ok(Clause { any })
}

fn single_clause(alloc: Global, tokens: &mut Cursor<'_>) -> Result<Clause, ReadFault>
    ensures { Reads (spec.single_clause_at tokens.old) result tokens.new }
{
    let cmp = cmp(alloc, tokens)?;
    let mut any = Items::new(alloc);
    any.push(cmp)?;
    Ok(Clause { any })
}

#[tactic(auto, unfolding(crate::specs::Reader::clause_at))]
fn clause(alloc: Global, tokens: &mut Cursor<'_>) -> Result<Clause, ReadFault>
    ensures { Reads (spec.clause_at tokens.old) result tokens.new }
{
    if tokens.begins_with_symbol(Symbol::Open) {
        bracketed_clause(alloc, tokens)
    } else {
        single_clause(alloc, tokens)
    }
}

#[tactic(auto, unfolding(crate::specs::Reader::clauses_at))]
fn clauses(alloc: Global, tokens: &mut Cursor<'_>) -> Result<Clauses, ReadFault>
    ensures { Reads (spec.clauses_at tokens.old) result tokens.new }
{
    tokens.expect_keyword(b"where")?;
    all(alloc, tokens, Separator::And)
}

/// Parses an optional WHERE. Without one the predicate has no clauses.
#[tactic(auto, unfolding(crate::specs::Reader::where_at))]
pub fn optional_clauses(alloc: Global, tokens: &mut Cursor<'_>) -> Result<Clauses, ReadFault>
    ensures { Reads (spec.where_at tokens.old) result tokens.new }
{
    if tokens.begins_with_word(b"where") {
        clauses(alloc, tokens)
    } else {
        Ok(Items::new(alloc))
    }
}

impl ListItem for Cmp {
    ghost use Rattle.rs_parse.specs.Reader.{cmp_at};

    ghost item_at = { cmp_at };

    fn item(alloc: Global, tokens: &mut Cursor<'_>) -> Result<Cmp, ReadFault> {
        cmp(alloc, tokens)
    }
}

impl ListItem for Clause {
    ghost use Rattle.rs_parse.specs.Reader.{clause_at};

    ghost item_at = { clause_at };

    fn item(alloc: Global, tokens: &mut Cursor<'_>) -> Result<Clause, ReadFault> {
        clause(alloc, tokens)
    }
}
