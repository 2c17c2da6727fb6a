//! Parsing of values, parameters and expressions.

ghost use Rattle.rs_parse.specs.Read.{Reads, optional_at};
ghost use Rattle.rs_parse.specs.Reader as spec;

use crate::cursor::Cursor;
use crate::list::{ListItem, Separator, separated_list};
use rs_ast::{Arith, Expr, Set, Term, TermRow};
use rs_base::{Ident, ReadFault, Value};
use rs_token::Symbol;
use std::alloc::Global;

#[tactic(auto, unfolding(crate::specs::Reader::negative_at))]
fn negative(tokens: &mut Cursor<'_>) -> Result<Value, ReadFault>
    ensures { Reads (spec.negative_at tokens.old) result tokens.new }
{
    tokens.expect_symbol(Symbol::Minus)?;
    tokens.negated()
}

/// Parses a literal: a number, `-` and a number, or a text literal.
#[tactic(auto, unfolding(crate::specs::Reader::literal_at))]
pub fn literal(alloc: Global, tokens: &mut Cursor<'_>) -> Result<Value, ReadFault>
    ensures { Reads (spec.literal_at tokens.old) result tokens.new }
{
    if tokens.begins_with_symbol(Symbol::Minus) {
        negative(tokens)
    } else {
        tokens.unsigned(alloc)
    }
}

/// Parses a parameter: `:name`.
#[tactic(auto, unfolding(crate::specs::Reader::param_at))]
pub fn param(tokens: &mut Cursor<'_>) -> Result<Ident, ReadFault>
    ensures { Reads (spec.param_at tokens.old) result tokens.new }
{
    tokens.expect_symbol(Symbol::Colon)?;
    tokens.ident()
}

/// Parses a value of INSERT: a literal or a parameter.
#[tactic(auto, unfolding(crate::specs::Reader::val_at))]
fn val(alloc: Global, tokens: &mut Cursor<'_>) -> Result<Term, ReadFault>
    ensures { Reads (spec.val_at tokens.old) result tokens.new }
{
    if tokens.begins_with_symbol(Symbol::Colon) {
        Ok(Term::Param(param(tokens)?))
    } else {
        Ok(Term::Lit(literal(alloc, tokens)?))
    }
}

#[tactic(auto, unfolding(crate::specs::Reader::term_at))]
fn term(alloc: Global, tokens: &mut Cursor<'_>) -> Result<Term, ReadFault>
    ensures { Reads (spec.term_at tokens.old) result tokens.new }
{
    if tokens.begins_with_ident() {
        Ok(Term::Col(tokens.ident()?))
    } else {
        val(alloc, tokens)
    }
}

#[tactic(auto, unfolding(crate::specs::Reader::more_term_at))]
fn more_term(alloc: Global, tokens: &mut Cursor<'_>) -> Result<(Arith, Term), ReadFault>
    ensures { Reads (spec.more_term_at tokens.old) result tokens.new }
{
    let arith = tokens.arith()?;
    let term = term(alloc, tokens)?;
    Ok((arith, term))
}

fn optional_term(alloc: Global, tokens: &mut Cursor<'_>) -> Result<Option<(Arith, Term)>, ReadFault>
    ensures { Reads (optional_at spec.is_arith_token spec.more_term_at tokens.old) result tokens.new }
{
    if tokens.begins_with_arith() {
        Ok(Some(more_term(alloc, tokens)?))
    } else {
        Ok(None)
    }
}

#[tactic(auto, unfolding(crate::specs::Reader::expr_at))]
fn expr(alloc: Global, tokens: &mut Cursor<'_>) -> Result<Expr, ReadFault>
    ensures { Reads (spec.expr_at tokens.old) result tokens.new }
{
    let first = term(alloc, tokens)?;
    let more = optional_term(alloc, tokens)?;
    Ok(Expr { first, more })
}

#[tactic(auto, unfolding(crate::specs::Reader::set_at))]
fn set(alloc: Global, tokens: &mut Cursor<'_>) -> Result<Set, ReadFault>
    ensures { Reads (spec.set_at tokens.old) result tokens.new }
{
    let column = tokens.ident()?;
    tokens.expect_symbol(Symbol::Equal)?;
    let expr = expr(alloc, tokens)?;
    Ok(Set { column, expr })
}

/// Parses one to sixteen values in parentheses.
#[tactic(auto, unfolding(crate::specs::Reader::tuple_at))]
fn tuple(alloc: Global, tokens: &mut Cursor<'_>) -> Result<TermRow, ReadFault>
    ensures { Reads (spec.tuple_at tokens.old) result tokens.new }
{
    tokens.expect_symbol(Symbol::Open)?;
    let row = separated_list(alloc, tokens, Separator::Comma, 15)?;
    tokens.expect_symbol(Symbol::Close)?;
    Ok(row)
}

impl ListItem for Value {
    ghost use Rattle.rs_parse.specs.Reader.{literal_at};

    ghost item_at = { literal_at };

    fn item(alloc: Global, tokens: &mut Cursor<'_>) -> Result<Value, ReadFault> {
        literal(alloc, tokens)
    }
}

impl ListItem for Term {
    ghost use Rattle.rs_parse.specs.Reader.{val_at};

    ghost item_at = { val_at };

    fn item(alloc: Global, tokens: &mut Cursor<'_>) -> Result<Term, ReadFault> {
        val(alloc, tokens)
    }
}

impl ListItem for Set {
    ghost use Rattle.rs_parse.specs.Reader.{set_at};

    ghost item_at = { set_at };

    fn item(alloc: Global, tokens: &mut Cursor<'_>) -> Result<Set, ReadFault> {
        set(alloc, tokens)
    }
}

impl ListItem for TermRow {
    ghost use Rattle.rs_parse.specs.Reader.{tuple_at};

    ghost item_at = { tuple_at };

    fn item(alloc: Global, tokens: &mut Cursor<'_>) -> Result<TermRow, ReadFault> {
        tuple(alloc, tokens)
    }
}
