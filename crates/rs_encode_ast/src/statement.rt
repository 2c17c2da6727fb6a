//! Codecs of statements on the rows of tables.

ghost use Rattle.std.specs.Prelude.{◌≡◌, ◌++◌, OnOk, IsTrue};
ghost use Rattle.rs_base.specs.Reading.{Reads};

use crate::clause::ClauseCodec;
use crate::query::SelectCodec;
use rs_ast::{Arith, Dml, Expr, Set, Term};
use rs_base::{Bytes, NoMemory, ReadFault};
use rs_codec::{Fields, put_byte};
use rs_encode::{Codec, IdentCodec, ListOf, NameTextCodec, OptionOf, Pair, ValueCodec};
use std::alloc::Global;

/// The codec of an arithmetic operator.
pub struct ArithCodec;

impl Codec<Arith> for ArithCodec {
    ghost use Rattle.rs_encode_ast.specs.Statements.{arithmetic};

    ghost form = { arithmetic };

    #[tactic(auto, unfolding(crate::specs::Statements::arithmetic))]
    fn put(value: &Arith, out: &mut Bytes) -> Result<(), NoMemory> {
        match value {
            Arith::Add => put_byte(out, 1),
            Arith::Sub => put_byte(out, 2),
            Arith::Mul => put_byte(out, 3),
        }
    }

    #[tactic(auto, unfolding(crate::specs::Statements::arithmetic))]
    fn take(_alloc: Global, fields: &mut Fields<'_>) -> Result<Arith, ReadFault> {
        match fields.read_byte()? {
            1 => Ok(Arith::Add),
            2 => Ok(Arith::Sub),
            3 => Ok(Arith::Mul),
            _ => Err(ReadFault::Malformed),
        }
    }
}

/// The codec of a term.
pub struct TermCodec;

impl Codec<Term> for TermCodec {
    ghost use Rattle.rs_encode_ast.specs.Statements.{term};

    ghost form = { term };

    #[tactic(auto, unfolding(crate::specs::Statements::term))]
    fn put(value: &Term, out: &mut Bytes) -> Result<(), NoMemory> {
        match value {
            Term::Col(field) => {
                put_byte(out, 1)?;
                IdentCodec::put(field, out)
            }
            Term::Lit(field) => {
                put_byte(out, 2)?;
                ValueCodec::put(field, out)
            }
            Term::Param(field) => {
                put_byte(out, 3)?;
                IdentCodec::put(field, out)
            }
        }
    }

    #[tactic(auto, unfolding(crate::specs::Statements::term))]
    fn take(alloc: Global, fields: &mut Fields<'_>) -> Result<Term, ReadFault> {
        match fields.read_byte()? {
            1 => Ok(Term::Col(IdentCodec::take(alloc, fields)?)),
            2 => Ok(Term::Lit(ValueCodec::take(alloc, fields)?)),
            3 => Ok(Term::Param(IdentCodec::take(alloc, fields)?)),
            _ => Err(ReadFault::Malformed),
        }
    }
}

/// The codec of an expression.
pub struct ExprCodec;

impl Codec<Expr> for ExprCodec {
    ghost use Rattle.rs_encode_ast.specs.Statements.{expr};

    ghost form = { expr };

    #[tactic(auto, unfolding(crate::specs::Statements::expr))]
    fn put(value: &Expr, out: &mut Bytes) -> Result<(), NoMemory> {
        TermCodec::put(&value.first, out)?;
        OptionOf::<Pair<ArithCodec, TermCodec>>::put(&value.more, out)
    }

    #[tactic(auto, unfolding(crate::specs::Statements::expr))]
    fn take(alloc: Global, fields: &mut Fields<'_>) -> Result<Expr, ReadFault> {
        Ok(Expr {
            first: TermCodec::take(alloc, fields)?,
            more: OptionOf::<Pair<ArithCodec, TermCodec>>::take(alloc, fields)?,
        })
    }
}

/// The codec of an assignment.
pub struct SetCodec;

impl Codec<Set> for SetCodec {
    ghost use Rattle.rs_encode_ast.specs.Statements.{assignment};

    ghost form = { assignment };

    #[tactic(auto, unfolding(crate::specs::Statements::assignment))]
    fn put(value: &Set, out: &mut Bytes) -> Result<(), NoMemory> {
        IdentCodec::put(&value.column, out)?;
        ExprCodec::put(&value.expr, out)
    }

    #[tactic(auto, unfolding(crate::specs::Statements::assignment))]
    fn take(alloc: Global, fields: &mut Fields<'_>) -> Result<Set, ReadFault> {
        Ok(Set {
            column: IdentCodec::take(alloc, fields)?,
            expr: ExprCodec::take(alloc, fields)?,
        })
    }
}

/// The codec of a statement on the rows of tables.
pub struct DmlCodec;

impl Codec<Dml> for DmlCodec {
    ghost use Rattle.rs_encode_ast.specs.Statements.{dml};

    ghost form = { dml };

    #[tactic(auto, unfolding(crate::specs::Statements::dml))]
    fn put(value: &Dml, out: &mut Bytes) -> Result<(), NoMemory> {
        match value {
            Dml::Select(field) => {
                put_byte(out, 1)?;
                SelectCodec::put(field, out)
            }
            Dml::Insert { name, rows } => {
                put_byte(out, 2)?;
                NameTextCodec::put(name, out)?;
                ListOf::<ListOf<TermCodec>>::put(rows, out)
            }
            Dml::Update {
                name,
                sets,
                clauses,
            } => {
                put_byte(out, 3)?;
                NameTextCodec::put(name, out)?;
                ListOf::<SetCodec>::put(sets, out)?;
                ListOf::<ClauseCodec>::put(clauses, out)
            }
            Dml::Delete { name, clauses } => {
                put_byte(out, 4)?;
                NameTextCodec::put(name, out)?;
                ListOf::<ClauseCodec>::put(clauses, out)
            }
        }
    }

    #[tactic(auto, unfolding(crate::specs::Statements::dml))]
    fn take(alloc: Global, fields: &mut Fields<'_>) -> Result<Dml, ReadFault> {
        match fields.read_byte()? {
            1 => Ok(Dml::Select(SelectCodec::take(alloc, fields)?)),
            2 => Ok(Dml::Insert {
                name: NameTextCodec::take(alloc, fields)?,
                rows: ListOf::<ListOf<TermCodec>>::take(alloc, fields)?,
            }),
            3 => Ok(Dml::Update {
                name: NameTextCodec::take(alloc, fields)?,
                sets: ListOf::<SetCodec>::take(alloc, fields)?,
                clauses: ListOf::<ClauseCodec>::take(alloc, fields)?,
            }),
            4 => Ok(Dml::Delete {
                name: NameTextCodec::take(alloc, fields)?,
                clauses: ListOf::<ClauseCodec>::take(alloc, fields)?,
            }),
            _ => Err(ReadFault::Malformed),
        }
    }
}
