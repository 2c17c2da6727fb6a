//! Codecs of comparisons and clauses.

ghost use Rattle.std.specs.Prelude.{◌≡◌, ◌++◌, OnOk, IsTrue};
ghost use Rattle.rs_base.specs.Reading.{Reads};

use rs_ast::{Clause, Cmp, ColRef, Op, Operand};
use rs_base::{Bytes, NoMemory, ReadFault};
use rs_codec::{Fields, put_byte};
use rs_encode::{Codec, IdentCodec, ListOf, OptionOf, ValueCodec};
use std::alloc::Global;

/// The codec of a comparison operator.
pub struct OpCodec;

impl Codec<Op> for OpCodec {
    ghost use Rattle.rs_encode_ast.specs.Clauses.{op};

    ghost form = { op };

    #[tactic(auto, unfolding(crate::specs::Clauses::op))]
    fn put(value: &Op, out: &mut Bytes) -> Result<(), NoMemory> {
        match value {
            Op::Eq => put_byte(out, 1),
            Op::Ne => put_byte(out, 2),
            Op::Lt => put_byte(out, 3),
            Op::Le => put_byte(out, 4),
            Op::Gt => put_byte(out, 5),
            Op::Ge => put_byte(out, 6),
        }
    }

    #[tactic(auto, unfolding(crate::specs::Clauses::op))]
    fn take(_alloc: Global, fields: &mut Fields<'_>) -> Result<Op, ReadFault> {
        match fields.read_byte()? {
            1 => Ok(Op::Eq),
            2 => Ok(Op::Ne),
            3 => Ok(Op::Lt),
            4 => Ok(Op::Le),
            5 => Ok(Op::Gt),
            6 => Ok(Op::Ge),
            _ => Err(ReadFault::Malformed),
        }
    }
}

/// The codec of a reference to a column.
pub struct ColRefCodec;

impl Codec<ColRef> for ColRefCodec {
    ghost use Rattle.rs_encode_ast.specs.Clauses.{col_ref};

    ghost form = { col_ref };

    #[tactic(auto, unfolding(crate::specs::Clauses::col_ref))]
    fn put(value: &ColRef, out: &mut Bytes) -> Result<(), NoMemory> {
        OptionOf::<IdentCodec>::put(&value.table, out)?;
        IdentCodec::put(&value.column, out)
    }

    #[tactic(auto, unfolding(crate::specs::Clauses::col_ref))]
    fn take(alloc: Global, fields: &mut Fields<'_>) -> Result<ColRef, ReadFault> {
        Ok(ColRef {
            table: OptionOf::<IdentCodec>::take(alloc, fields)?,
            column: IdentCodec::take(alloc, fields)?,
        })
    }
}

/// The codec of the right operand of a comparison.
pub struct OperandCodec;

impl Codec<Operand> for OperandCodec {
    ghost use Rattle.rs_encode_ast.specs.Clauses.{operand};

    ghost form = { operand };

    #[tactic(auto, unfolding(crate::specs::Clauses::operand))]
    fn put(value: &Operand, out: &mut Bytes) -> Result<(), NoMemory> {
        match value {
            Operand::Col(field) => {
                put_byte(out, 1)?;
                ColRefCodec::put(field, out)
            }
            Operand::Lit(field) => {
                put_byte(out, 2)?;
                ValueCodec::put(field, out)
            }
            Operand::Param(field) => {
                put_byte(out, 3)?;
                IdentCodec::put(field, out)
            }
        }
    }

    #[tactic(auto, unfolding(crate::specs::Clauses::operand))]
    fn take(alloc: Global, fields: &mut Fields<'_>) -> Result<Operand, ReadFault> {
        match fields.read_byte()? {
            1 => Ok(Operand::Col(ColRefCodec::take(alloc, fields)?)),
            2 => Ok(Operand::Lit(ValueCodec::take(alloc, fields)?)),
            3 => Ok(Operand::Param(IdentCodec::take(alloc, fields)?)),
            _ => Err(ReadFault::Malformed),
        }
    }
}

/// The codec of a comparison.
pub struct CmpCodec;

impl Codec<Cmp> for CmpCodec {
    ghost use Rattle.rs_encode_ast.specs.Clauses.{cmp};

    ghost form = { cmp };

    #[tactic(auto, unfolding(crate::specs::Clauses::cmp))]
    fn put(value: &Cmp, out: &mut Bytes) -> Result<(), NoMemory> {
        ColRefCodec::put(&value.left, out)?;
        OpCodec::put(&value.op, out)?;
        OperandCodec::put(&value.right, out)
    }

    #[tactic(auto, unfolding(crate::specs::Clauses::cmp))]
    fn take(alloc: Global, fields: &mut Fields<'_>) -> Result<Cmp, ReadFault> {
        Ok(Cmp {
            left: ColRefCodec::take(alloc, fields)?,
            op: OpCodec::take(alloc, fields)?,
            right: OperandCodec::take(alloc, fields)?,
        })
    }
}

/// The codec of a disjunction of comparisons.
pub struct ClauseCodec;

impl Codec<Clause> for ClauseCodec {
    ghost use Rattle.rs_encode_ast.specs.Clauses.{clause};

    ghost form = { clause };

    #[tactic(auto, unfolding(crate::specs::Clauses::clause))]
    fn put(value: &Clause, out: &mut Bytes) -> Result<(), NoMemory> {
        ListOf::<CmpCodec>::put(&value.any, out)
    }

    #[tactic(auto, unfolding(crate::specs::Clauses::clause))]
    fn take(alloc: Global, fields: &mut Fields<'_>) -> Result<Clause, ReadFault> {
        Ok(Clause {
            any: ListOf::<CmpCodec>::take(alloc, fields)?,
        })
    }
}
