//! Codecs of bound comparisons, terms and assignments.

ghost use Rattle.std.specs.Prelude.{◌≡◌, ◌++◌, OnOk, IsTrue};
ghost use Rattle.rs_base.specs.Reading.{Reads};

use crate::clause::OpCodec;
use crate::statement::ArithCodec;
use rs_ast::{BoundCmp, BoundSet, BoundSide, BoundTerm};
use rs_base::{Bytes, NoMemory, ReadFault};
use rs_codec::{Fields, put_byte};
use rs_encode::{Codec, OptionOf, Pair, U8, U16, ValueCodec};
use std::alloc::Global;

/// The codec of the right operand of a bound comparison.
pub struct BoundSideCodec;

impl Codec<BoundSide> for BoundSideCodec {
    ghost use Rattle.rs_encode_ast.specs.BoundParts.{bound_side};

    ghost form = { bound_side };

    #[tactic(auto, unfolding(crate::specs::BoundParts::bound_side))]
    fn put(value: &BoundSide, out: &mut Bytes) -> Result<(), NoMemory> {
        match value {
            BoundSide::Place(field) => {
                put_byte(out, 1)?;
                U16::put(field, out)
            }
            BoundSide::Lit(field) => {
                put_byte(out, 2)?;
                ValueCodec::put(field, out)
            }
            BoundSide::Param(field) => {
                put_byte(out, 3)?;
                U8::put(field, out)
            }
        }
    }

    #[tactic(auto, unfolding(crate::specs::BoundParts::bound_side))]
    fn take(alloc: Global, fields: &mut Fields<'_>) -> Result<BoundSide, ReadFault> {
        match fields.read_byte()? {
            1 => Ok(BoundSide::Place(U16::take(alloc, fields)?)),
            2 => Ok(BoundSide::Lit(ValueCodec::take(alloc, fields)?)),
            3 => Ok(BoundSide::Param(U8::take(alloc, fields)?)),
            _ => Err(ReadFault::Malformed),
        }
    }
}

/// The codec of a bound comparison.
pub struct BoundCmpCodec;

impl Codec<BoundCmp> for BoundCmpCodec {
    ghost use Rattle.rs_encode_ast.specs.BoundParts.{bound_cmp};

    ghost form = { bound_cmp };

    #[tactic(auto, unfolding(crate::specs::BoundParts::bound_cmp))]
    fn put(value: &BoundCmp, out: &mut Bytes) -> Result<(), NoMemory> {
        U16::put(&value.left, out)?;
        OpCodec::put(&value.op, out)?;
        BoundSideCodec::put(&value.right, out)
    }

    #[tactic(auto, unfolding(crate::specs::BoundParts::bound_cmp))]
    fn take(alloc: Global, fields: &mut Fields<'_>) -> Result<BoundCmp, ReadFault> {
        Ok(BoundCmp {
            left: U16::take(alloc, fields)?,
            op: OpCodec::take(alloc, fields)?,
            right: BoundSideCodec::take(alloc, fields)?,
        })
    }
}

/// The codec of a bound term.
pub struct BoundTermCodec;

impl Codec<BoundTerm> for BoundTermCodec {
    ghost use Rattle.rs_encode_ast.specs.BoundParts.{bound_term};

    ghost form = { bound_term };

    #[tactic(auto, unfolding(crate::specs::BoundParts::bound_term))]
    fn put(value: &BoundTerm, out: &mut Bytes) -> Result<(), NoMemory> {
        match value {
            BoundTerm::Place(field) => {
                put_byte(out, 1)?;
                U16::put(field, out)
            }
            BoundTerm::Lit(field) => {
                put_byte(out, 2)?;
                ValueCodec::put(field, out)
            }
            BoundTerm::Param(field) => {
                put_byte(out, 3)?;
                U8::put(field, out)
            }
        }
    }

    #[tactic(auto, unfolding(crate::specs::BoundParts::bound_term))]
    fn take(alloc: Global, fields: &mut Fields<'_>) -> Result<BoundTerm, ReadFault> {
        match fields.read_byte()? {
            1 => Ok(BoundTerm::Place(U16::take(alloc, fields)?)),
            2 => Ok(BoundTerm::Lit(ValueCodec::take(alloc, fields)?)),
            3 => Ok(BoundTerm::Param(U8::take(alloc, fields)?)),
            _ => Err(ReadFault::Malformed),
        }
    }
}

/// The codec of a bound assignment.
pub struct BoundSetCodec;

impl Codec<BoundSet> for BoundSetCodec {
    ghost use Rattle.rs_encode_ast.specs.BoundParts.{bound_set};

    ghost form = { bound_set };

    #[tactic(auto, unfolding(crate::specs::BoundParts::bound_set))]
    fn put(value: &BoundSet, out: &mut Bytes) -> Result<(), NoMemory> {
        U8::put(&value.column, out)?;
        BoundTermCodec::put(&value.first, out)?;
        OptionOf::<Pair<ArithCodec, BoundTermCodec>>::put(&value.more, out)
    }

    #[tactic(auto, unfolding(crate::specs::BoundParts::bound_set))]
    fn take(alloc: Global, fields: &mut Fields<'_>) -> Result<BoundSet, ReadFault> {
        Ok(BoundSet {
            column: U8::take(alloc, fields)?,
            first: BoundTermCodec::take(alloc, fields)?,
            more: OptionOf::<Pair<ArithCodec, BoundTermCodec>>::take(alloc, fields)?,
        })
    }
}
