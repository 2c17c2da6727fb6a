//! Codecs of values and kinds.

ghost use Rattle.std.specs.Prelude.{◌≡◌, ◌++◌, OnOk, IsTrue};
ghost use Rattle.rs_base.specs.Reading.{Reads};

use crate::codec::Codec;
use crate::number::Int;
use crate::text::TxtCodec;
use rs_base::{Bytes, Kind, NoMemory, ReadFault, Value};
use rs_codec::{Fields, put_byte};
use std::alloc::Global;

/// The codec of the type of a column.
pub struct KindCodec;

impl Codec<Kind> for KindCodec {
    ghost use Rattle.rs_encode.specs.Values.{kind};

    ghost form = { kind };

    #[tactic(auto, unfolding(crate::specs::Values::kind))]
    fn put(value: &Kind, out: &mut Bytes) -> Result<(), NoMemory> {
        match value {
            Kind::Int => put_byte(out, 1),
            Kind::Text => put_byte(out, 2),
        }
    }

    #[tactic(auto, unfolding(crate::specs::Values::kind))]
    fn take(_alloc: Global, fields: &mut Fields<'_>) -> Result<Kind, ReadFault> {
        match fields.read_byte()? {
            1 => Ok(Kind::Int),
            2 => Ok(Kind::Text),
            _ => Err(ReadFault::Malformed),
        }
    }
}

/// The codec of a value.
pub struct ValueCodec;

impl Codec<Value> for ValueCodec {
    ghost use Rattle.rs_encode.specs.Values.{value};

    ghost form = { value };

    #[tactic(auto, unfolding(crate::specs::Values::value))]
    fn put(value: &Value, out: &mut Bytes) -> Result<(), NoMemory> {
        match value {
            Value::Int(field) => {
                put_byte(out, 1)?;
                Int::put(field, out)
            }
            Value::Text(field) => {
                put_byte(out, 2)?;
                TxtCodec::put(field, out)
            }
        }
    }

    #[tactic(auto, unfolding(crate::specs::Values::value))]
    fn take(alloc: Global, fields: &mut Fields<'_>) -> Result<Value, ReadFault> {
        match fields.read_byte()? {
            1 => Ok(Value::Int(Int::take(alloc, fields)?)),
            2 => Ok(Value::Text(TxtCodec::take(alloc, fields)?)),
            _ => Err(ReadFault::Malformed),
        }
    }
}
