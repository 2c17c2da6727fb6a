//! The codec of an optional value: the byte 0, or the byte 1 and the value.

ghost use Rattle.std.specs.Prelude.{◌≡◌, ◌++◌, OnOk, IsTrue};
ghost use Rattle.rs_base.specs.Reading.{Reads};

use crate::codec::Codec;
use rs_base::{Bytes, NoMemory, ReadFault};
use rs_codec::{Fields, put_byte};
use std::alloc::Global;
use std::marker::PhantomData;

/// An optional value, which the codec `C` encodes if it is there.
pub struct OptionOf<C>(PhantomData<C>);

impl<T: Drop, C: Codec<T>> Codec<Option<T>> for OptionOf<C> {
    ghost use Rattle.rs_encode.specs.Form.{option};

    ghost form = { option C.form };

    #[tactic(auto, unfolding(crate::specs::Form::option))]
    fn put(value: &Option<T>, out: &mut Bytes) -> Result<(), NoMemory> {
        match value {
            None => put_byte(out, 0),
            Some(value) => {
                put_byte(out, 1)?;
                C::put(value, out)
            }
        }
    }

    #[tactic(auto, unfolding(crate::specs::Form::option))]
    fn take(alloc: Global, fields: &mut Fields<'_>) -> Result<Option<T>, ReadFault> {
        match fields.read_byte()? {
            0 => Ok(None),
            1 => Ok(Some(C::take(alloc, fields)?)),
            _ => Err(ReadFault::Malformed),
        }
    }
}
