//! The codec of a pair: its first value, and then its second.

ghost use Rattle.std.specs.Prelude.{◌≡◌, ◌++◌, OnOk, IsTrue};
ghost use Rattle.rs_base.specs.Reading.{Reads};

use crate::codec::Codec;
use rs_base::{Bytes, NoMemory, ReadFault};
use rs_codec::Fields;
use std::alloc::Global;
use std::marker::PhantomData;

/// A pair, whose values the codecs `C` and `D` encode.
pub struct Pair<C, D>(PhantomData<C>, PhantomData<D>);

impl<A: Drop, B: Drop, C: Codec<A>, D: Codec<B>> Codec<(A, B)> for Pair<C, D> {
    ghost use Rattle.rs_encode.specs.Form.{both};

    ghost form = { both C.form D.form };

    fn put(value: &(A, B), out: &mut Bytes) -> Result<(), NoMemory> {
        C::put(&value.0, out)?;
        D::put(&value.1, out)
    }

    fn take(alloc: Global, fields: &mut Fields<'_>) -> Result<(A, B), ReadFault> {
        let first = C::take(alloc, fields)?;
        let second = D::take(alloc, fields)?;
        Ok((first, second))
    }
}
