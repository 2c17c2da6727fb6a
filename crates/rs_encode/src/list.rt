//! The codec of a list: the number of its items, and then the items.

ghost use Rattle.std.specs.Prelude.{◌≡◌, ◌++◌, OnOk, IsTrue};
ghost use Rattle.std.specs.List.{list_all};
ghost use Rattle.rs_base.specs.Reading.{Reads};
ghost use Rattle.rs_encode.specs.Form as spec;

use crate::codec::Codec;
use rs_base::{Bytes, NoMemory, ReadFault};
use rs_codec::{Fields, put_count};
use sqlite_items::Items;
use std::alloc::Global;
use std::marker::PhantomData;

/// A list, whose items the codec `C` encodes.
pub struct ListOf<C>(PhantomData<C>);

fn put_items<T: Drop, C: Codec<T>>(items: &[T], out: &mut Bytes) -> Result<(), NoMemory>
    ensures bytes { OnOk result (out.new ≡ out.old ++ spec.items_bytes C.form items.now) }
    ensures fits { OnOk result (IsTrue (list_all C.form.fits items.now)) }
{
    for item in items {
        C::put(item, out)?;
    }
    Ok(())
}

fn take_items<T: Drop, C: Codec<T>>(
    alloc: Global,
    n: u64,
    fields: &mut Fields<'_>,
) -> Result<Items<T>, ReadFault>
    ensures { Reads (spec.items_at C.form n fields.old) result fields.new }
{
    let mut items = Items::new(alloc);
    for _ in 0..n {
        items.push(C::take(alloc, fields)?)?;
    }
    Ok(items)
}

impl<T: Drop, C: Codec<T>> Codec<Items<T>> for ListOf<C> {
    ghost use Rattle.rs_encode.specs.Form.{list};

    ghost form = { list C.form };

    #[tactic(auto, unfolding(crate::specs::Form::list))]
    fn put(value: &Items<T>, out: &mut Bytes) -> Result<(), NoMemory> {
        put_count(out, value.len() as u64)?;
        put_items::<T, C>(value.as_slice(), out)
    }

    #[tactic(auto, unfolding(crate::specs::Form::list))]
    fn take(alloc: Global, fields: &mut Fields<'_>) -> Result<Items<T>, ReadFault> {
        let n = fields.read_count()?;
        take_items::<T, C>(alloc, n, fields)
    }
}
