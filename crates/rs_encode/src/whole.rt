//! Encoding and decoding all or nothing.

ghost use Rattle.std.specs.Prelude.{◌≡◌, ◌++◌, OnOk, OnErr, IfErr, IsTrue};
ghost use Rattle.rs_base.specs.Reading.{Reads};

use crate::codec::Codec;
use rs_base::{Bytes, NoMemory, ReadFault};
use rs_codec::Fields;
use std::alloc::Global;

/// The capacity in bytes that most encodings fit.
const ROOM: usize = 128;

/// Appends the encoding of a value to `out`. On out of memory nothing changes. Linear in the encoding.
pub fn append<T: Drop, C: Codec<T>>(
    alloc: Global,
    value: &T,
    out: &mut Bytes,
) -> Result<(), NoMemory>
    ensures ok { OnOk result (out.new ≡ out.old ++ C.form.bytes value.now) }
    ensures fits { OnOk result (IsTrue (C.form.fits value.now)) }
    ensures err { OnErr result (out.new ≡ out.old) }
{
    let mut whole = Bytes::with_room(alloc, ROOM)?;
    C::put(value, &mut whole)?;
    out.extend(whole.as_slice())
}

/// Takes the value whose encoding comes next. Fails with `Malformed` exactly if there is none, and then nothing is
/// consumed; nor is it on out of memory. Linear in the encoding.
pub fn read<T: Drop, C: Codec<T>>(alloc: Global, fields: &mut Fields<'_>) -> Result<T, ReadFault>
    ensures read { Reads (C.form.at fields.old) result fields.new }
    ensures stays { IfErr result (λ fault. fields.new ≡ fields.old) }
{
    let mut rest = Fields::new(fields.rest());
    let value = C::take(alloc, &mut rest)?;
    *fields = rest;
    Ok(value)
}
