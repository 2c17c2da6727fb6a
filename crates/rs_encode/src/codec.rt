//! What a codec is.

ghost use Rattle.std.specs.Prelude.{◌≡◌, ◌++◌, OnOk, IsTrue};
ghost use Rattle.rs_base.specs.Reading.{Reads};

use rs_base::{Bytes, NoMemory, ReadFault};
use rs_codec::Fields;
use std::alloc::Global;

/// A codec of the values of a type. No two values have the same encoding, and no encoding begins another one.
pub trait Codec<T: Drop> {
    ghost use Rattle.rs_encode.specs.Form.{Form};

    // How the values are encoded.
    ghost form: { Form T };

    /// Appends the encoding of a value to `out`. On out of memory a part of it may have been appended.
    fn put(value: &T, out: &mut Bytes) -> Result<(), NoMemory>
        ensures bytes { OnOk result (out.new ≡ out.old ++ form.bytes value.now) }
        ensures fits { OnOk result (IsTrue (form.fits value.now)) };

    /// Takes the value whose encoding comes next. Fails with `Malformed` exactly if there is none.
    fn take(alloc: Global, fields: &mut Fields<'_>) -> Result<T, ReadFault>
        ensures { Reads (form.at fields.old) result fields.new };
}
