//! Appends printed text. On out of memory the bytes stay as they were.

ghost use Rattle.std.specs.Prelude.{◌≡◌, ◌++◌, OnOk, OnErr, decimal};
ghost use Rattle.rs_base.specs.Printing as spec;

use crate::append;
use crate::bytes::Bytes;
use crate::fault::NoMemory;
use crate::name::Swn;
use crate::value::Value;
use std::alloc::Global;

/// Appends a number in decimal.
pub fn print_number(alloc: Global, n: u64, out: &mut Bytes) -> Result<(), NoMemory>
    ensures ok { OnOk result (out.new ≡ out.old ++ decimal n) }
    ensures err { OnErr result (out.new ≡ out.old) }
{
    let mut text = Bytes::new(alloc);
    append::number(&mut text, n)?;
    out.extend(text.as_slice())
}

/// Appends a value: an integer in decimal, a text in quotes with each quote doubled.
pub fn print_value(alloc: Global, value: &Value, out: &mut Bytes) -> Result<(), NoMemory>
    ensures ok { OnOk result (out.new ≡ out.old ++ spec.printed_value value.now) }
    ensures err { OnErr result (out.new ≡ out.old) }
{
    let mut text = Bytes::new(alloc);
    append::value(&mut text, value)?;
    out.extend(text.as_slice())
}

/// Appends a system-wide name: `creator@site.object@birth`.
pub fn print_swn(alloc: Global, name: &Swn, out: &mut Bytes) -> Result<(), NoMemory>
    ensures ok { OnOk result (out.new ≡ out.old ++ spec.printed_swn name.now) }
    ensures err { OnErr result (out.new ≡ out.old) }
{
    let mut text = Bytes::new(alloc);
    append::swn(&mut text, name)?;
    out.extend(text.as_slice())
}
