//! The cursor's methods for use with `?`: no field is the fault `Malformed`, and then nothing is consumed.

ghost use Rattle.std.specs.Prelude.{◌≡◌, Some, IfErr, IsErrOf};
ghost use Rattle.rs_base.specs.Reading.{Reads};
ghost use Rattle.rs_codec.specs.Reader as reader;

use crate::fields::Fields;
use rs_base::{Bytes, ReadFault};
use std::alloc::Global;

impl<'a> Fields<'a> {
    /// Reads one byte. Fails with `Malformed` exactly at the end.
    pub fn read_byte(&mut self) -> Result<u8, ReadFault>
        ensures read { Reads (reader.byte_at self.old) result self.new }
        ensures fault { IfErr result (λ fault. (fault ≡ ReadFault.Malformed) × (self.new ≡ self.old)) }
    {
        self.take_byte().ok_or(ReadFault::Malformed)
    }

    /// Reads a big-endian number of four bytes. Fails with `Malformed` exactly if fewer than four are left.
    pub fn read_u32(&mut self) -> Result<u32, ReadFault>
        ensures read { Reads (reader.u32_at self.old) result self.new }
        ensures fault { IfErr result (λ fault. (fault ≡ ReadFault.Malformed) × (self.new ≡ self.old)) }
    {
        self.take_u32().ok_or(ReadFault::Malformed)
    }

    /// Reads a big-endian number of eight bytes. Fails with `Malformed` exactly if fewer than eight are left.
    pub fn read_u64(&mut self) -> Result<u64, ReadFault>
        ensures read { Reads (reader.u64_at self.old) result self.new }
        ensures fault { IfErr result (λ fault. (fault ≡ ReadFault.Malformed) × (self.new ≡ self.old)) }
    {
        self.take_u64().ok_or(ReadFault::Malformed)
    }

    /// Reads a count, as `take_count` does. Fails with `Malformed` exactly if no count begins the bytes.
    pub fn read_count(&mut self) -> Result<u64, ReadFault>
        ensures read { Reads (reader.count_at self.old) result self.new }
        ensures fault { IfErr result (λ fault. (fault ≡ ReadFault.Malformed) × (self.new ≡ self.old)) }
    {
        self.take_count().ok_or(ReadFault::Malformed)
    }

    /// Reads an integer, as `take_int` does. Fails with `Malformed` exactly if no integer begins the bytes.
    pub fn read_int(&mut self) -> Result<i64, ReadFault>
        ensures read { Reads (reader.int_at self.old) result self.new }
        ensures fault { IfErr result (λ fault. (fault ≡ ReadFault.Malformed) × (self.new ≡ self.old)) }
    {
        self.take_int().ok_or(ReadFault::Malformed)
    }

    /// Reads a text and copies its bytes. Fails with `Malformed`, consuming nothing, if no text begins the bytes, and with
    /// `NoMemory`, the text consumed, if the allocation fails. Linear in the text's length.
    pub fn read_text(&mut self, alloc: Global) -> Result<Bytes, ReadFault>
        ensures read { Reads (reader.text_at self.old) result self.new }
        ensures stays { IsErrOf result ReadFault.Malformed → self.new ≡ self.old }
        ensures passed { IsErrOf result ReadFault.NoMemory → reader.suffix_text self.old ≡ Some self.new }
    {
        let text = self.take_text().ok_or(ReadFault::Malformed)?;
        Ok(Bytes::from_slice(alloc, text)?)
    }
}
