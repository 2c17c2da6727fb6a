//! Codecs of numbers and truth values.

ghost use Rattle.std.specs.Prelude.{◌≡◌, ◌++◌, OnOk, IsTrue};
ghost use Rattle.rs_base.specs.Reading.{Reads};

use crate::codec::Codec;
use rs_base::{Bytes, NoMemory, ReadFault};
use rs_codec::{Fields, put_byte, put_count, put_int, put_u32, put_u64};
use std::alloc::Global;

/// A number as a count: in groups of seven bits, the lowest first.
pub struct Count;

/// A number below 2^8 as a count.
pub struct U8;

/// A number below 2^16 as a count.
pub struct U16;

/// A number below 2^32 as a count.
pub struct U32;

/// A number as four bytes, the highest first.
pub struct FourBytes;

/// A number as eight bytes, the highest first.
pub struct EightBytes;

/// A truth value as the byte 0 or 1.
pub struct Bool;

impl Codec<u64> for Count {
    ghost use Rattle.rs_encode.specs.Values.{count};

    ghost form = { count };

    #[tactic(auto, unfolding(crate::specs::Values::count))]
    fn put(value: &u64, out: &mut Bytes) -> Result<(), NoMemory> {
        put_count(out, *value)
    }

    #[tactic(auto, unfolding(crate::specs::Values::count))]
    fn take(_alloc: Global, fields: &mut Fields<'_>) -> Result<u64, ReadFault> {
        fields.read_count()
    }
}

impl Codec<u8> for U8 {
    ghost use Rattle.rs_encode.specs.Values.{count_below};

    ghost form = { count_below 256 };

    #[tactic(auto, unfolding(crate::specs::Values::count_below, crate::specs::Values::count))]
    fn put(value: &u8, out: &mut Bytes) -> Result<(), NoMemory> {
        put_count(out, u64::from(*value))
    }

    #[tactic(auto, unfolding(crate::specs::Values::count_below, crate::specs::Values::count))]
    fn take(_alloc: Global, fields: &mut Fields<'_>) -> Result<u8, ReadFault> {
        let n = fields.read_count()?;
        if n < 256 {
            Ok(n as u8)
        } else {
            Err(ReadFault::Malformed)
        }
    }
}

impl Codec<u16> for U16 {
    ghost use Rattle.rs_encode.specs.Values.{count_below};

    ghost form = { count_below 65536 };

    #[tactic(auto, unfolding(crate::specs::Values::count_below, crate::specs::Values::count))]
    fn put(value: &u16, out: &mut Bytes) -> Result<(), NoMemory> {
        put_count(out, u64::from(*value))
    }

    #[tactic(auto, unfolding(crate::specs::Values::count_below, crate::specs::Values::count))]
    fn take(_alloc: Global, fields: &mut Fields<'_>) -> Result<u16, ReadFault> {
        let n = fields.read_count()?;
        if n < 65536 {
            Ok(n as u16)
        } else {
            Err(ReadFault::Malformed)
        }
    }
}

impl Codec<u32> for U32 {
    ghost use Rattle.rs_encode.specs.Values.{count_below};

    ghost form = { count_below 4294967296 };

    #[tactic(auto, unfolding(crate::specs::Values::count_below, crate::specs::Values::count))]
    fn put(value: &u32, out: &mut Bytes) -> Result<(), NoMemory> {
        put_count(out, u64::from(*value))
    }

    #[tactic(auto, unfolding(crate::specs::Values::count_below, crate::specs::Values::count))]
    fn take(_alloc: Global, fields: &mut Fields<'_>) -> Result<u32, ReadFault> {
        let n = fields.read_count()?;
        if n < 4294967296 {
            Ok(n as u32)
        } else {
            Err(ReadFault::Malformed)
        }
    }
}

impl Codec<u32> for FourBytes {
    ghost use Rattle.rs_encode.specs.Values.{four_bytes};

    ghost form = { four_bytes };

    #[tactic(auto, unfolding(crate::specs::Values::four_bytes))]
    fn put(value: &u32, out: &mut Bytes) -> Result<(), NoMemory> {
        put_u32(out, *value)
    }

    #[tactic(auto, unfolding(crate::specs::Values::four_bytes))]
    fn take(_alloc: Global, fields: &mut Fields<'_>) -> Result<u32, ReadFault> {
        fields.read_u32()
    }
}

impl Codec<u64> for EightBytes {
    ghost use Rattle.rs_encode.specs.Values.{eight_bytes};

    ghost form = { eight_bytes };

    #[tactic(auto, unfolding(crate::specs::Values::eight_bytes))]
    fn put(value: &u64, out: &mut Bytes) -> Result<(), NoMemory> {
        put_u64(out, *value)
    }

    #[tactic(auto, unfolding(crate::specs::Values::eight_bytes))]
    fn take(_alloc: Global, fields: &mut Fields<'_>) -> Result<u64, ReadFault> {
        fields.read_u64()
    }
}

impl Codec<bool> for Bool {
    ghost use Rattle.rs_encode.specs.Values.{bool};

    ghost form = { bool };

    #[tactic(auto, unfolding(crate::specs::Values::bool))]
    fn put(value: &bool, out: &mut Bytes) -> Result<(), NoMemory> {
        match *value {
            false => put_byte(out, 0),
            true => put_byte(out, 1),
        }
    }

    #[tactic(auto, unfolding(crate::specs::Values::bool))]
    fn take(_alloc: Global, fields: &mut Fields<'_>) -> Result<bool, ReadFault> {
        match fields.read_byte()? {
            0 => Ok(false),
            1 => Ok(true),
            _ => Err(ReadFault::Malformed),
        }
    }
}

/// An integer: the count of its position in 0, -1, 1, -2, 2 and so on.
pub struct Int;

impl Codec<i64> for Int {
    ghost use Rattle.rs_encode.specs.Values.{int};

    ghost form = { int };

    #[tactic(auto, unfolding(crate::specs::Values::int))]
    fn put(value: &i64, out: &mut Bytes) -> Result<(), NoMemory> {
        put_int(out, *value)
    }

    #[tactic(auto, unfolding(crate::specs::Values::int))]
    fn take(_alloc: Global, fields: &mut Fields<'_>) -> Result<i64, ReadFault> {
        fields.read_int()
    }
}
