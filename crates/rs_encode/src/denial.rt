//! The codec of the causes of denials.

ghost use Rattle.std.specs.Prelude.{◌≡◌, ◌++◌, OnOk, IsTrue};
ghost use Rattle.rs_base.specs.Reading.{Reads};

use crate::codec::Codec;
use rs_base::{Bytes, Denial, NoMemory, ReadFault};
use rs_codec::{Fields, put_byte};
use std::alloc::Global;

/// The codec of the cause of a denial.
pub struct DenialCodec;

impl Codec<Denial> for DenialCodec {
    ghost use Rattle.rs_encode.specs.Values.{denial};

    ghost form = { denial };

    #[tactic(auto, unfolding(crate::specs::Values::denial))]
    fn put(value: &Denial, out: &mut Bytes) -> Result<(), NoMemory> {
        match value {
            Denial::NoTable => put_byte(out, 1),
            Denial::NoColumn => put_byte(out, 2),
            Denial::TwoColumns => put_byte(out, 3),
            Denial::WrongType => put_byte(out, 4),
            Denial::TableExists => put_byte(out, 5),
            Denial::NoIndex => put_byte(out, 6),
            Denial::IndexExists => put_byte(out, 7),
            Denial::NoProgram => put_byte(out, 8),
            Denial::ProgramExists => put_byte(out, 9),
            Denial::WrongParams => put_byte(out, 10),
            Denial::SynonymExists => put_byte(out, 11),
            Denial::NoSynonym => put_byte(out, 12),
            Denial::NoSite => put_byte(out, 13),
            Denial::Overflow => put_byte(out, 14),
            Denial::TooManyRows => put_byte(out, 15),
            Denial::TableFull => put_byte(out, 16),
        }
    }

    #[tactic(auto, unfolding(crate::specs::Values::denial))]
    fn take(_alloc: Global, fields: &mut Fields<'_>) -> Result<Denial, ReadFault> {
        match fields.read_byte()? {
            1 => Ok(Denial::NoTable),
            2 => Ok(Denial::NoColumn),
            3 => Ok(Denial::TwoColumns),
            4 => Ok(Denial::WrongType),
            5 => Ok(Denial::TableExists),
            6 => Ok(Denial::NoIndex),
            7 => Ok(Denial::IndexExists),
            8 => Ok(Denial::NoProgram),
            9 => Ok(Denial::ProgramExists),
            10 => Ok(Denial::WrongParams),
            11 => Ok(Denial::SynonymExists),
            12 => Ok(Denial::NoSynonym),
            13 => Ok(Denial::NoSite),
            14 => Ok(Denial::Overflow),
            15 => Ok(Denial::TooManyRows),
            16 => Ok(Denial::TableFull),
            _ => Err(ReadFault::Malformed),
        }
    }
}
