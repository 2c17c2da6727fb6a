//! Codecs of locks.

ghost use Rattle.std.specs.Prelude.{◌≡◌, ◌++◌, OnOk, IsTrue};
ghost use Rattle.rs_base.specs.Reading.{Reads};

use crate::codec::Codec;
use crate::name::SwnCodec;
use crate::text::IdentCodec;
use rs_base::{Bytes, Mode, NoMemory, ReadFault, Resource};
use rs_codec::{Fields, put_byte};
use std::alloc::Global;

/// The codec of the mode of a lock.
pub struct ModeCodec;

impl Codec<Mode> for ModeCodec {
    ghost use Rattle.rs_encode.specs.Values.{mode};

    ghost form = { mode };

    #[tactic(auto, unfolding(crate::specs::Values::mode))]
    fn put(value: &Mode, out: &mut Bytes) -> Result<(), NoMemory> {
        match value {
            Mode::Read => put_byte(out, 1),
            Mode::Write => put_byte(out, 2),
        }
    }

    #[tactic(auto, unfolding(crate::specs::Values::mode))]
    fn take(_alloc: Global, fields: &mut Fields<'_>) -> Result<Mode, ReadFault> {
        match fields.read_byte()? {
            1 => Ok(Mode::Read),
            2 => Ok(Mode::Write),
            _ => Err(ReadFault::Malformed),
        }
    }
}

/// The codec of what is locked.
pub struct ResourceCodec;

impl Codec<Resource> for ResourceCodec {
    ghost use Rattle.rs_encode.specs.Values.{resource};

    ghost form = { resource };

    #[tactic(auto, unfolding(crate::specs::Values::resource))]
    fn put(value: &Resource, out: &mut Bytes) -> Result<(), NoMemory> {
        match value {
            Resource::Table(field) => {
                put_byte(out, 1)?;
                SwnCodec::put(field, out)
            }
            Resource::Birth(field) => {
                put_byte(out, 2)?;
                SwnCodec::put(field, out)
            }
            Resource::Program(first, second) => {
                put_byte(out, 3)?;
                IdentCodec::put(first, out)?;
                IdentCodec::put(second, out)
            }
            Resource::Synonyms(field) => {
                put_byte(out, 4)?;
                IdentCodec::put(field, out)
            }
        }
    }

    #[tactic(auto, unfolding(crate::specs::Values::resource))]
    fn take(alloc: Global, fields: &mut Fields<'_>) -> Result<Resource, ReadFault> {
        match fields.read_byte()? {
            1 => Ok(Resource::Table(SwnCodec::take(alloc, fields)?)),
            2 => Ok(Resource::Birth(SwnCodec::take(alloc, fields)?)),
            3 => Ok(Resource::Program(
                IdentCodec::take(alloc, fields)?,
                IdentCodec::take(alloc, fields)?,
            )),
            4 => Ok(Resource::Synonyms(IdentCodec::take(alloc, fields)?)),
            _ => Err(ReadFault::Malformed),
        }
    }
}
