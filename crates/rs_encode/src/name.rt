//! Codecs of names.

ghost use Rattle.std.specs.Prelude.{◌≡◌, ◌++◌, OnOk, IsTrue};
ghost use Rattle.rs_base.specs.Reading.{Reads};

use crate::codec::Codec;
use crate::option::OptionOf;
use crate::text::{IdentCodec, SiteNoCodec};
use rs_base::{Bytes, NameText, NoMemory, ReadFault, Swn};
use rs_codec::Fields;
use std::alloc::Global;

/// The codec of a name as written.
pub struct NameTextCodec;

impl Codec<NameText> for NameTextCodec {
    ghost use Rattle.rs_encode.specs.Values.{name_text};

    ghost form = { name_text };

    #[tactic(auto, unfolding(crate::specs::Values::name_text))]
    fn put(value: &NameText, out: &mut Bytes) -> Result<(), NoMemory> {
        OptionOf::<IdentCodec>::put(&value.creator, out)?;
        OptionOf::<SiteNoCodec>::put(&value.creator_site, out)?;
        IdentCodec::put(&value.object, out)?;
        OptionOf::<SiteNoCodec>::put(&value.birth, out)
    }

    #[tactic(auto, unfolding(crate::specs::Values::name_text))]
    fn take(alloc: Global, fields: &mut Fields<'_>) -> Result<NameText, ReadFault> {
        Ok(NameText {
            creator: OptionOf::<IdentCodec>::take(alloc, fields)?,
            creator_site: OptionOf::<SiteNoCodec>::take(alloc, fields)?,
            object: IdentCodec::take(alloc, fields)?,
            birth: OptionOf::<SiteNoCodec>::take(alloc, fields)?,
        })
    }
}

/// The codec of a system-wide name.
pub struct SwnCodec;

impl Codec<Swn> for SwnCodec {
    ghost use Rattle.rs_encode.specs.Values.{swn};

    ghost form = { swn };

    #[tactic(auto, unfolding(crate::specs::Values::swn))]
    fn put(value: &Swn, out: &mut Bytes) -> Result<(), NoMemory> {
        IdentCodec::put(&value.creator, out)?;
        SiteNoCodec::put(&value.creator_site, out)?;
        IdentCodec::put(&value.object, out)?;
        SiteNoCodec::put(&value.birth, out)
    }

    #[tactic(auto, unfolding(crate::specs::Values::swn))]
    fn take(alloc: Global, fields: &mut Fields<'_>) -> Result<Swn, ReadFault> {
        Ok(Swn {
            creator: IdentCodec::take(alloc, fields)?,
            creator_site: SiteNoCodec::take(alloc, fields)?,
            object: IdentCodec::take(alloc, fields)?,
            birth: SiteNoCodec::take(alloc, fields)?,
        })
    }
}
