//! Codecs of identifiers, texts and sites.

ghost use Rattle.std.specs.Prelude.{◌≡◌, ◌++◌, OnOk, IsTrue};
ghost use Rattle.rs_base.specs.Reading.{Reads};

use crate::codec::Codec;
use rs_base::{Bytes, Ident, NoMemory, ReadFault, SiteNo, Txt, TxtFault};
use rs_codec::{Fields, put_byte, put_text};
use std::alloc::Global;

/// The codec of an identifier: the count of its bytes, and the bytes.
pub struct IdentCodec;

/// The codec of a text: the count of its bytes, and the bytes.
pub struct TxtCodec;

/// The codec of a site: a byte from 1 to 16.
pub struct SiteNoCodec;

impl Codec<Ident> for IdentCodec {
    ghost use Rattle.rs_encode.specs.Values.{ident};

    ghost form = { ident };

    #[tactic(auto, unfolding(crate::specs::Values::ident, crate::specs::Values::text))]
    fn put(value: &Ident, out: &mut Bytes) -> Result<(), NoMemory> {
        put_text(out, value.as_bytes())
    }

    #[tactic(auto, unfolding(crate::specs::Values::ident, crate::specs::Values::text))]
    fn take(_alloc: Global, fields: &mut Fields<'_>) -> Result<Ident, ReadFault> {
        let bytes = fields.take_text().ok_or(ReadFault::Malformed)?;
        Ident::new(bytes).ok_or(ReadFault::Malformed)
    }
}

impl Codec<Txt> for TxtCodec {
    ghost use Rattle.rs_encode.specs.Values.{txt};

    ghost form = { txt };

    #[tactic(auto, unfolding(crate::specs::Values::txt, crate::specs::Values::text))]
    fn put(value: &Txt, out: &mut Bytes) -> Result<(), NoMemory> {
        put_text(out, value.as_bytes())
    }

    #[tactic(auto, unfolding(crate::specs::Values::txt, crate::specs::Values::text))]
    fn take(alloc: Global, fields: &mut Fields<'_>) -> Result<Txt, ReadFault> {
        let bytes = fields.take_text().ok_or(ReadFault::Malformed)?;
        match Txt::new(alloc, bytes) {
            Ok(text) => Ok(text),
            Err(TxtFault::Bad) => Err(ReadFault::Malformed),
            Err(TxtFault::NoMemory) => Err(ReadFault::NoMemory),
        }
    }
}

impl Codec<SiteNo> for SiteNoCodec {
    ghost use Rattle.rs_encode.specs.Values.{site};

    ghost form = { site };

    #[tactic(auto, unfolding(crate::specs::Values::site, crate::specs::Values::byte))]
    fn put(value: &SiteNo, out: &mut Bytes) -> Result<(), NoMemory> {
        put_byte(out, value.number() as u8)
    }

    #[tactic(auto, unfolding(crate::specs::Values::site, crate::specs::Values::byte))]
    fn take(_alloc: Global, fields: &mut Fields<'_>) -> Result<SiteNo, ReadFault> {
        let number = fields.read_byte()?;
        SiteNo::new(u16::from(number)).ok_or(ReadFault::Malformed)
    }
}
