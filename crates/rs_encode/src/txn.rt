//! Codecs of transactions and enlistments.

ghost use Rattle.std.specs.Prelude.{◌≡◌, ◌++◌, OnOk, IsTrue};
ghost use Rattle.rs_base.specs.Reading.{Reads};

use crate::codec::Codec;
use crate::number::{EightBytes, FourBytes};
use crate::text::SiteNoCodec;
use rs_base::{Bytes, Enlist, NoMemory, ReadFault, Txn};
use rs_codec::Fields;
use std::alloc::Global;

/// The codec of a transaction.
pub struct TxnCodec;

impl Codec<Txn> for TxnCodec {
    ghost use Rattle.rs_encode.specs.Values.{txn};

    ghost form = { txn };

    #[tactic(auto, unfolding(crate::specs::Values::txn))]
    fn put(value: &Txn, out: &mut Bytes) -> Result<(), NoMemory> {
        SiteNoCodec::put(&value.site, out)?;
        FourBytes::put(&value.epoch, out)?;
        EightBytes::put(&value.number, out)
    }

    #[tactic(auto, unfolding(crate::specs::Values::txn))]
    fn take(alloc: Global, fields: &mut Fields<'_>) -> Result<Txn, ReadFault> {
        Ok(Txn {
            site: SiteNoCodec::take(alloc, fields)?,
            epoch: FourBytes::take(alloc, fields)?,
            number: EightBytes::take(alloc, fields)?,
        })
    }
}

/// The codec of an enlistment.
pub struct EnlistCodec;

impl Codec<Enlist> for EnlistCodec {
    ghost use Rattle.rs_encode.specs.Values.{enlist};

    ghost form = { enlist };

    #[tactic(auto, unfolding(crate::specs::Values::enlist))]
    fn put(value: &Enlist, out: &mut Bytes) -> Result<(), NoMemory> {
        SiteNoCodec::put(&value.site, out)?;
        FourBytes::put(&value.epoch, out)?;
        EightBytes::put(&value.number, out)
    }

    #[tactic(auto, unfolding(crate::specs::Values::enlist))]
    fn take(alloc: Global, fields: &mut Fields<'_>) -> Result<Enlist, ReadFault> {
        Ok(Enlist {
            site: SiteNoCodec::take(alloc, fields)?,
            epoch: FourBytes::take(alloc, fields)?,
            number: EightBytes::take(alloc, fields)?,
        })
    }
}
