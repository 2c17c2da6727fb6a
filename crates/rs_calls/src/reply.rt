//! The codec of replies to calls.

ghost use Rattle.std.specs.Prelude.{◌≡◌, ◌++◌, OnOk, IsTrue};
ghost use Rattle.rs_base.specs.Reading.{Reads};

use crate::program::{BodyCodec, HeadCodec};
use rs_base::{Bytes, NoMemory, ReadFault};
use rs_codec::{Fields, put_byte};
use rs_encode::{
    Bool, Codec, DenialCodec, EightBytes, EnlistCodec, ListOf, OptionOf, ResourceCodec,
    SiteNoCodec, SwnCodec, ValueCodec,
};
use rs_encode_ast::EntryCodec;
use rs_plan::CallReply;
use std::alloc::Global;

/// The codec of a reply to a call.
pub struct CallReplyCodec;

impl Codec<CallReply> for CallReplyCodec {
    ghost use Rattle.rs_calls.specs.Replies.{call_reply};

    ghost form = { call_reply };

    #[tactic(auto, unfolding(crate::specs::Replies::call_reply))]
    fn put(value: &CallReply, out: &mut Bytes) -> Result<(), NoMemory> {
        match value {
            CallReply::Name(field) => {
                put_byte(out, 1)?;
                OptionOf::<SwnCodec>::put(field, out)
            }
            CallReply::Done => put_byte(out, 2),
            CallReply::Taken => put_byte(out, 3),
            CallReply::Absent => put_byte(out, 4),
            CallReply::Place(field) => {
                put_byte(out, 5)?;
                OptionOf::<SiteNoCodec>::put(field, out)
            }
            CallReply::Entry(field) => {
                put_byte(out, 6)?;
                EntryCodec::put(field, out)
            }
            CallReply::NotHere => put_byte(out, 7),
            CallReply::Rows { rows, more } => {
                put_byte(out, 8)?;
                ListOf::<ListOf<ValueCodec>>::put(rows, out)?;
                Bool::put(more, out)
            }
            CallReply::Changed(field) => {
                put_byte(out, 9)?;
                EightBytes::put(field, out)
            }
            CallReply::Refused(field) => {
                put_byte(out, 10)?;
                DenialCodec::put(field, out)
            }
            CallReply::Stale => put_byte(out, 11),
            CallReply::Invalid => put_byte(out, 12),
            CallReply::Head(field) => {
                put_byte(out, 13)?;
                OptionOf::<HeadCodec>::put(field, out)
            }
            CallReply::Body(field) => {
                put_byte(out, 14)?;
                BodyCodec::put(field, out)
            }
            CallReply::Waited(first, second) => {
                put_byte(out, 15)?;
                ResourceCodec::put(first, out)?;
                EnlistCodec::put(second, out)
            }
        }
    }

    #[tactic(auto, unfolding(crate::specs::Replies::call_reply))]
    fn take(alloc: Global, fields: &mut Fields<'_>) -> Result<CallReply, ReadFault> {
        match fields.read_byte()? {
            1 => Ok(CallReply::Name(OptionOf::<SwnCodec>::take(alloc, fields)?)),
            2 => Ok(CallReply::Done),
            3 => Ok(CallReply::Taken),
            4 => Ok(CallReply::Absent),
            5 => Ok(CallReply::Place(OptionOf::<SiteNoCodec>::take(alloc, fields)?)),
            6 => Ok(CallReply::Entry(EntryCodec::take(alloc, fields)?)),
            7 => Ok(CallReply::NotHere),
            8 => Ok(CallReply::Rows {
                rows: ListOf::<ListOf<ValueCodec>>::take(alloc, fields)?,
                more: Bool::take(alloc, fields)?,
            }),
            9 => Ok(CallReply::Changed(EightBytes::take(alloc, fields)?)),
            10 => Ok(CallReply::Refused(DenialCodec::take(alloc, fields)?)),
            11 => Ok(CallReply::Stale),
            12 => Ok(CallReply::Invalid),
            13 => Ok(CallReply::Head(OptionOf::<HeadCodec>::take(alloc, fields)?)),
            14 => Ok(CallReply::Body(BodyCodec::take(alloc, fields)?)),
            15 => Ok(CallReply::Waited(
                ResourceCodec::take(alloc, fields)?,
                EnlistCodec::take(alloc, fields)?,
            )),
            _ => Err(ReadFault::Malformed),
        }
    }
}
