//! Encoding and decoding calls, replies and changes, all or nothing.

ghost use Rattle.std.specs.Prelude.{◌≡◌, ◌++◌, OnOk, OnErr, IfErr, IsTrue};
ghost use Rattle.rs_base.specs.Reading.{Reads};
ghost use Rattle.rs_calls.specs.Limits as limits;
ghost use Rattle.rs_calls.specs.Replies as replies;

use crate::call::CallCodec;
use crate::change::ChangeCodec;
use crate::limits::{call_is_within, change_is_within};
use crate::reply::CallReplyCodec;
use rs_base::{Bytes, NoMemory, ReadFault};
use rs_codec::Fields;
use rs_encode::{Codec, append, read};
use rs_plan::{Call, CallReply, Change};
use std::alloc::Global;

/// Appends the bytes of a call to `out`. They are its encoding if no term of a row to be inserted is a column. On out of
/// memory nothing changes. Linear in the bytes.
#[tactic(auto, unfolding(crate::specs::Limits::call))]
pub fn put_call(alloc: Global, call: &Call, out: &mut Bytes) -> Result<(), NoMemory>
    ensures ok { OnOk result (out.new ≡ out.old ++ limits.call.bytes call.now) }
    ensures fits { IsTrue (limits.call_is_within call.now)
        → OnOk result (IsTrue (limits.call.fits call.now)) }
    ensures err { OnErr result (out.new ≡ out.old) }
{
    append::<Call, CallCodec>(alloc, call, out)
}

/// Takes the call whose encoding comes next. Fails with `Malformed` exactly if there is none. Where it fails, nothing is
/// consumed. Linear in the encoding.
#[tactic(auto, unfolding(crate::specs::Limits::call))]
pub fn take_call(alloc: Global, fields: &mut Fields<'_>) -> Result<Call, ReadFault>
    ensures read { Reads (limits.call.at fields.old) result fields.new }
    ensures stays { IfErr result (λ fault. fields.new ≡ fields.old) }
{
    let mut rest = Fields::new(fields.rest());
    let call = CallCodec::take(alloc, &mut rest)?;
    if !call_is_within(&call) {
        return Err(ReadFault::Malformed);
    }
    *fields = rest;
    Ok(call)
}

/// Appends the encoding of a reply to a call to `out`. On out of memory nothing changes. Linear in the encoding.
pub fn put_call_reply(alloc: Global, reply: &CallReply, out: &mut Bytes) -> Result<(), NoMemory>
    ensures ok { OnOk result (out.new ≡ out.old ++ replies.call_reply.bytes reply.now) }
    ensures fits { OnOk result (IsTrue (replies.call_reply.fits reply.now)) }
    ensures err { OnErr result (out.new ≡ out.old) }
{
    append::<CallReply, CallReplyCodec>(alloc, reply, out)
}

/// Takes the reply whose encoding comes next. Fails with `Malformed` exactly if there is none. Where it fails, nothing is
/// consumed. Linear in the encoding.
pub fn take_call_reply(alloc: Global, fields: &mut Fields<'_>) -> Result<CallReply, ReadFault>
    ensures read { Reads (replies.call_reply.at fields.old) result fields.new }
    ensures stays { IfErr result (λ fault. fields.new ≡ fields.old) }
{
    read::<CallReply, CallReplyCodec>(alloc, fields)
}

/// Appends the bytes of a change to `out`. They are its encoding if no term of a row to be inserted is a column. On out of
/// memory nothing changes. Linear in the bytes.
#[tactic(auto, unfolding(crate::specs::Limits::change))]
pub fn put_change(alloc: Global, change: &Change, out: &mut Bytes) -> Result<(), NoMemory>
    ensures ok { OnOk result (out.new ≡ out.old ++ limits.change.bytes change.now) }
    ensures fits { IsTrue (limits.change_is_within change.now)
        → OnOk result (IsTrue (limits.change.fits change.now)) }
    ensures err { OnErr result (out.new ≡ out.old) }
{
    append::<Change, ChangeCodec>(alloc, change, out)
}

/// Takes the change whose encoding comes next. Fails with `Malformed` exactly if there is none. Where it fails, nothing is
/// consumed. Linear in the encoding.
#[tactic(auto, unfolding(crate::specs::Limits::change))]
pub fn take_change(alloc: Global, fields: &mut Fields<'_>) -> Result<Change, ReadFault>
    ensures read { Reads (limits.change.at fields.old) result fields.new }
    ensures stays { IfErr result (λ fault. fields.new ≡ fields.old) }
{
    let mut rest = Fields::new(fields.rest());
    let change = ChangeCodec::take(alloc, &mut rest)?;
    if !change_is_within(&change) {
        return Err(ReadFault::Malformed);
    }
    *fields = rest;
    Ok(change)
}
