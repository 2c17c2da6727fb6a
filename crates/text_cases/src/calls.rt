//! Calls, replies and changes: which bytes are their encodings.

use case_tools::{Output, Words};
use rs_base::{Bytes, NoMemory, ReadFault};
use rs_calls::{put_call, put_call_reply, put_change, take_call, take_call_reply, take_change};
use rs_codec::Fields;
use std::alloc::Global;

/// Returns the bytes of this hexadecimal notation; `-` is none.
fn bytes_of(alloc: Global, hex: &str) -> Result<Bytes, NoMemory> {
    let mut bytes = Bytes::new(alloc);
    for pair in hex.as_bytes().chunks_exact(2) {
        let digits = str::from_utf8(pair).unwrap_or("");
        bytes.push(u8::from_str_radix(digits, 16).unwrap_or(0))?;
    }
    Ok(bytes)
}

/// Takes a call, and appends its encoding.
fn encode_call(alloc: Global, fields: &mut Fields<'_>, again: &mut Bytes) -> Result<(), ReadFault> {
    let call = take_call(alloc, fields)?;
    put_call(alloc, &call, again).map_err(ReadFault::from)
}

/// Takes a reply to a call, and appends its encoding.
fn encode_reply(
    alloc: Global,
    fields: &mut Fields<'_>,
    again: &mut Bytes,
) -> Result<(), ReadFault> {
    let reply = take_call_reply(alloc, fields)?;
    put_call_reply(alloc, &reply, again).map_err(ReadFault::from)
}

/// Takes a change, and appends its encoding.
fn encode_change(
    alloc: Global,
    fields: &mut Fields<'_>,
    again: &mut Bytes,
) -> Result<(), ReadFault> {
    let change = take_change(alloc, fields)?;
    put_change(alloc, &change, again).map_err(ReadFault::from)
}

/// Takes a call, a reply or a change, and appends its encoding.
fn encode_again(
    alloc: Global,
    kind: &str,
    fields: &mut Fields<'_>,
    again: &mut Bytes,
) -> Result<(), ReadFault> {
    match kind {
        "call" => encode_call(alloc, fields, again),
        "reply" => encode_reply(alloc, fields, again),
        _ => encode_change(alloc, fields, again),
    }
}

/// Appends how many bytes are left, or that what was taken is encoded otherwise than by the bytes before them.
fn append_left(bytes: &[u8], again: &[u8], left: usize, out: &mut Output) {
    if bytes.strip_prefix(again).map(|rest| rest.len()) != Some(left) {
        out.text("encoded otherwise");
    } else if left == 0 {
        out.text("whole");
    } else {
        out.text("left ");
        out.number(left as u64);
    }
}

/// Appends `whole` if the bytes are the encoding of a call, a reply or a change, `left` and the number of bytes after it if
/// it is one of the first of them, and else `none`.
pub fn append_taken(words: &mut Words<'_>, out: &mut Output) -> Result<(), NoMemory> {
    let kind = words.next();
    let bytes = bytes_of(out.alloc, words.next())?;
    let mut fields = Fields::new(bytes.as_slice());
    let mut again = Bytes::new(out.alloc);
    match encode_again(out.alloc, kind, &mut fields, &mut again) {
        Ok(()) => append_left(bytes.as_slice(), again.as_slice(), fields.rest().len(), out),
        Err(ReadFault::Malformed) => out.text("none"),
        Err(ReadFault::NoMemory) => out.note(Err(NoMemory)),
    }
    Ok(())
}
