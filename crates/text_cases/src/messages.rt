//! Messages: how they are encoded, and what datagrams say.

use case_tools::{Output, Words, unescaped};
use rs_base::{NoMemory, ReadFault};
use rs_msg::{Ask, Message, ReplyPart, decode, encode};
use std::alloc::Global;

/// Reads `USER EPOCH NUMBER PART TEXT`.
fn read_ask(alloc: Global, words: &mut Words<'_>) -> Result<Ask, NoMemory> {
    Ok(Ask {
        user: words.ident(),
        epoch: words.small(),
        number: words.number(),
        part: words.small(),
        text: unescaped(alloc, words.rest())?,
    })
}

/// Reads `SITE USER EPOCH NUMBER PART PARTS BYTES`.
fn read_reply(alloc: Global, words: &mut Words<'_>) -> Result<ReplyPart, NoMemory> {
    Ok(ReplyPart {
        origin: words.origin(),
        part: words.small(),
        parts: words.small(),
        bytes: unescaped(alloc, words.rest())?,
    })
}

/// Reads an ask, or a part of a reply.
fn read_message(alloc: Global, words: &mut Words<'_>) -> Result<Message, NoMemory> {
    match words.next() {
        "ask" => Ok(Message::Ask(read_ask(alloc, words)?)),
        _ => Ok(Message::Reply(read_reply(alloc, words)?)),
    }
}

/// Appends the encoding of a message.
pub fn append_encoded(words: &mut Words<'_>, out: &mut Output) -> Result<(), NoMemory> {
    let message = read_message(out.alloc, words)?;
    let appended = encode(out.alloc, &message, out.target());
    out.note(appended);
    Ok(())
}

/// Appends the fields of a request.
fn append_ask(ask: &Ask, out: &mut Output) {
    out.text("ask ");
    out.append(ask.user.as_bytes());
    out.text(" ");
    out.number(u64::from(ask.epoch));
    out.text(" ");
    out.number(ask.number);
    out.text(" ");
    out.number(u64::from(ask.part));
    out.text(" ");
    out.append(ask.text.as_slice());
}

/// Appends the fields of a part of a reply.
fn append_reply(reply: &ReplyPart, out: &mut Output) {
    out.text("reply ");
    out.origin(&reply.origin);
    out.text(" ");
    out.number(u64::from(reply.part));
    out.text(" ");
    out.number(u64::from(reply.parts));
    out.text(" ");
    out.append(reply.bytes.as_slice());
}

/// Appends the message, or `malformed`.
fn append_message(message: Result<Message, ReadFault>, out: &mut Output) {
    match message {
        Ok(Message::Ask(ask)) => append_ask(&ask, out),
        Ok(Message::Reply(reply)) => append_reply(&reply, out),
        Err(ReadFault::Malformed) => out.text("malformed"),
        Err(ReadFault::NoMemory) => out.note(Err(NoMemory)),
    }
}

/// Appends the message that a datagram says, or `malformed`.
pub fn append_decoded(input: &str, out: &mut Output) -> Result<(), NoMemory> {
    let datagram = unescaped(out.alloc, input)?;
    append_message(decode(out.alloc, datagram.as_slice()), out);
    Ok(())
}
