//! Calls of a site, of parts of replies, and of a world.

use case_tools::{Cases, Output, Words, unescaped};
use rs_base::{Bytes, NoMemory, Peer, ReadFault, Reply, SiteNo, one_item};
use rs_msg::{Ask, Message, ReplyPart, decode, encode};
use rs_sched::{Event, parse_schedule};
use rs_site::{Input, Outs, Site, Told};
use rs_world::{World, print_report};
use std::alloc::Global;

/// The client that each datagram comes from.
const CLIENT: Peer = Peer::Client(7);

/// The site that the calls are made on.
#[derive(Drop)]
pub struct SiteCases {
    site: Site,
}

/// Returns the encoding of a message.
fn encoded(alloc: Global, message: &Message) -> Result<Bytes, NoMemory> {
    let mut bytes = Bytes::new(alloc);
    encode(alloc, message, &mut bytes)?;
    Ok(bytes)
}

/// Reads an ask `USER EPOCH NUMBER PART TEXT`.
fn read_ask(alloc: Global, words: &mut Words<'_>) -> Result<Message, NoMemory> {
    Ok(Message::Ask(Ask {
        user: words.ident(),
        epoch: words.small(),
        number: words.number(),
        part: words.small(),
        text: unescaped(alloc, words.rest())?,
    }))
}

/// Reads a datagram's bytes, or those of an ask.
fn read_datagram(alloc: Global, call: &str, words: &mut Words<'_>) -> Result<Bytes, NoMemory> {
    match call {
        "datagram" => unescaped(alloc, words.rest()),
        _ => encoded(alloc, &read_ask(alloc, words)?),
    }
}

/// Reads a tick, a datagram or an ask.
fn read_input(alloc: Global, call: &str, words: &mut Words<'_>) -> Result<Input, NoMemory> {
    match call {
        "tick" => Ok(Input::Tick),
        _ => Ok(Input::Datagram(CLIENT, read_datagram(alloc, call, words)?)),
    }
}

/// Appends the replies, and the number of committed executions.
fn append_outs(outs: &Outs, out: &mut Output) {
    for told in outs.replies.as_slice() {
        out.reply(&told.origin, &told.reply);
    }
    out.text("committed ");
    out.number(outs.decided.len() as u64);
}

/// Appends the parts that the replies are, each with a blank after it.
fn append_parts(outs: &Outs, out: &mut Output) {
    for told in outs.replies.as_slice() {
        out.number(u64::from(told.part));
        out.text(" ");
    }
}

/// Appends what comes out of a step.
fn append_step(call: &str, outs: &Outs, out: &mut Output) {
    match call {
        "parts" => append_parts(outs, out),
        _ => append_outs(outs, out),
    }
}

/// Reads the reply that shows a line, or that the text is no request.
fn read_reply(alloc: Global, line: &str) -> Result<Reply, NoMemory> {
    if line.is_empty() {
        return Ok(Reply::Syntax(0));
    }
    Ok(Reply::Shown(one_item(alloc, unescaped(alloc, line)?)?))
}

/// Appends the fields of a part of a reply.
fn append_reply(reply: &ReplyPart, out: &mut Output) {
    out.origin(&reply.origin);
    out.text(" part ");
    out.number(u64::from(reply.part));
    out.text(" of ");
    out.number(u64::from(reply.parts));
    out.text(" ");
    out.append(reply.bytes.as_slice());
}

/// Appends the fields of a message that is a part of a reply.
fn append_message(message: &Result<Message, ReadFault>, out: &mut Output) {
    match message {
        Ok(Message::Reply(reply)) => append_reply(reply, out),
        _ => out.text("another message"),
    }
}

/// Appends a message, as it is read from its encoding, or `none`.
fn append_decoded(message: Option<&Message>, out: &mut Output) -> Result<(), NoMemory> {
    match message {
        Some(message) => {
            let bytes = encoded(out.alloc, message)?;
            append_message(&decode(out.alloc, bytes.as_slice()), out);
            Ok(())
        }
        None => {
            out.text("none");
            Ok(())
        }
    }
}

/// Reads a part `SITE USER EPOCH NUMBER PART LINE` of a reply.
fn read_told(alloc: Global, words: &mut Words<'_>) -> Result<Told, NoMemory> {
    Ok(Told {
        peer: CLIENT,
        origin: words.origin(),
        part: words.small(),
        reply: read_reply(alloc, words.rest())?,
    })
}

/// Appends the message of a part of a reply, as it is read from its encoding, or `none`.
fn append_told(words: &mut Words<'_>, out: &mut Output) -> Result<(), NoMemory> {
    let told = read_told(out.alloc, words)?;
    append_decoded(told.message(out.alloc)?.as_ref(), out)
}

/// Plays a course of events, and returns its report.
fn played(alloc: Global, events: &[Event]) -> Result<Bytes, NoMemory> {
    let report = World::play(alloc, events)?.into_report(alloc)?;
    print_report(alloc, &report)
}

/// Appends the report of a schedule.
fn append_report(schedule: &str, out: &mut Output) -> Result<(), NoMemory> {
    let schedule = unescaped(out.alloc, schedule)?;
    match parse_schedule(out.alloc, schedule.as_slice()) {
        Ok(events) => out.append(played(out.alloc, events.as_slice())?.as_slice()),
        Err(_) => out.text("no schedule"),
    }
    Ok(())
}

impl SiteCases {
    /// Opens the only site.
    pub fn new(alloc: Global) -> Result<SiteCases, NoMemory> {
        Ok(SiteCases {
            site: Site::open(alloc, SiteNo::first(), SiteNo::first())?,
        })
    }

    /// Steps the site, and appends what comes out.
    fn step(
        &mut self,
        call: &str,
        words: &mut Words<'_>,
        out: &mut Output,
    ) -> Result<(), NoMemory> {
        let input = read_input(out.alloc, call, words)?;
        append_step(call, &self.site.step(out.alloc, &input)?, out);
        Ok(())
    }
}

impl Cases for SiteCases {
    fn answer(&mut self, words: &mut Words<'_>, out: &mut Output) -> Result<(), NoMemory> {
        match words.next() {
            "new" => {
                *self = SiteCases::new(out.alloc)?;
                Ok(())
            }
            "tables" => {
                out.number(self.site.database().tables().len() as u64);
                Ok(())
            }
            "message" => append_told(words, out),
            "play" => append_report(words.rest(), out),
            call => self.step(call, words, out),
        }
    }
}
