//! The messages of the protocol.

use rs_base::{Bytes, Ident, Origin};

/// The most bytes of a request's text. A longer text has no encoding.
pub const ASK_LIMIT: usize = 8192;

/// A request from a client to a site, or the same request for a further part of its reply.
#[derive(Drop)]
pub struct Ask {
    /// The user that asks.
    pub user: Ident,
    /// The epoch of the site that is asked of.
    pub epoch: u32,
    /// The user's number for the request.
    pub number: u64,
    /// The part of the reply that is asked for, from 0. Only the ask for part 0 executes the request.
    pub part: u32,
    /// The request's text, of at most `ASK_LIMIT` bytes. A longer one has no encoding.
    pub text: Bytes,
}

/// A part of a reply, from a site to a client.
#[derive(Drop)]
pub struct ReplyPart {
    /// The request that is answered.
    pub origin: Origin,
    /// The number of this part, from 0.
    pub part: u32,
    /// The number of parts.
    pub parts: u32,
    /// The bytes of the part. With at most 30,000 the message fits a datagram.
    pub bytes: Bytes,
}

/// A datagram's message: kind 1 asks for a part of a reply, and kind 2 is one.
#[derive(Drop)]
pub enum Message {
    Ask(Ask),
    Reply(ReplyPart),
}
