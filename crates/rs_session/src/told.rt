//! Parts of replies.

use rs_base::{Origin, Peer, Reply};
use sqlite_items::Items;

/// One part of a printed reply to a peer: the request, the part's number, counted from 0, and the reply.
#[derive(Drop)]
pub struct Told {
    pub peer: Peer,
    pub origin: Origin,
    pub part: u32,
    pub reply: Reply,
}

pub type Tolds = Items<Told>;
