//! The two ends of a datagram.

use crate::bytes::Bytes;
use crate::site_no::SiteNo;
use sqlite_items::Items;

/// A site, or a client by its port.
#[derive(Clone, Copy, PartialEq, Eq, PartialOrd, Ord)]
pub enum Peer {
    Site(SiteNo),
    Client(u16),
}

/// Datagrams, each with its destination.
pub type Datagrams = Items<(Peer, Bytes)>;
