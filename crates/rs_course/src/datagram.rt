//! Datagrams.

use rs_base::{Bytes, Peer, SiteNo};

/// A datagram as it was sent to a site.
#[derive(Drop)]
pub struct Datagram {
    pub from: Peer,
    pub to: SiteNo,
    pub bytes: Bytes,
}
