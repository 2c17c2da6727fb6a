//! The inputs of a site.

use rs_base::{Bytes, Peer};

/// One input of a site.
#[derive(Drop)]
pub enum Input {
    /// A datagram, and the peer that sent it.
    Datagram(Peer, Bytes),
    /// Time passes.
    Tick,
}
