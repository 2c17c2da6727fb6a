//! The output of a step of a site.

use rs_base::{Bytes, Datagrams, Origin, SiteNo, Txn};
use rs_plan::SectionId;
use rs_session::Tolds;
use sqlite_items::Items;

/// A committed execution: its transaction, its request, and the request's text.
#[derive(Drop)]
pub struct Decided {
    pub txn: Txn,
    pub origin: Origin,
    pub text: Bytes,
}

pub type Decideds = Items<Decided>;

/// A run of a stored section: the site that ran it, and the section.
#[derive(Clone, Copy)]
pub struct RunOf {
    pub site: SiteNo,
    pub id: SectionId,
}

pub type Runs = Items<RunOf>;

/// The output of a step: datagrams to sites, replies, committed executions, and runs of stored sections.
#[derive(Drop)]
pub struct Outs {
    pub sends: Datagrams,
    pub replies: Tolds,
    pub decided: Decideds,
    pub runs: Runs,
}
