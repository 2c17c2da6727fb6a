//! The report of a world.

use crate::outs::{Decideds, Runs};
use rs_base::{Origin, Reply, SiteNo, Swn, Txn};
use rs_rows::StoredRows;
use sqlite_items::Items;

/// A reply, and the request that it answers, as it was asked.
#[derive(Drop)]
pub struct ReportedReply {
    pub origin: Origin,
    pub reply: Reply,
}

/// Replies in the order in which they were given.
pub type ReplyList = Items<ReportedReply>;

/// A table that a site stores: its name, the transaction that created it, and its rows in order of insertion.
#[derive(Drop)]
pub struct TableView {
    pub name: Swn,
    pub made: Txn,
    pub rows: StoredRows,
}

/// Tables, sorted by name.
pub type TableViews = Items<TableView>;

/// What a site shows: its epoch, if it is up, and then its tables.
#[derive(Drop)]
pub struct SiteView {
    pub site: SiteNo,
    pub up: Option<u32>,
    pub tables: TableViews,
}

/// The view of each site, sorted by number.
pub type SiteViews = Items<SiteView>;

/// The replies, the committed executions in their serial order, the runs of stored sections, and the sites.
#[derive(Drop)]
pub struct Report {
    pub replies: ReplyList,
    pub history: Decideds,
    pub runs: Runs,
    pub sites: SiteViews,
}
