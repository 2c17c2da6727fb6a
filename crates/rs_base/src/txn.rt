//! Identifiers of transactions, of their parts at sites, and of requests.

use crate::ident::Ident;
use crate::site_no::SiteNo;

/// A transaction: the site that coordinates it, that site's epoch, and a number within the epoch.
#[derive(Clone, Copy, PartialEq, Eq, PartialOrd, Ord)]
pub struct Txn {
    pub site: SiteNo,
    pub epoch: u32,
    pub number: u64,
}

/// An enlistment, the part of a transaction at one site: the site, its epoch, and a number within the epoch.
#[derive(Clone, Copy, PartialEq, Eq, PartialOrd, Ord)]
pub struct Enlist {
    pub site: SiteNo,
    pub epoch: u32,
    pub number: u64,
}

/// A request: the site that is asked, the user, the epoch that the user names, and the user's number for it.
#[derive(Clone, Copy, PartialEq, Eq, PartialOrd, Ord)]
pub struct Origin {
    pub site: SiteNo,
    pub user: Ident,
    pub epoch: u32,
    pub number: u64,
}
