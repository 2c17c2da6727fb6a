//! Which site a site is.

ghost use Rattle.std.specs.Prelude.{◌≡◌, ◌<◌};
ghost use Rattle.rs_site.specs.declared.desk.Desk.{Desk};
ghost use Rattle.rs_site.specs.Asking.{last_number};
ghost use Rattle.rs_site.specs.State.{next_txn};

use crate::desk::Desk;
use rs_base::{SiteNo, Txn};

/// The number of a site, the number of sites, and the site's epoch.
#[derive(Drop)]
pub(crate) struct Who {
    pub(crate) me: SiteNo,
    pub(crate) sites: SiteNo,
    pub(crate) epoch: u32,
}

impl Who {
    /// Returns the next transaction, while the epoch has one left.
    pub(crate) fn next_txn(&self, desk: &Desk) -> Txn
        requires { desk.now.begun < last_number }
        ensures { result ≡ next_txn self.now desk.now }
    {
        Txn {
            site: self.me,
            epoch: self.epoch,
            number: desk.begun + 1,
        }
    }
}
