//! A site, and how it is opened.

ghost use Rattle.std.specs.Prelude.{◌≡◌, IfOk};
ghost use Rattle.rs_site.specs.State.{opened};

use crate::desk::Desk;
use crate::held::Held;
use crate::who::Who;
use rs_base::{NoMemory, SiteNo};
use rs_mean::Database;
use std::alloc::Global;
use std::marker::Model;

/// A site. Its state changes by `step` alone.
#[derive(Drop)]
pub struct Site {
    pub(crate) who: Who,
    pub(crate) desk: Desk,
    pub(crate) held: Held,
}

impl Model for Site {
    ghost use Rattle.rs_site.specs.State.{SiteState};

    ghost Value = { SiteState };

    ghost view = { λ it. record { who = it.who; desk = it.desk; held = it.held } };
}

impl Site {
    /// Opens a site among `sites`, in epoch 1, without users and tables.
    pub fn open(alloc: Global, me: SiteNo, sites: SiteNo) -> Result<Site, NoMemory>
        ensures { IfOk result (λ site. site ≡ opened me sites) }
    {
        let who = Who {
            me,
            sites,
            epoch: 1,
        };
        let held = Held {
            database: Database::new(alloc, sites),
        };
        Ok(Site {
            who,
            desk: Desk::new(alloc),
            held,
        })
    }

    /// Returns the number of the site.
    pub fn me(&self) -> SiteNo
        ensures { result ≡ self.now.who.me }
    {
        self.who.me
    }

    /// Returns the epoch that requests have to name.
    pub fn epoch(&self) -> u32
        ensures { result ≡ self.now.who.epoch }
    {
        self.who.epoch
    }

    /// Returns the database of the site.
    pub fn database(&self) -> &Database
        ensures { result.now ≡ self.now.held.database }
    {
        &self.held.database
    }

    /// Returns the database of a site that is no longer used.
    pub fn into_database(self) -> Database
        ensures { result ≡ self.held.database }
    {
        self.held.database
    }
}
