//! Names of tables, as written and system-wide.

ghost use Rattle.std.specs.Prelude.{◌≡◌};
ghost use Rattle.rs_base.specs.Name as spec;

use crate::ident::Ident;
use crate::site_no::SiteNo;

/// A name as a statement writes it: `creator@creator_site.object@birth`, where only the object is required.
#[derive(Clone, Copy)]
pub struct NameText {
    pub creator: Option<Ident>,
    pub creator_site: Option<SiteNo>,
    pub object: Ident,
    pub birth: Option<SiteNo>,
}

/// A system-wide name (Lindsay 1981): the creator, the creator's site, the object, and its birth site, where it was
/// created. It never changes, wherever the object is moved. Names are ordered by these fields.
#[derive(Clone, Copy, PartialEq, Eq, PartialOrd, Ord)]
pub struct Swn {
    pub creator: Ident,
    pub creator_site: SiteNo,
    pub object: Ident,
    pub birth: SiteNo,
}

impl NameText {
    /// Makes a name of one identifier.
    pub fn plain(object: Ident) -> NameText
        ensures { result ≡ spec.plain object }
    {
        NameText {
            creator: None,
            creator_site: None,
            object,
            birth: None,
        }
    }

    /// Returns the system-wide name for `user` at `site`, without regard to synonyms.
    pub fn resolve(&self, user: Ident, site: SiteNo) -> Swn
        ensures { result ≡ spec.resolve self.now user site }
    {
        let (creator, creator_site) = match self.creator {
            None => (user, site),
            Some(creator) => (creator, self.creator_site.unwrap_or(site)),
        };
        Swn {
            creator,
            creator_site,
            object: self.object,
            birth: self.birth.unwrap_or(site),
        }
    }
}
