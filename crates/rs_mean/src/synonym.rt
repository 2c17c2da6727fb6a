//! Synonyms.

use rs_base::{Ident, SiteNo};

/// A user's synonym at a site. Synonyms are ordered by these fields.
#[derive(Clone, Copy, PartialEq, Eq, PartialOrd, Ord)]
pub struct Synonym {
    pub site: SiteNo,
    pub user: Ident,
    pub name: Ident,
}
