//! What the names in a statement refer to, and when one can't be used.

ghost use Rattle.std.specs.Prelude.{◌≡◌, [], ◌∷◌};
ghost use Rattle.rs_scope.specs.Denials.{first_denial};
ghost use Rattle.rs_mean.specs.Names as spec;

use crate::database::Database;
use crate::execution::Execution;
use crate::synonym::Synonym;
use rs_base::{Denial, Ident, NameText, Swn};
use rs_name::resolve;

impl Execution {
    /// Returns the name that the user's synonym at the asked site refers to, if there is one.
    pub(crate) fn own_synonym(&self, name: Ident) -> Synonym
        ensures { result ≡ spec.own_synonym self.now name }
    {
        Synonym {
            site: self.site,
            user: self.user,
            name,
        }
    }
}

impl Database {
    /// Resolves a name in this execution.
    pub(crate) fn name_of(&self, execution: &Execution, written: &NameText) -> Swn
        ensures { result ≡ spec.name_of self.now execution.now written.now }
    {
        let synonym = self.target(&execution.own_synonym(written.object));
        resolve(written, execution.user, execution.site, synonym)
    }

    fn names_no_site(&self, name: &Swn) -> bool
        ensures { result ≡ spec.names_no_site self.now name.now }
    {
        let sites = self.sites().number();
        sites < name.creator_site.number() || sites < name.birth.number()
    }

    /// Returns `NoSite` if a site of the name doesn't exist.
    pub(crate) fn site_denial(&self, name: &Swn) -> Option<Denial>
        ensures { result ≡ first_denial (spec.site_test self.now name.now ∷ []) }
    {
        if self.names_no_site(name) {
            Some(Denial::NoSite)
        } else {
            None
        }
    }

    /// Returns `NoSite` if a site of the name doesn't exist, or else `NoTable` if no table has the name.
    pub(crate) fn table_denial(&self, name: &Swn) -> Option<Denial>
        ensures { result ≡ first_denial (spec.table_tests self.now name.now) }
    {
        if self.names_no_site(name) {
            Some(Denial::NoSite)
        } else if self.table(name).is_none() {
            Some(Denial::NoTable)
        } else {
            None
        }
    }
}
