//! CREATE SYNONYM and DROP SYNONYM.

ghost use Rattle.std.specs.Prelude.{◌≡◌};
ghost use Rattle.rs_scope.specs.Denials.{first_denial};
ghost use Rattle.rs_mean.specs.TableStatements as spec;

use crate::change::{Change, Effect};
use crate::database::Database;
use crate::execution::Execution;
use rs_base::{Answer, Denial, Ident, Swn};

impl Database {
    fn create_synonym_denial(
        &self,
        execution: &Execution,
        synonym: Ident,
        name: &Swn,
    ) -> Option<Denial>
        ensures { result ≡ first_denial (spec.create_synonym_tests self.now execution.now synonym name.now) }
    {
        if let Some(cause) = self.site_denial(name) {
            Some(cause)
        } else if self.target(&execution.own_synonym(synonym)).is_some() {
            Some(Denial::SynonymExists)
        } else {
            None
        }
    }

    /// Creates the user's synonym for the name, which need not be that of a table.
    pub(crate) fn create_synonym(&self, execution: &Execution, synonym: Ident, name: Swn) -> Effect
        ensures { result ≡ spec.create_synonym self.now execution.now synonym name }
    {
        if let Some(cause) = self.create_synonym_denial(execution, synonym, &name) {
            return Effect::denied(cause);
        }
        let synonym = execution.own_synonym(synonym);
        Effect::done(Change::PutSynonym { synonym, name }, Answer::Ok)
    }

    /// Drops the user's synonym.
    pub(crate) fn drop_synonym(&self, execution: &Execution, synonym: Ident) -> Effect
        ensures { result ≡ spec.drop_synonym self.now execution.now synonym }
    {
        let synonym = execution.own_synonym(synonym);
        if self.target(&synonym).is_none() {
            return Effect::denied(Denial::NoSynonym);
        }
        Effect::done(Change::DropSynonym { synonym }, Answer::Ok)
    }
}
