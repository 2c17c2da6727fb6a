//! The names that a statement may use, and its tests: columns, parameters and predicates, bound to indexes or denied.
#![tactic(auto)]

mod clause_denials;
mod clauses;
mod columns;
mod denials;
mod heading;
mod kinds;
mod name_denials;
mod numbers;
mod params;
mod scope;
mod scopes;

pub use clause_denials::clauses_denial;
pub use clauses::bound_clauses;
pub use columns::{column_index_of, column_kind, named_count, unqualified};
pub use denials::first_denial;
pub use heading::{Heading, Headings};
pub use kinds::kinds_fit;
pub use name_denials::{column_denial, denial_if, param_denial};
pub use numbers::{as_position, as_u16};
pub use params::{is_declared, param_index, param_kind};
pub use scope::{Param, Params, Scope, ScopeColumn};
pub use scopes::{aliases_of, query_scope, table_scope};
