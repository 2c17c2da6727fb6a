//! Denials of names.

ghost use Rattle.std.specs.Prelude.{◌≡◌, [], ◌∷◌};
ghost use Rattle.rs_scope.specs.Denials as spec;

use crate::columns::named_count;
use crate::params::is_declared;
use crate::scope::{Param, ScopeColumn};
use rs_ast::ColRef;
use rs_base::{Denial, Ident};

/// Returns the cause, if the test fails.
pub fn denial_if(fails: bool, cause: Denial) -> Option<Denial>
    ensures { result ≡ spec.first_denial (spec.test fails cause ∷ []) }
{
    fails.then_some(cause)
}

/// Returns the denial of a column's name, if there is one: no column has it, or more than one.
pub fn column_denial(scope: &[ScopeColumn], written: &ColRef) -> Option<Denial>
    ensures { result ≡ spec.first_denial (spec.column_tests scope.now written.now) }
{
    match named_count(scope, written) {
        0 => Some(Denial::NoColumn),
        1 => None,
        _ => Some(Denial::TwoColumns),
    }
}

/// Returns the denial of a parameter's name, if there is one: it isn't declared.
pub fn param_denial(params: &[Param], name: Ident) -> Option<Denial>
    ensures { result ≡ spec.first_denial (spec.param_test params.now name ∷ []) }
{
    denial_if(!is_declared(params, name), Denial::WrongParams)
}
