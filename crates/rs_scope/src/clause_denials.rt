//! Denials of predicates.

ghost use Rattle.std.specs.Prelude.{◌≡◌, flat_map};
ghost use Rattle.rs_scope.specs.Denials as spec;
ghost use Rattle.rs_scope.specs.Scope as named;
ghost use Rattle.rs_ast.specs.Kinds as kinds;

use crate::columns::column_kind;
use crate::denials::first_denial;
use crate::kinds::kinds_fit;
use crate::name_denials::{column_denial, denial_if, param_denial};
use crate::params::param_kind;
use crate::scope::{Param, ScopeColumn};
use rs_ast::{Clause, Cmp, Operand};
use rs_base::{Denial, Kind};

fn operand_denial(scope: &[ScopeColumn], params: &[Param], operand: &Operand) -> Option<Denial>
    ensures { result ≡ spec.first_denial (spec.operand_tests scope.now params.now operand.now) }
{
    match operand {
        Operand::Col(written) => column_denial(scope, written),
        Operand::Lit(_) => None,
        Operand::Param(name) => param_denial(params, *name),
    }
}

fn operand_kind(scope: &[ScopeColumn], params: &[Param], operand: &Operand) -> Option<Kind>
    ensures { result ≡ spec.operand_kind scope.now params.now operand.now }
{
    match operand {
        Operand::Col(written) => column_kind(scope, written),
        Operand::Lit(value) => Some(value.kind()),
        Operand::Param(name) => param_kind(params, *name),
    }
}

fn sides_fit(scope: &[ScopeColumn], params: &[Param], cmp: &Cmp) -> bool
    ensures { result
        ≡ kinds.kinds_fit (named.column_kind scope.now cmp.now.left) (spec.operand_kind scope.now params.now cmp.now.right) }
{
    kinds_fit(
        column_kind(scope, &cmp.left),
        operand_kind(scope, params, &cmp.right),
    )
}

/// Returns the denial of a comparison, if there is one: its left column, its right operand, or their kinds.
fn cmp_denial(scope: &[ScopeColumn], params: &[Param], cmp: &Cmp) -> Option<Denial>
    ensures { result ≡ spec.first_denial (spec.cmp_tests scope.now params.now cmp.now) }
{
    column_denial(scope, &cmp.left)
        .or_else(|| operand_denial(scope, params, &cmp.right))
        .or_else(|| denial_if(!sides_fit(scope, params, cmp), Denial::WrongType))
}

fn clause_denial(scope: &[ScopeColumn], params: &[Param], clause: &Clause) -> Option<Denial>
    ensures { result ≡ spec.first_denial (flat_map (spec.cmp_tests scope.now params.now) clause.now.any) }
{
    first_denial(clause.any.as_slice(), |cmp| cmp_denial(scope, params, cmp))
}

/// Returns the first denial of a predicate, if there is one.
pub fn clauses_denial(scope: &[ScopeColumn], params: &[Param], clauses: &[Clause]) -> Option<Denial>
    ensures { result ≡ spec.first_denial (spec.clauses_tests scope.now params.now clauses.now) }
{
    first_denial(clauses, |clause| clause_denial(scope, params, clause))
}
