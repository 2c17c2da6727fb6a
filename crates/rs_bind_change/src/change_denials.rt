//! Denials of changes of rows.

ghost use Rattle.std.specs.Prelude.{◌≡◌, ◌==◌, [], ◌∷◌, flat_map, bytes_eq};
ghost use Rattle.std.specs.List.{list_all, list_any, zip};
ghost use Rattle.rs_bind_change.specs.Denials as spec;
ghost use Rattle.rs_scope.specs.Denials as denials;
ghost use Rattle.rs_scope.specs.Scope as named;

use rs_ast::{Clause, Expr, Set, Term, TermRow};
use rs_base::{Denial, Ident, Kind};
use rs_scope::{
    Param, ScopeColumn, clauses_denial, column_kind, denial_if, first_denial, kinds_fit,
    named_count, param_denial, param_kind, unqualified,
};

fn given_kind(params: &[Param], term: &Term) -> Option<Kind>
    ensures { result ≡ spec.given_kind params.now term.now }
{
    match term {
        Term::Col(_) => None,
        Term::Lit(value) => Some(value.kind()),
        Term::Param(name) => param_kind(params, *name),
    }
}

fn is_given(term: &Term) -> bool
    ensures { result ≡ spec.is_given term.now }
{
    match term {
        Term::Col(_) => false,
        Term::Lit(_) => true,
        Term::Param(_) => true,
    }
}

fn term_fits(params: &[Param], term: &Term, column: &ScopeColumn) -> bool
    ensures { result ≡ spec.term_fits params.now term.now column.now }
{
    is_given(term) && kinds_fit(Some(column.kind), given_kind(params, term))
}

fn each_fits(scope: &[ScopeColumn], params: &[Param], row: &[Term]) -> bool
    ensures { result ≡ list_all (λ both. spec.term_fits params.now both.0 both.1) (zip row.now scope.now) }
{
    row.iter()
        .zip(scope)
        .all(|(term, column)| term_fits(params, term, column))
}

/// Returns whether there is a term for each column, of its kind.
fn row_fits(scope: &[ScopeColumn], params: &[Param], row: &[Term]) -> bool
    ensures { result ≡ spec.row_fits scope.now params.now row.now }
{
    row.len() == scope.len() && each_fits(scope, params, row)
}

fn given_denial(params: &[Param], term: &Term) -> Option<Denial>
    ensures { result ≡ denials.first_denial (spec.given_tests params.now term.now) }
{
    match term {
        Term::Col(_) => None,
        Term::Lit(_) => None,
        Term::Param(name) => param_denial(params, *name),
    }
}

fn givens_denial(params: &[Param], row: &[Term]) -> Option<Denial>
    ensures { result ≡ denials.first_denial (flat_map (spec.given_tests params.now) row.now) }
{
    first_denial(row, |term| given_denial(params, term))
}

fn terms_denial(scope: &[ScopeColumn], params: &[Param], row: &[Term]) -> Option<Denial>
    ensures { result ≡ denials.first_denial (spec.row_tests scope.now params.now row.now) }
{
    denial_if(!row_fits(scope, params, row), Denial::WrongType).or_else(|| givens_denial(
        params, row,
    ))
}

/// Returns the first denial of an INSERT's rows, if there is one: the number of their terms and their kinds, or a
/// parameter. Linear in the rows, without an allocation.
pub(crate) fn insert_denial(
    scope: &[ScopeColumn],
    params: &[Param],
    rows: &[TermRow],
) -> Option<Denial>
    ensures { result ≡ denials.first_denial (spec.insert_tests rows.now scope.now params.now) }
{
    first_denial(rows, |row| terms_denial(scope, params, row.as_slice()))
}

fn is_absent(scope: &[ScopeColumn], column: Ident) -> bool
    ensures { result ≡ (named.named_count scope.now (named.unqualified column) == 0) }
{
    named_count(scope, &unqualified(column)) == 0
}

fn term_denial(scope: &[ScopeColumn], params: &[Param], term: &Term) -> Option<Denial>
    ensures { result ≡ denials.first_denial (spec.term_tests scope.now params.now term.now) }
{
    match term {
        Term::Col(column) => denial_if(is_absent(scope, *column), Denial::NoColumn),
        Term::Lit(_) => None,
        Term::Param(name) => param_denial(params, *name),
    }
}

fn more_denial(scope: &[ScopeColumn], params: &[Param], expr: &Expr) -> Option<Denial>
    ensures { result ≡ denials.first_denial (spec.more_tests scope.now params.now expr.now.more) }
{
    match &expr.more {
        None => None,
        Some((_, second)) => term_denial(scope, params, second),
    }
}

fn term_kind(scope: &[ScopeColumn], params: &[Param], term: &Term) -> Option<Kind>
    ensures { result ≡ spec.term_kind scope.now params.now term.now }
{
    match term {
        Term::Col(column) => column_kind(scope, &unqualified(*column)),
        Term::Lit(value) => Some(value.kind()),
        Term::Param(name) => param_kind(params, *name),
    }
}

/// Returns whether an expression has the kind of its column. Two combined terms are integers, and so is the column.
fn expr_fits(scope: &[ScopeColumn], params: &[Param], kind: Option<Kind>, expr: &Expr) -> bool
    ensures { result ≡ spec.expr_fits scope.now params.now kind expr.now.first expr.now.more }
{
    let first = term_kind(scope, params, &expr.first);
    match &expr.more {
        None => kinds_fit(kind, first),
        Some((_, second)) => {
            kinds_fit(kind, Some(Kind::Int))
                && kinds_fit(Some(Kind::Int), first)
                && kinds_fit(Some(Kind::Int), term_kind(scope, params, second))
        }
    }
}

fn set_fits(scope: &[ScopeColumn], params: &[Param], set: &Set) -> bool
    ensures { result ≡ spec.set_fits scope.now params.now set.now }
{
    let kind = column_kind(scope, &unqualified(set.column));
    expr_fits(scope, params, kind, &set.expr)
}

fn is_set(before: &[Set], column: Ident) -> bool
    ensures { result ≡ list_any (λ other. bytes_eq other.column column) before.now }
{
    before.iter().any(|other| other.column == column)
}

fn set_column_denial(scope: &[ScopeColumn], before: &[Set], set: &Set) -> Option<Denial>
    ensures { result ≡ denials.first_denial (spec.set_column_tests scope.now before.now set.now) }
{
    if is_absent(scope, set.column) {
        Some(Denial::NoColumn)
    } else if is_set(before, set.column) {
        Some(Denial::TwoColumns)
    } else {
        None
    }
}

fn set_kind_denial(scope: &[ScopeColumn], params: &[Param], set: &Set) -> Option<Denial>
    ensures { result ≡ denials.first_denial (spec.set_kind_test scope.now params.now set.now ∷ []) }
{
    denial_if(!set_fits(scope, params, set), Denial::WrongType)
}

/// Returns the first denial of assignments: a column that isn't there, or is assigned before; its terms; their kinds.
fn set_denial(scope: &[ScopeColumn], params: &[Param], before: &[Set], set: &Set) -> Option<Denial>
    ensures { result ≡ denials.first_denial (spec.set_tests scope.now params.now before.now set.now) }
{
    set_column_denial(scope, before, set)
        .or_else(|| term_denial(scope, params, &set.expr.first))
        .or_else(|| more_denial(scope, params, &set.expr))
        .or_else(|| set_kind_denial(scope, params, set))
}

fn sets_denial(scope: &[ScopeColumn], params: &[Param], sets: &[Set]) -> Option<Denial>
    ensures { result ≡ denials.first_denial (spec.sets_tests scope.now params.now [] sets.now) }
{
    for (at, set) in sets.iter().enumerate() {
        let denial = set_denial(scope, params, &sets[..at], set);
        if denial.is_some() {
            return denial;
        }
    }
    None
}

/// Returns the first denial of an UPDATE, if there is one.
pub(crate) fn update_denial(
    scope: &[ScopeColumn],
    params: &[Param],
    sets: &[Set],
    clauses: &[Clause],
) -> Option<Denial>
    ensures { result ≡ denials.first_denial (spec.update_tests sets.now clauses.now scope.now params.now) }
{
    sets_denial(scope, params, sets).or_else(|| clauses_denial(scope, params, clauses))
}
