//! Denials of queries.

ghost use Rattle.std.specs.Prelude.{◌≡◌, [], ◌∷◌, flat_map, bytes_eq};
ghost use Rattle.std.specs.List.{list_any};
ghost use Rattle.rs_bind_query.specs.Denials as spec;
ghost use Rattle.rs_scope.specs.Denials as denials;
ghost use Rattle.rs_scope.specs.Scope as named;
ghost use Rattle.rs_ast.specs.Kinds as kinds;

use crate::grouping::{is_grouped, shows_group};
use crate::item_keys::names_items;
use rs_ast::{ColRef, Item, Key, KeyBy, Select};
use rs_base::{Denial, Ident, Kind};
use rs_scope::{
    Param, ScopeColumn, clauses_denial, column_denial, column_kind, denial_if, first_denial,
    kinds_fit,
};

fn sums_integers(scope: &[ScopeColumn], written: &ColRef) -> bool
    ensures { result ≡ kinds.kinds_fit (Some Kind.Int) (named.column_kind scope.now written.now) }
{
    kinds_fit(Some(Kind::Int), column_kind(scope, written))
}

fn sum_denial(scope: &[ScopeColumn], written: &ColRef) -> Option<Denial>
    ensures { result ≡ denials.first_denial (spec.item_tests scope.now (Item.Sum written.now)) }
{
    column_denial(scope, written).or_else(|| denial_if(
        !sums_integers(scope, written),
        Denial::WrongType,
    ))
}

fn item_denial(scope: &[ScopeColumn], item: &Item) -> Option<Denial>
    ensures { result ≡ denials.first_denial (spec.item_tests scope.now item.now) }
{
    match item {
        Item::Col(written) => column_denial(scope, written),
        Item::Count => None,
        Item::Sum(written) => sum_denial(scope, written),
        Item::Min(written) => column_denial(scope, written),
        Item::Max(written) => column_denial(scope, written),
    }
}

fn shown_denial(scope: &[ScopeColumn], shown: &[Item]) -> Option<Denial>
    ensures { result ≡ denials.first_denial (flat_map (spec.item_tests scope.now) shown.now) }
{
    first_denial(shown, |item| item_denial(scope, item))
}

fn items_denial(scope: &[ScopeColumn], select: &Select) -> Option<Denial>
    ensures { result ≡ denials.first_denial (spec.items_tests scope.now select.now.items) }
{
    match &select.items {
        None => None,
        Some(shown) => shown_denial(scope, shown.as_slice()),
    }
}

fn columns_denial(scope: &[ScopeColumn], columns: &[ColRef]) -> Option<Denial>
    ensures { result ≡ denials.first_denial (flat_map (denials.column_tests scope.now) columns.now) }
{
    first_denial(columns, |written| column_denial(scope, written))
}

fn key_denial(scope: &[ScopeColumn], key: &Key) -> Option<Denial>
    ensures { result ≡ denials.first_denial (spec.key_tests scope.now key.now.by) }
{
    match &key.by {
        KeyBy::Col(written) => column_denial(scope, written),
        KeyBy::Place(_) => None,
    }
}

fn order_denial(scope: &[ScopeColumn], select: &Select) -> Option<Denial>
    ensures { result ≡ denials.first_denial (flat_map (λ key. spec.key_tests scope.now key.by) select.now.order) }
{
    first_denial(select.order.as_slice(), |key| key_denial(scope, key))
}

/// Returns the first denial of a query's columns and comparisons, in the order of the text.
fn names_denial(scope: &[ScopeColumn], params: &[Param], select: &Select) -> Option<Denial>
    ensures { result ≡ denials.first_denial (spec.names_tests scope.now params.now select.now) }
{
    items_denial(scope, select)
        .or_else(|| clauses_denial(scope, params, select.clauses.as_slice()))
        .or_else(|| columns_denial(scope, select.group.as_slice()))
        .or_else(|| order_denial(scope, select))
}

fn is_among(name: Ident, names: &[Ident]) -> bool
    ensures { result ≡ list_any (bytes_eq name) names.now }
{
    names.iter().any(|other| name == *other)
}

/// Returns whether each name differs from each after it. Quadratic in their number.
fn all_differ(names: &[Ident]) -> bool
    ensures { result ≡ spec.all_differ names.now }
{
    let [name, others @ ..] = names else {
        return true;
    };
    !is_among(*name, others) && all_differ(others)
}

fn grouping_denial(scope: &[ScopeColumn], select: &Select) -> Option<Denial>
    ensures { result ≡ denials.first_denial (spec.grouping_test scope.now select.now ∷ []) }
{
    denial_if(
        is_grouped(select) && !shows_group(scope, select),
        Denial::WrongType,
    )
}

fn keys_denial(scope: &[ScopeColumn], select: &Select) -> Option<Denial>
    ensures { result ≡ denials.first_denial (spec.keys_tests scope.now select.now) }
{
    denial_if(!names_items(scope, select), Denial::NoColumn)
}

/// Returns the first denial of a query over these columns, whose tables have these aliases.
pub(crate) fn select_denial(
    scope: &[ScopeColumn],
    aliases: &[Ident],
    params: &[Param],
    select: &Select,
) -> Option<Denial>
    ensures { result ≡ denials.first_denial (spec.tests_over scope.now aliases.now params.now select.now) }
{
    denial_if(!all_differ(aliases), Denial::TwoColumns)
        .or_else(|| names_denial(scope, params, select))
        .or_else(|| grouping_denial(scope, select))
        .or_else(|| keys_denial(scope, select))
}
