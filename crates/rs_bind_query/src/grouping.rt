//! Grouped queries.

ghost use Rattle.std.specs.Prelude.{◌≡◌};
ghost use Rattle.std.specs.List.{list_any, list_all};
ghost use Rattle.rs_bind_query.specs.Denials as spec;

use rs_ast::{ColRef, Item, Select};
use rs_scope::{ScopeColumn, column_index_of};

fn is_aggregate(item: &Item) -> bool
    ensures { result ≡ spec.is_aggregate item.now }
{
    match item {
        Item::Col(_) => false,
        Item::Count => true,
        Item::Sum(_) => true,
        Item::Min(_) => true,
        Item::Max(_) => true,
    }
}

fn any_aggregate(shown: &[Item]) -> bool
    ensures { result ≡ list_any spec.is_aggregate shown.now }
{
    shown.iter().any(|item| is_aggregate(item))
}

fn has_aggregate(select: &Select) -> bool
    ensures { result ≡ spec.has_aggregate select.now.items }
{
    match &select.items {
        None => false,
        Some(shown) => any_aggregate(shown.as_slice()),
    }
}

/// Returns whether there is an aggregate, or GROUP BY.
pub(crate) fn is_grouped(select: &Select) -> bool
    ensures { result ≡ spec.is_grouped select.now }
{
    has_aggregate(select) || !select.group.is_empty()
}

/// Returns whether two names refer to one column.
pub(crate) fn is_same_column(scope: &[ScopeColumn], one: &ColRef, other: &ColRef) -> bool
    ensures { result ≡ spec.is_same_column scope.now one.now other.now }
{
    column_index_of(scope, one) == column_index_of(scope, other)
}

fn is_in_group(scope: &[ScopeColumn], group: &[ColRef], written: &ColRef) -> bool
    ensures { result ≡ list_any (spec.is_same_column scope.now written.now) group.now }
{
    group
        .iter()
        .any(|column| is_same_column(scope, written, column))
}

fn is_of_group(scope: &[ScopeColumn], group: &[ColRef], item: &Item) -> bool
    ensures { result ≡ spec.is_of_group scope.now group.now item.now }
{
    match item {
        Item::Col(written) => is_in_group(scope, group, written),
        Item::Count => true,
        Item::Sum(_) => true,
        Item::Min(_) => true,
        Item::Max(_) => true,
    }
}

fn are_of_group(scope: &[ScopeColumn], group: &[ColRef], shown: &[Item]) -> bool
    ensures { result ≡ list_all (spec.is_of_group scope.now group.now) shown.now }
{
    shown.iter().all(|item| is_of_group(scope, group, item))
}

/// Returns whether each item is an aggregate or a column to group by. `*` isn't.
pub(crate) fn shows_group(scope: &[ScopeColumn], select: &Select) -> bool
    ensures { result ≡ spec.are_of_group scope.now select.now.group select.now.items }
{
    match &select.items {
        None => false,
        Some(shown) => are_of_group(scope, select.group.as_slice(), shown.as_slice()),
    }
}
