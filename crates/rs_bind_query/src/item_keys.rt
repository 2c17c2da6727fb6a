//! Keys of the order that name items.

ghost use Rattle.std.specs.Prelude.{◌≡◌};
ghost use Rattle.std.specs.List.{list_any, list_all};
ghost use Rattle.rs_bind_query.specs.Denials as spec;

use crate::grouping::is_same_column;
use rs_ast::{ColRef, Item, Key, KeyBy, Select};
use rs_scope::ScopeColumn;

fn is_item_of(scope: &[ScopeColumn], written: &ColRef, item: &Item) -> bool
    ensures { result ≡ spec.is_item_of scope.now written.now item.now }
{
    match item {
        Item::Col(shown) => is_same_column(scope, written, shown),
        Item::Count => false,
        Item::Sum(_) => false,
        Item::Min(_) => false,
        Item::Max(_) => false,
    }
}

fn is_one_of(scope: &[ScopeColumn], shown: &[Item], written: &ColRef) -> bool
    ensures { result ≡ list_any (spec.is_item_of scope.now written.now) shown.now }
{
    shown.iter().any(|item| is_item_of(scope, written, item))
}

/// Returns whether the column is shown as it is. `*` shows each.
fn is_shown(scope: &[ScopeColumn], select: &Select, written: &ColRef) -> bool
    ensures { result ≡ spec.is_shown scope.now select.now.items written.now }
{
    match &select.items {
        None => true,
        Some(shown) => is_one_of(scope, shown.as_slice(), written),
    }
}

fn item_count(scope: &[ScopeColumn], select: &Select) -> usize
    ensures { result ≡ spec.item_count scope.now select.now.items }
{
    match &select.items {
        None => scope.len(),
        Some(shown) => shown.len(),
    }
}

/// Returns whether the key names an item: a column that is shown as it is, or an ordinal from 1 to the number of items.
fn names_item(scope: &[ScopeColumn], select: &Select, by: &KeyBy) -> bool
    ensures { result ≡ spec.names_item scope.now select.now by.now }
{
    match by {
        KeyBy::Col(written) => is_shown(scope, select, written),
        KeyBy::Place(number) => { *number != 0 && !(item_count(scope, select) < *number as usize) }
    }
}

fn all_name_items(scope: &[ScopeColumn], select: &Select, order: &[Key]) -> bool
    ensures { result ≡ list_all (λ key. spec.names_item scope.now select.now key.by) order.now }
{
    order.iter().all(|key| names_item(scope, select, &key.by))
}

/// Returns whether each key of the query names an item.
pub(crate) fn names_items(scope: &[ScopeColumn], select: &Select) -> bool
    ensures { result ≡ list_all (λ key. spec.names_item scope.now select.now key.by) select.now.order }
{
    all_name_items(scope, select, select.order.as_slice())
}
