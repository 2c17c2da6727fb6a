//! The shape of a query's answer, with column indexes for names.

ghost use Rattle.std.specs.Prelude.{◌≡◌, map, position, IfOk, None};
ghost use Rattle.std.specs.List.{position_or_len};
ghost use Rattle.rs_bind_query.specs.Binding as spec;
ghost use Rattle.rs_scope.specs.Scope.{column_index_of as index_named};

use crate::grouping::is_grouped;
use rs_ast::{
    ColRef, Item, Key, KeyBy, Places, Select, Shape, ShapeItem, ShapeItems, ShapeKey, ShapeKeys,
};
use rs_base::{NoMemory, with_room};
use rs_scope::{ScopeColumn, as_u16, column_index_of};
use std::alloc::Global;

fn shape_item(scope: &[ScopeColumn], item: &Item) -> ShapeItem
    ensures { result ≡ spec.shape_item scope.now item.now }
{
    match item {
        Item::Col(written) => ShapeItem::Col(column_index_of(scope, written)),
        Item::Count => ShapeItem::Count,
        Item::Sum(written) => ShapeItem::Sum(column_index_of(scope, written)),
        Item::Min(written) => ShapeItem::Min(column_index_of(scope, written)),
        Item::Max(written) => ShapeItem::Max(column_index_of(scope, written)),
    }
}

fn shape_items(alloc: Global, scope: &[ScopeColumn], shown: &[Item]) -> Result<ShapeItems, NoMemory>
    ensures { IfOk result (λ bound. bound ≡ map (spec.shape_item scope.now) shown.now) }
{
    let mut items = with_room(alloc, shown.len())?;
    for item in shown {
        items.push(shape_item(scope, item))?;
    }
    Ok(items)
}

/// Returns every column of the tables, in their order.
fn every_column(alloc: Global, scope: &[ScopeColumn]) -> Result<ShapeItems, NoMemory>
    ensures { IfOk result (λ bound. bound ≡ spec.items_shown scope.now None) }
{
    let mut items = with_room(alloc, scope.len())?;
    for column_index in 0..scope.len() {
        items.push(ShapeItem::Col(as_u16(column_index)))?;
    }
    Ok(items)
}

fn items_shown(
    alloc: Global,
    scope: &[ScopeColumn],
    select: &Select,
) -> Result<ShapeItems, NoMemory>
    ensures { IfOk result (λ bound. bound ≡ spec.items_shown scope.now select.now.items) }
{
    match &select.items {
        None => every_column(alloc, scope),
        Some(shown) => shape_items(alloc, scope, shown.as_slice()),
    }
}

fn column_indexes(
    alloc: Global,
    scope: &[ScopeColumn],
    columns: &[ColRef],
) -> Result<Places, NoMemory>
    ensures { IfOk result (λ bound. bound ≡ map (index_named scope.now) columns.now) }
{
    let mut column_indexes = with_room(alloc, columns.len())?;
    for written in columns {
        column_indexes.push(column_index_of(scope, written))?;
    }
    Ok(column_indexes)
}

fn shows_column(column_index: u16, item: &ShapeItem) -> bool
    ensures { result ≡ spec.shows_column column_index item.now }
{
    match item {
        ShapeItem::Col(other) => *other == column_index,
        ShapeItem::Count => false,
        ShapeItem::Sum(_) => false,
        ShapeItem::Min(_) => false,
        ShapeItem::Max(_) => false,
    }
}

fn position_of(shown: &[ShapeItem], column_index: u16) -> Option<usize>
    ensures { result ≡ position (spec.shows_column column_index) shown.now }
{
    shown
        .iter()
        .position(|item| shows_column(column_index, item))
}

/// Returns the first item that is the column of this index.
#[tactic(auto, using(rs_scope::proofs::Positions::position_or_end))]
fn item_of(shown: &[ShapeItem], column_index: u16) -> usize
    ensures { result ≡ position_or_len (spec.shows_column column_index) shown.now }
{
    position_of(shown, column_index).unwrap_or(shown.len())
}

/// Returns the item that a key names, counted from 0.
fn key_item(scope: &[ScopeColumn], shown: &[ShapeItem], by: &KeyBy) -> u16
    ensures { result ≡ spec.key_item scope.now shown.now by.now }
{
    match by {
        KeyBy::Col(written) => as_u16(item_of(shown, column_index_of(scope, written))),
        KeyBy::Place(number) => as_u16((*number as usize).saturating_sub(1)),
    }
}

fn shape_key(scope: &[ScopeColumn], shown: &[ShapeItem], key: &Key) -> ShapeKey
    ensures { result ≡ spec.shape_key scope.now shown.now key.now }
{
    ShapeKey {
        item: key_item(scope, shown, &key.by),
        desc: key.desc,
    }
}

fn shape_keys(
    alloc: Global,
    scope: &[ScopeColumn],
    shown: &[ShapeItem],
    order: &[Key],
) -> Result<ShapeKeys, NoMemory>
    ensures { IfOk result (λ bound. bound ≡ map (spec.shape_key scope.now shown.now) order.now) }
{
    let mut keys = with_room(alloc, order.len())?;
    for key in order {
        keys.push(shape_key(scope, shown, key))?;
    }
    Ok(keys)
}

pub(crate) fn shape_of(
    alloc: Global,
    scope: &[ScopeColumn],
    select: &Select,
) -> Result<Shape, NoMemory>
    ensures { IfOk result (λ shape. shape ≡ spec.shape_of scope.now select.now) }
{
    let items = items_shown(alloc, scope, select)?;
    let group = column_indexes(alloc, scope, select.group.as_slice())?;
    let keys = shape_keys(alloc, scope, items.as_slice(), select.order.as_slice())?;
    Ok(Shape {
        distinct: select.distinct,
        items,
        group,
        keys,
        grouped: is_grouped(select),
    })
}
