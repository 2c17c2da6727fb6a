//! The bound select list, grouping and order of a query.

use sqlite_items::Items;

/// Column indexes.
pub type Places = Items<u16>;

/// A bound item of the select list: the value at a column index, or an aggregate over a group's rows.
#[derive(Clone, Copy)]
pub enum ShapeItem {
    Col(u16),
    Count,
    Sum(u16),
    Min(u16),
    Max(u16),
}

/// The bound items of a select list.
pub type ShapeItems = Items<ShapeItem>;

/// A sort key: the ordinal of an item, from 0, ascending or descending.
#[derive(Clone, Copy)]
pub struct ShapeKey {
    pub item: u16,
    pub desc: bool,
}

/// The sort keys, the major one first.
pub type ShapeKeys = Items<ShapeKey>;

/// The part of a query that is applied to its joined rows. It is grouped if it has an aggregate or a GROUP BY.
#[derive(Drop)]
pub struct Shape {
    pub distinct: bool,
    pub items: ShapeItems,
    pub group: Places,
    pub keys: ShapeKeys,
    pub grouped: bool,
}
