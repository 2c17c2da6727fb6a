//! Queries.

use crate::clause::Clauses;
use crate::column::{ColRef, ColRefs};
use rs_base::{Ident, NameText};
use sqlite_items::Items;

/// An item of the select list: a column, `COUNT(*)`, or an aggregate over a column.
#[derive(Clone, Copy)]
pub enum Item {
    Col(ColRef),
    Count,
    Sum(ColRef),
    Min(ColRef),
    Max(ColRef),
}

/// The items of a select list.
pub type SelectItems = Items<Item>;

/// A sort expression of ORDER BY: a column, or an item of the select list by its ordinal, from 1.
#[derive(Clone, Copy)]
pub enum KeyBy {
    Col(ColRef),
    Place(u32),
}

/// A sort key, ascending or descending.
#[derive(Clone, Copy)]
pub struct Key {
    pub by: KeyBy,
    pub desc: bool,
}

/// The sort keys of ORDER BY, the major one first.
pub type Keys = Items<Key>;

/// A table of FROM, with its alias, if one is given.
#[derive(Clone, Copy)]
pub struct TableRef {
    pub name: NameText,
    pub alias: Option<Ident>,
}

/// The tables of FROM.
pub type TableRefs = Items<TableRef>;

/// A query. Without items (`*`) it selects each column of its tables.
#[derive(Drop)]
pub struct Select {
    pub distinct: bool,
    pub items: Option<SelectItems>,
    pub from: TableRefs,
    pub clauses: Clauses,
    pub group: ColRefs,
    pub order: Keys,
}
