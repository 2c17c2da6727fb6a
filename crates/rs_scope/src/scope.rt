//! What the names in a statement may refer to.

use rs_base::{Ident, Kind};
use sqlite_items::Items;

/// A column that a statement may name: its table's alias, its name, and its kind.
#[derive(Clone, Copy)]
pub struct ScopeColumn {
    pub table: Ident,
    pub name: Ident,
    pub kind: Kind,
}

/// The columns of a statement's tables, one table after the other. A column's index is its position here, from 0.
pub type Scope = Items<ScopeColumn>;

/// A declared parameter, and the kind of its value, if it has one.
#[derive(Clone, Copy)]
pub struct Param {
    pub name: Ident,
    pub kind: Option<Kind>,
}

pub type Params = Items<Param>;
