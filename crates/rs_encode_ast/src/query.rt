//! Codecs of queries.

ghost use Rattle.std.specs.Prelude.{◌≡◌, ◌++◌, OnOk, IsTrue};
ghost use Rattle.rs_base.specs.Reading.{Reads};

use crate::clause::{ClauseCodec, ColRefCodec};
use rs_ast::{Item, Key, KeyBy, Select, TableRef};
use rs_base::{Bytes, NoMemory, ReadFault};
use rs_codec::{Fields, put_byte};
use rs_encode::{Bool, Codec, IdentCodec, ListOf, NameTextCodec, OptionOf, U32};
use std::alloc::Global;

/// The codec of an item of a select list.
pub struct ItemCodec;

impl Codec<Item> for ItemCodec {
    ghost use Rattle.rs_encode_ast.specs.Queries.{item};

    ghost form = { item };

    #[tactic(auto, unfolding(crate::specs::Queries::item))]
    fn put(value: &Item, out: &mut Bytes) -> Result<(), NoMemory> {
        match value {
            Item::Col(field) => {
                put_byte(out, 1)?;
                ColRefCodec::put(field, out)
            }
            Item::Count => put_byte(out, 2),
            Item::Sum(field) => {
                put_byte(out, 3)?;
                ColRefCodec::put(field, out)
            }
            Item::Min(field) => {
                put_byte(out, 4)?;
                ColRefCodec::put(field, out)
            }
            Item::Max(field) => {
                put_byte(out, 5)?;
                ColRefCodec::put(field, out)
            }
        }
    }

    #[tactic(auto, unfolding(crate::specs::Queries::item))]
    fn take(alloc: Global, fields: &mut Fields<'_>) -> Result<Item, ReadFault> {
        match fields.read_byte()? {
            1 => Ok(Item::Col(ColRefCodec::take(alloc, fields)?)),
            2 => Ok(Item::Count),
            3 => Ok(Item::Sum(ColRefCodec::take(alloc, fields)?)),
            4 => Ok(Item::Min(ColRefCodec::take(alloc, fields)?)),
            5 => Ok(Item::Max(ColRefCodec::take(alloc, fields)?)),
            _ => Err(ReadFault::Malformed),
        }
    }
}

/// The codec of a sort expression.
pub struct KeyByCodec;

impl Codec<KeyBy> for KeyByCodec {
    ghost use Rattle.rs_encode_ast.specs.Queries.{key_by};

    ghost form = { key_by };

    #[tactic(auto, unfolding(crate::specs::Queries::key_by))]
    fn put(value: &KeyBy, out: &mut Bytes) -> Result<(), NoMemory> {
        match value {
            KeyBy::Col(field) => {
                put_byte(out, 1)?;
                ColRefCodec::put(field, out)
            }
            KeyBy::Place(field) => {
                put_byte(out, 2)?;
                U32::put(field, out)
            }
        }
    }

    #[tactic(auto, unfolding(crate::specs::Queries::key_by))]
    fn take(alloc: Global, fields: &mut Fields<'_>) -> Result<KeyBy, ReadFault> {
        match fields.read_byte()? {
            1 => Ok(KeyBy::Col(ColRefCodec::take(alloc, fields)?)),
            2 => Ok(KeyBy::Place(U32::take(alloc, fields)?)),
            _ => Err(ReadFault::Malformed),
        }
    }
}

/// The codec of a sort key.
pub struct KeyCodec;

impl Codec<Key> for KeyCodec {
    ghost use Rattle.rs_encode_ast.specs.Queries.{key};

    ghost form = { key };

    #[tactic(auto, unfolding(crate::specs::Queries::key))]
    fn put(value: &Key, out: &mut Bytes) -> Result<(), NoMemory> {
        KeyByCodec::put(&value.by, out)?;
        Bool::put(&value.desc, out)
    }

    #[tactic(auto, unfolding(crate::specs::Queries::key))]
    fn take(alloc: Global, fields: &mut Fields<'_>) -> Result<Key, ReadFault> {
        Ok(Key {
            by: KeyByCodec::take(alloc, fields)?,
            desc: Bool::take(alloc, fields)?,
        })
    }
}

/// The codec of a table of FROM.
pub struct TableRefCodec;

impl Codec<TableRef> for TableRefCodec {
    ghost use Rattle.rs_encode_ast.specs.Queries.{table_ref};

    ghost form = { table_ref };

    #[tactic(auto, unfolding(crate::specs::Queries::table_ref))]
    fn put(value: &TableRef, out: &mut Bytes) -> Result<(), NoMemory> {
        NameTextCodec::put(&value.name, out)?;
        OptionOf::<IdentCodec>::put(&value.alias, out)
    }

    #[tactic(auto, unfolding(crate::specs::Queries::table_ref))]
    fn take(alloc: Global, fields: &mut Fields<'_>) -> Result<TableRef, ReadFault> {
        Ok(TableRef {
            name: NameTextCodec::take(alloc, fields)?,
            alias: OptionOf::<IdentCodec>::take(alloc, fields)?,
        })
    }
}

/// The codec of a query.
pub struct SelectCodec;

impl Codec<Select> for SelectCodec {
    ghost use Rattle.rs_encode_ast.specs.Queries.{query};

    ghost form = { query };

    #[tactic(auto, unfolding(crate::specs::Queries::query))]
    fn put(value: &Select, out: &mut Bytes) -> Result<(), NoMemory> {
        Bool::put(&value.distinct, out)?;
        OptionOf::<ListOf<ItemCodec>>::put(&value.items, out)?;
        ListOf::<TableRefCodec>::put(&value.from, out)?;
        ListOf::<ClauseCodec>::put(&value.clauses, out)?;
        ListOf::<ColRefCodec>::put(&value.group, out)?;
        ListOf::<KeyCodec>::put(&value.order, out)
    }

    #[tactic(auto, unfolding(crate::specs::Queries::query))]
    fn take(alloc: Global, fields: &mut Fields<'_>) -> Result<Select, ReadFault> {
        Ok(Select {
            distinct: Bool::take(alloc, fields)?,
            items: OptionOf::<ListOf<ItemCodec>>::take(alloc, fields)?,
            from: ListOf::<TableRefCodec>::take(alloc, fields)?,
            clauses: ListOf::<ClauseCodec>::take(alloc, fields)?,
            group: ListOf::<ColRefCodec>::take(alloc, fields)?,
            order: ListOf::<KeyCodec>::take(alloc, fields)?,
        })
    }
}
