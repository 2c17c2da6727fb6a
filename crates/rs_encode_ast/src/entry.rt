//! Codecs of column definitions and catalog entries.

ghost use Rattle.std.specs.Prelude.{◌≡◌, ◌++◌, OnOk, IsTrue};
ghost use Rattle.rs_base.specs.Reading.{Reads};

use rs_ast::{ColDef, Column, Entry, IndexOf};
use rs_base::{Bytes, NoMemory, ReadFault};
use rs_codec::Fields;
use rs_encode::{
    Codec, EightBytes, IdentCodec, KindCodec, ListOf, SiteNoCodec, SwnCodec, TxnCodec, U8,
};
use std::alloc::Global;

/// The codec of a column definition.
pub struct ColDefCodec;

impl Codec<ColDef> for ColDefCodec {
    ghost use Rattle.rs_encode_ast.specs.Entries.{col_def};

    ghost form = { col_def };

    #[tactic(auto, unfolding(crate::specs::Entries::col_def))]
    fn put(value: &ColDef, out: &mut Bytes) -> Result<(), NoMemory> {
        IdentCodec::put(&value.name, out)?;
        KindCodec::put(&value.kind, out)
    }

    #[tactic(auto, unfolding(crate::specs::Entries::col_def))]
    fn take(alloc: Global, fields: &mut Fields<'_>) -> Result<ColDef, ReadFault> {
        Ok(ColDef {
            name: IdentCodec::take(alloc, fields)?,
            kind: KindCodec::take(alloc, fields)?,
        })
    }
}

/// The codec of a column of a catalog entry.
pub struct ColumnCodec;

impl Codec<Column> for ColumnCodec {
    ghost use Rattle.rs_encode_ast.specs.Entries.{column};

    ghost form = { column };

    #[tactic(auto, unfolding(crate::specs::Entries::column))]
    fn put(value: &Column, out: &mut Bytes) -> Result<(), NoMemory> {
        IdentCodec::put(&value.name, out)?;
        KindCodec::put(&value.kind, out)?;
        EightBytes::put(&value.distinct, out)
    }

    #[tactic(auto, unfolding(crate::specs::Entries::column))]
    fn take(alloc: Global, fields: &mut Fields<'_>) -> Result<Column, ReadFault> {
        Ok(Column {
            name: IdentCodec::take(alloc, fields)?,
            kind: KindCodec::take(alloc, fields)?,
            distinct: EightBytes::take(alloc, fields)?,
        })
    }
}

/// The codec of an index.
pub struct IndexOfCodec;

impl Codec<IndexOf> for IndexOfCodec {
    ghost use Rattle.rs_encode_ast.specs.Entries.{index_of};

    ghost form = { index_of };

    #[tactic(auto, unfolding(crate::specs::Entries::index_of))]
    fn put(value: &IndexOf, out: &mut Bytes) -> Result<(), NoMemory> {
        IdentCodec::put(&value.name, out)?;
        U8::put(&value.column, out)?;
        TxnCodec::put(&value.made, out)
    }

    #[tactic(auto, unfolding(crate::specs::Entries::index_of))]
    fn take(alloc: Global, fields: &mut Fields<'_>) -> Result<IndexOf, ReadFault> {
        Ok(IndexOf {
            name: IdentCodec::take(alloc, fields)?,
            column: U8::take(alloc, fields)?,
            made: TxnCodec::take(alloc, fields)?,
        })
    }
}

/// The codec of a catalog entry.
pub struct EntryCodec;

impl Codec<Entry> for EntryCodec {
    ghost use Rattle.rs_encode_ast.specs.Entries.{entry};

    ghost form = { entry };

    #[tactic(auto, unfolding(crate::specs::Entries::entry))]
    fn put(value: &Entry, out: &mut Bytes) -> Result<(), NoMemory> {
        SwnCodec::put(&value.name, out)?;
        TxnCodec::put(&value.made, out)?;
        SiteNoCodec::put(&value.place, out)?;
        ListOf::<ColumnCodec>::put(&value.columns, out)?;
        ListOf::<IndexOfCodec>::put(&value.indexes, out)?;
        EightBytes::put(&value.count, out)
    }

    #[tactic(auto, unfolding(crate::specs::Entries::entry))]
    fn take(alloc: Global, fields: &mut Fields<'_>) -> Result<Entry, ReadFault> {
        Ok(Entry {
            name: SwnCodec::take(alloc, fields)?,
            made: TxnCodec::take(alloc, fields)?,
            place: SiteNoCodec::take(alloc, fields)?,
            columns: ListOf::<ColumnCodec>::take(alloc, fields)?,
            indexes: ListOf::<IndexOfCodec>::take(alloc, fields)?,
            count: EightBytes::take(alloc, fields)?,
        })
    }
}
