//! The codec of changes.

ghost use Rattle.std.specs.Prelude.{◌≡◌, ◌++◌, OnOk, IsTrue};
ghost use Rattle.rs_base.specs.Reading.{Reads};

use crate::program::{BodyCodec, HeadCodec};
use crate::section::{PathCodec, SectionCodec, SectionIdCodec};
use rs_base::{Bytes, NoMemory, ReadFault};
use rs_codec::{Fields, put_byte};
use rs_encode::{
    Codec, Count, IdentCodec, ListOf, OptionOf, Pair, SiteNoCodec, SwnCodec, TxnCodec, U8,
    ValueCodec,
};
use rs_encode_ast::{ColDefCodec, IndexOfCodec};
use rs_plan::Change;
use std::alloc::Global;

/// The codec of a change of what a site stores, also one of a section that inserts columns.
pub struct ChangeCodec;

impl Codec<Change> for ChangeCodec {
    ghost use Rattle.rs_calls.specs.Changes.{any_change};

    ghost form = { any_change };

    #[tactic(auto, unfolding(crate::specs::Changes::any_change))]
    fn put(value: &Change, out: &mut Bytes) -> Result<(), NoMemory> {
        match value {
            Change::Synonym { user, name, to } => {
                put_byte(out, 1)?;
                IdentCodec::put(user, out)?;
                IdentCodec::put(name, out)?;
                OptionOf::<SwnCodec>::put(to, out)
            }
            Change::Birth { name, to } => {
                put_byte(out, 2)?;
                SwnCodec::put(name, out)?;
                OptionOf::<SiteNoCodec>::put(to, out)
            }
            Change::Head { user, name, head } => {
                put_byte(out, 3)?;
                IdentCodec::put(user, out)?;
                IdentCodec::put(name, out)?;
                OptionOf::<HeadCodec>::put(head, out)
            }
            Change::Body {
                user,
                name,
                i,
                body,
            } => {
                put_byte(out, 4)?;
                IdentCodec::put(user, out)?;
                IdentCodec::put(name, out)?;
                U8::put(i, out)?;
                BodyCodec::put(body, out)
            }
            Change::Keep { id, section, path } => {
                put_byte(out, 5)?;
                SectionIdCodec::put(id, out)?;
                SectionCodec::put(section, out)?;
                PathCodec::put(path, out)
            }
            Change::MakeTable {
                name,
                made,
                columns,
                indexes,
            } => {
                put_byte(out, 6)?;
                SwnCodec::put(name, out)?;
                TxnCodec::put(made, out)?;
                ListOf::<ColDefCodec>::put(columns, out)?;
                ListOf::<IndexOfCodec>::put(indexes, out)
            }
            Change::PutRows { name, rows } => {
                put_byte(out, 7)?;
                SwnCodec::put(name, out)?;
                ListOf::<ListOf<ValueCodec>>::put(rows, out)
            }
            Change::Remove { name, numbers } => {
                put_byte(out, 8)?;
                SwnCodec::put(name, out)?;
                ListOf::<Count>::put(numbers, out)
            }
            Change::Replace { name, rows } => {
                put_byte(out, 9)?;
                SwnCodec::put(name, out)?;
                ListOf::<Pair<Count, ListOf<ValueCodec>>>::put(rows, out)
            }
            Change::DropTable { name } => {
                put_byte(out, 10)?;
                SwnCodec::put(name, out)
            }
            Change::MakeIndex {
                name,
                made,
                index,
                column,
                index_made,
            } => {
                put_byte(out, 11)?;
                SwnCodec::put(name, out)?;
                TxnCodec::put(made, out)?;
                IdentCodec::put(index, out)?;
                U8::put(column, out)?;
                TxnCodec::put(index_made, out)
            }
            Change::DropIndex { name, made, index } => {
                put_byte(out, 12)?;
                SwnCodec::put(name, out)?;
                TxnCodec::put(made, out)?;
                IdentCodec::put(index, out)
            }
        }
    }

    #[tactic(auto, unfolding(crate::specs::Changes::any_change))]
    fn take(alloc: Global, fields: &mut Fields<'_>) -> Result<Change, ReadFault> {
        match fields.read_byte()? {
            1 => Ok(Change::Synonym {
                user: IdentCodec::take(alloc, fields)?,
                name: IdentCodec::take(alloc, fields)?,
                to: OptionOf::<SwnCodec>::take(alloc, fields)?,
            }),
            2 => Ok(Change::Birth {
                name: SwnCodec::take(alloc, fields)?,
                to: OptionOf::<SiteNoCodec>::take(alloc, fields)?,
            }),
            3 => Ok(Change::Head {
                user: IdentCodec::take(alloc, fields)?,
                name: IdentCodec::take(alloc, fields)?,
                head: OptionOf::<HeadCodec>::take(alloc, fields)?,
            }),
            4 => Ok(Change::Body {
                user: IdentCodec::take(alloc, fields)?,
                name: IdentCodec::take(alloc, fields)?,
                i: U8::take(alloc, fields)?,
                body: BodyCodec::take(alloc, fields)?,
            }),
            5 => Ok(Change::Keep {
                id: SectionIdCodec::take(alloc, fields)?,
                section: SectionCodec::take(alloc, fields)?,
                path: PathCodec::take(alloc, fields)?,
            }),
            6 => Ok(Change::MakeTable {
                name: SwnCodec::take(alloc, fields)?,
                made: TxnCodec::take(alloc, fields)?,
                columns: ListOf::<ColDefCodec>::take(alloc, fields)?,
                indexes: ListOf::<IndexOfCodec>::take(alloc, fields)?,
            }),
            7 => Ok(Change::PutRows {
                name: SwnCodec::take(alloc, fields)?,
                rows: ListOf::<ListOf<ValueCodec>>::take(alloc, fields)?,
            }),
            8 => Ok(Change::Remove {
                name: SwnCodec::take(alloc, fields)?,
                numbers: ListOf::<Count>::take(alloc, fields)?,
            }),
            9 => Ok(Change::Replace {
                name: SwnCodec::take(alloc, fields)?,
                rows: ListOf::<Pair<Count, ListOf<ValueCodec>>>::take(alloc, fields)?,
            }),
            10 => Ok(Change::DropTable {
                name: SwnCodec::take(alloc, fields)?,
            }),
            11 => Ok(Change::MakeIndex {
                name: SwnCodec::take(alloc, fields)?,
                made: TxnCodec::take(alloc, fields)?,
                index: IdentCodec::take(alloc, fields)?,
                column: U8::take(alloc, fields)?,
                index_made: TxnCodec::take(alloc, fields)?,
            }),
            12 => Ok(Change::DropIndex {
                name: SwnCodec::take(alloc, fields)?,
                made: TxnCodec::take(alloc, fields)?,
                index: IdentCodec::take(alloc, fields)?,
            }),
            _ => Err(ReadFault::Malformed),
        }
    }
}
