//! The codec of calls.

ghost use Rattle.std.specs.Prelude.{◌≡◌, ◌++◌, OnOk, IsTrue};
ghost use Rattle.rs_base.specs.Reading.{Reads};

use crate::program::{BodyCodec, HeadCodec};
use crate::section::{SectionCodec, SectionIdCodec};
use rs_base::{Bytes, NoMemory, ReadFault};
use rs_codec::{Fields, put_byte};
use rs_encode::{
    Codec, EightBytes, IdentCodec, ListOf, ModeCodec, OptionOf, SiteNoCodec, SwnCodec, TxnCodec,
    U8, ValueCodec,
};
use rs_encode_ast::{ColDefCodec, IndexOfCodec};
use rs_plan::Call;
use std::alloc::Global;

/// The codec of a call, also one that inserts columns.
pub struct CallCodec;

impl Codec<Call> for CallCodec {
    ghost use Rattle.rs_calls.specs.Calls.{any_call};

    ghost form = { any_call };

    #[tactic(auto, unfolding(crate::specs::Calls::any_call))]
    fn put(value: &Call, out: &mut Bytes) -> Result<(), NoMemory> {
        match value {
            Call::Synonym { user, name } => {
                put_byte(out, 1)?;
                IdentCodec::put(user, out)?;
                IdentCodec::put(name, out)
            }
            Call::SetSynonym { user, name, to } => {
                put_byte(out, 2)?;
                IdentCodec::put(user, out)?;
                IdentCodec::put(name, out)?;
                OptionOf::<SwnCodec>::put(to, out)
            }
            Call::Locate { name, mode } => {
                put_byte(out, 3)?;
                SwnCodec::put(name, out)?;
                ModeCodec::put(mode, out)
            }
            Call::SetBirth { name, to } => {
                put_byte(out, 4)?;
                SwnCodec::put(name, out)?;
                OptionOf::<SiteNoCodec>::put(to, out)
            }
            Call::Describe { name, mode } => {
                put_byte(out, 5)?;
                SwnCodec::put(name, out)?;
                ModeCodec::put(mode, out)
            }
            Call::Run {
                section,
                values,
                fetch,
                from,
            } => {
                put_byte(out, 6)?;
                SectionCodec::put(section, out)?;
                ListOf::<ValueCodec>::put(values, out)?;
                OptionOf::<ValueCodec>::put(fetch, out)?;
                EightBytes::put(from, out)
            }
            Call::RunStored {
                id,
                name,
                mode,
                values,
                fetch,
                from,
            } => {
                put_byte(out, 7)?;
                SectionIdCodec::put(id, out)?;
                SwnCodec::put(name, out)?;
                ModeCodec::put(mode, out)?;
                ListOf::<ValueCodec>::put(values, out)?;
                OptionOf::<ValueCodec>::put(fetch, out)?;
                EightBytes::put(from, out)
            }
            Call::MakeTable {
                name,
                made,
                columns,
                indexes,
            } => {
                put_byte(out, 8)?;
                SwnCodec::put(name, out)?;
                TxnCodec::put(made, out)?;
                ListOf::<ColDefCodec>::put(columns, out)?;
                ListOf::<IndexOfCodec>::put(indexes, out)
            }
            Call::PutRows { name, rows } => {
                put_byte(out, 9)?;
                SwnCodec::put(name, out)?;
                ListOf::<ListOf<ValueCodec>>::put(rows, out)
            }
            Call::Dump { name, from } => {
                put_byte(out, 10)?;
                SwnCodec::put(name, out)?;
                EightBytes::put(from, out)
            }
            Call::DropTable { name } => {
                put_byte(out, 11)?;
                SwnCodec::put(name, out)
            }
            Call::MakeIndex {
                name,
                made,
                index,
                column,
            } => {
                put_byte(out, 12)?;
                SwnCodec::put(name, out)?;
                TxnCodec::put(made, out)?;
                IdentCodec::put(index, out)?;
                U8::put(column, out)
            }
            Call::DropIndex { name, made, index } => {
                put_byte(out, 13)?;
                SwnCodec::put(name, out)?;
                TxnCodec::put(made, out)?;
                IdentCodec::put(index, out)
            }
            Call::Program { user, name, mode } => {
                put_byte(out, 14)?;
                IdentCodec::put(user, out)?;
                IdentCodec::put(name, out)?;
                ModeCodec::put(mode, out)
            }
            Call::Step { user, name, i } => {
                put_byte(out, 15)?;
                IdentCodec::put(user, out)?;
                IdentCodec::put(name, out)?;
                U8::put(i, out)
            }
            Call::SetProgram { user, name, head } => {
                put_byte(out, 16)?;
                IdentCodec::put(user, out)?;
                IdentCodec::put(name, out)?;
                OptionOf::<HeadCodec>::put(head, out)
            }
            Call::SetStep {
                user,
                name,
                i,
                body,
            } => {
                put_byte(out, 17)?;
                IdentCodec::put(user, out)?;
                IdentCodec::put(name, out)?;
                U8::put(i, out)?;
                BodyCodec::put(body, out)
            }
            Call::KeepSection { id, section } => {
                put_byte(out, 18)?;
                SectionIdCodec::put(id, out)?;
                SectionCodec::put(section, out)
            }
        }
    }

    #[tactic(auto, unfolding(crate::specs::Calls::any_call))]
    fn take(alloc: Global, fields: &mut Fields<'_>) -> Result<Call, ReadFault> {
        match fields.read_byte()? {
            1 => Ok(Call::Synonym {
                user: IdentCodec::take(alloc, fields)?,
                name: IdentCodec::take(alloc, fields)?,
            }),
            2 => Ok(Call::SetSynonym {
                user: IdentCodec::take(alloc, fields)?,
                name: IdentCodec::take(alloc, fields)?,
                to: OptionOf::<SwnCodec>::take(alloc, fields)?,
            }),
            3 => Ok(Call::Locate {
                name: SwnCodec::take(alloc, fields)?,
                mode: ModeCodec::take(alloc, fields)?,
            }),
            4 => Ok(Call::SetBirth {
                name: SwnCodec::take(alloc, fields)?,
                to: OptionOf::<SiteNoCodec>::take(alloc, fields)?,
            }),
            5 => Ok(Call::Describe {
                name: SwnCodec::take(alloc, fields)?,
                mode: ModeCodec::take(alloc, fields)?,
            }),
            6 => Ok(Call::Run {
                section: SectionCodec::take(alloc, fields)?,
                values: ListOf::<ValueCodec>::take(alloc, fields)?,
                fetch: OptionOf::<ValueCodec>::take(alloc, fields)?,
                from: EightBytes::take(alloc, fields)?,
            }),
            7 => Ok(Call::RunStored {
                id: SectionIdCodec::take(alloc, fields)?,
                name: SwnCodec::take(alloc, fields)?,
                mode: ModeCodec::take(alloc, fields)?,
                values: ListOf::<ValueCodec>::take(alloc, fields)?,
                fetch: OptionOf::<ValueCodec>::take(alloc, fields)?,
                from: EightBytes::take(alloc, fields)?,
            }),
            8 => Ok(Call::MakeTable {
                name: SwnCodec::take(alloc, fields)?,
                made: TxnCodec::take(alloc, fields)?,
                columns: ListOf::<ColDefCodec>::take(alloc, fields)?,
                indexes: ListOf::<IndexOfCodec>::take(alloc, fields)?,
            }),
            9 => Ok(Call::PutRows {
                name: SwnCodec::take(alloc, fields)?,
                rows: ListOf::<ListOf<ValueCodec>>::take(alloc, fields)?,
            }),
            10 => Ok(Call::Dump {
                name: SwnCodec::take(alloc, fields)?,
                from: EightBytes::take(alloc, fields)?,
            }),
            11 => Ok(Call::DropTable {
                name: SwnCodec::take(alloc, fields)?,
            }),
            12 => Ok(Call::MakeIndex {
                name: SwnCodec::take(alloc, fields)?,
                made: TxnCodec::take(alloc, fields)?,
                index: IdentCodec::take(alloc, fields)?,
                column: U8::take(alloc, fields)?,
            }),
            13 => Ok(Call::DropIndex {
                name: SwnCodec::take(alloc, fields)?,
                made: TxnCodec::take(alloc, fields)?,
                index: IdentCodec::take(alloc, fields)?,
            }),
            14 => Ok(Call::Program {
                user: IdentCodec::take(alloc, fields)?,
                name: IdentCodec::take(alloc, fields)?,
                mode: ModeCodec::take(alloc, fields)?,
            }),
            15 => Ok(Call::Step {
                user: IdentCodec::take(alloc, fields)?,
                name: IdentCodec::take(alloc, fields)?,
                i: U8::take(alloc, fields)?,
            }),
            16 => Ok(Call::SetProgram {
                user: IdentCodec::take(alloc, fields)?,
                name: IdentCodec::take(alloc, fields)?,
                head: OptionOf::<HeadCodec>::take(alloc, fields)?,
            }),
            17 => Ok(Call::SetStep {
                user: IdentCodec::take(alloc, fields)?,
                name: IdentCodec::take(alloc, fields)?,
                i: U8::take(alloc, fields)?,
                body: BodyCodec::take(alloc, fields)?,
            }),
            18 => Ok(Call::KeepSection {
                id: SectionIdCodec::take(alloc, fields)?,
                section: SectionCodec::take(alloc, fields)?,
            }),
            _ => Err(ReadFault::Malformed),
        }
    }
}
