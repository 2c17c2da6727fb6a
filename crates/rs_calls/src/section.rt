//! Codecs of sections, their ids and their paths.

ghost use Rattle.std.specs.Prelude.{◌≡◌, ◌++◌, OnOk, IsTrue};
ghost use Rattle.rs_base.specs.Reading.{Reads};

use rs_base::{Bytes, NoMemory, ReadFault};
use rs_codec::{Fields, put_byte};
use rs_encode::{Codec, EightBytes, IdentCodec, ListOf, SiteNoCodec, SwnCodec, TxnCodec, U8, U16};
use rs_encode_ast::{BoundCmpCodec, BoundSetCodec, BoundTermCodec};
use rs_plan::{Path, Section, SectionId, SectionKind};
use std::alloc::Global;

/// The codec of what a section does.
pub struct SectionKindCodec;

impl Codec<SectionKind> for SectionKindCodec {
    ghost use Rattle.rs_calls.specs.Sections.{section_kind};

    ghost form = { section_kind };

    #[tactic(auto, unfolding(crate::specs::Sections::section_kind))]
    fn put(value: &SectionKind, out: &mut Bytes) -> Result<(), NoMemory> {
        match value {
            SectionKind::Scan { clauses, columns } => {
                put_byte(out, 1)?;
                ListOf::<ListOf<BoundCmpCodec>>::put(clauses, out)?;
                ListOf::<U16>::put(columns, out)
            }
            SectionKind::Fetch {
                clauses,
                columns,
                by,
            } => {
                put_byte(out, 2)?;
                ListOf::<ListOf<BoundCmpCodec>>::put(clauses, out)?;
                ListOf::<U16>::put(columns, out)?;
                U8::put(by, out)
            }
            SectionKind::Insert { rows } => {
                put_byte(out, 3)?;
                ListOf::<ListOf<BoundTermCodec>>::put(rows, out)
            }
            SectionKind::Delete { clauses } => {
                put_byte(out, 4)?;
                ListOf::<ListOf<BoundCmpCodec>>::put(clauses, out)
            }
            SectionKind::Update { sets, clauses } => {
                put_byte(out, 5)?;
                ListOf::<BoundSetCodec>::put(sets, out)?;
                ListOf::<ListOf<BoundCmpCodec>>::put(clauses, out)
            }
        }
    }

    #[tactic(auto, unfolding(crate::specs::Sections::section_kind))]
    fn take(alloc: Global, fields: &mut Fields<'_>) -> Result<SectionKind, ReadFault> {
        match fields.read_byte()? {
            1 => Ok(SectionKind::Scan {
                clauses: ListOf::<ListOf<BoundCmpCodec>>::take(alloc, fields)?,
                columns: ListOf::<U16>::take(alloc, fields)?,
            }),
            2 => Ok(SectionKind::Fetch {
                clauses: ListOf::<ListOf<BoundCmpCodec>>::take(alloc, fields)?,
                columns: ListOf::<U16>::take(alloc, fields)?,
                by: U8::take(alloc, fields)?,
            }),
            3 => Ok(SectionKind::Insert {
                rows: ListOf::<ListOf<BoundTermCodec>>::take(alloc, fields)?,
            }),
            4 => Ok(SectionKind::Delete {
                clauses: ListOf::<ListOf<BoundCmpCodec>>::take(alloc, fields)?,
            }),
            5 => Ok(SectionKind::Update {
                sets: ListOf::<BoundSetCodec>::take(alloc, fields)?,
                clauses: ListOf::<ListOf<BoundCmpCodec>>::take(alloc, fields)?,
            }),
            _ => Err(ReadFault::Malformed),
        }
    }
}

/// The codec of a section.
pub struct SectionCodec;

impl Codec<Section> for SectionCodec {
    ghost use Rattle.rs_calls.specs.Sections.{section};

    ghost form = { section };

    #[tactic(auto, unfolding(crate::specs::Sections::section))]
    fn put(value: &Section, out: &mut Bytes) -> Result<(), NoMemory> {
        SwnCodec::put(&value.name, out)?;
        TxnCodec::put(&value.made, out)?;
        SectionKindCodec::put(&value.kind, out)
    }

    #[tactic(auto, unfolding(crate::specs::Sections::section))]
    fn take(alloc: Global, fields: &mut Fields<'_>) -> Result<Section, ReadFault> {
        Ok(Section {
            name: SwnCodec::take(alloc, fields)?,
            made: TxnCodec::take(alloc, fields)?,
            kind: SectionKindCodec::take(alloc, fields)?,
        })
    }
}

/// The codec of the id of a stored section.
pub struct SectionIdCodec;

impl Codec<SectionId> for SectionIdCodec {
    ghost use Rattle.rs_calls.specs.Sections.{section_id};

    ghost form = { section_id };

    #[tactic(auto, unfolding(crate::specs::Sections::section_id))]
    fn put(value: &SectionId, out: &mut Bytes) -> Result<(), NoMemory> {
        SiteNoCodec::put(&value.owner, out)?;
        IdentCodec::put(&value.user, out)?;
        IdentCodec::put(&value.program, out)?;
        EightBytes::put(&value.generation, out)?;
        TxnCodec::put(&value.made, out)?;
        U8::put(&value.statement, out)?;
        U8::put(&value.part, out)
    }

    #[tactic(auto, unfolding(crate::specs::Sections::section_id))]
    fn take(alloc: Global, fields: &mut Fields<'_>) -> Result<SectionId, ReadFault> {
        Ok(SectionId {
            owner: SiteNoCodec::take(alloc, fields)?,
            user: IdentCodec::take(alloc, fields)?,
            program: IdentCodec::take(alloc, fields)?,
            generation: EightBytes::take(alloc, fields)?,
            made: TxnCodec::take(alloc, fields)?,
            statement: U8::take(alloc, fields)?,
            part: U8::take(alloc, fields)?,
        })
    }
}

/// The codec of a path.
pub struct PathCodec;

impl Codec<Path> for PathCodec {
    ghost use Rattle.rs_calls.specs.Sections.{path};

    ghost form = { path };

    #[tactic(auto, unfolding(crate::specs::Sections::path))]
    fn put(value: &Path, out: &mut Bytes) -> Result<(), NoMemory> {
        match value {
            Path::Scan => put_byte(out, 1),
            Path::Index { name, made } => {
                put_byte(out, 2)?;
                IdentCodec::put(name, out)?;
                TxnCodec::put(made, out)
            }
        }
    }

    #[tactic(auto, unfolding(crate::specs::Sections::path))]
    fn take(alloc: Global, fields: &mut Fields<'_>) -> Result<Path, ReadFault> {
        match fields.read_byte()? {
            1 => Ok(Path::Scan),
            2 => Ok(Path::Index {
                name: IdentCodec::take(alloc, fields)?,
                made: TxnCodec::take(alloc, fields)?,
            }),
            _ => Err(ReadFault::Malformed),
        }
    }
}
