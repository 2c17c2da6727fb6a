//! Codecs of stored programs and their plans.

ghost use Rattle.std.specs.Prelude.{◌≡◌, ◌++◌, OnOk, IsTrue};
ghost use Rattle.rs_base.specs.Reading.{Reads};

use rs_base::{Bytes, NoMemory, ReadFault};
use rs_codec::{Fields, put_byte};
use rs_encode::{Codec, EightBytes, IdentCodec, ListOf, SiteNoCodec, SwnCodec, TxnCodec, U8, U16};
use rs_encode_ast::{ColDefCodec, DmlCodec};
use rs_plan::{Body, BodyTable, Head, Part, PartKind, Plan};
use std::alloc::Global;

/// The codec of how a part reaches its rows.
pub struct PartKindCodec;

impl Codec<PartKind> for PartKindCodec {
    ghost use Rattle.rs_calls.specs.Programs.{part_kind};

    ghost form = { part_kind };

    #[tactic(auto, unfolding(crate::specs::Programs::part_kind))]
    fn put(value: &PartKind, out: &mut Bytes) -> Result<(), NoMemory> {
        match value {
            PartKind::Scan => put_byte(out, 1),
            PartKind::Fetch {
                column,
                from_table,
                from_column,
                clause,
            } => {
                put_byte(out, 2)?;
                U8::put(column, out)?;
                U8::put(from_table, out)?;
                U8::put(from_column, out)?;
                U16::put(clause, out)
            }
        }
    }

    #[tactic(auto, unfolding(crate::specs::Programs::part_kind))]
    fn take(alloc: Global, fields: &mut Fields<'_>) -> Result<PartKind, ReadFault> {
        match fields.read_byte()? {
            1 => Ok(PartKind::Scan),
            2 => Ok(PartKind::Fetch {
                column: U8::take(alloc, fields)?,
                from_table: U8::take(alloc, fields)?,
                from_column: U8::take(alloc, fields)?,
                clause: U16::take(alloc, fields)?,
            }),
            _ => Err(ReadFault::Malformed),
        }
    }
}

/// The codec of a part of a plan.
pub struct PartCodec;

impl Codec<Part> for PartCodec {
    ghost use Rattle.rs_calls.specs.Programs.{part};

    ghost form = { part };

    #[tactic(auto, unfolding(crate::specs::Programs::part))]
    fn put(value: &Part, out: &mut Bytes) -> Result<(), NoMemory> {
        U8::put(&value.table, out)?;
        SiteNoCodec::put(&value.place, out)?;
        PartKindCodec::put(&value.kind, out)
    }

    #[tactic(auto, unfolding(crate::specs::Programs::part))]
    fn take(alloc: Global, fields: &mut Fields<'_>) -> Result<Part, ReadFault> {
        Ok(Part {
            table: U8::take(alloc, fields)?,
            place: SiteNoCodec::take(alloc, fields)?,
            kind: PartKindCodec::take(alloc, fields)?,
        })
    }
}

/// The codec of a plan.
pub struct PlanCodec;

impl Codec<Plan> for PlanCodec {
    ghost use Rattle.rs_calls.specs.Programs.{plan};

    ghost form = { plan };

    #[tactic(auto, unfolding(crate::specs::Programs::plan))]
    fn put(value: &Plan, out: &mut Bytes) -> Result<(), NoMemory> {
        ListOf::<PartCodec>::put(&value.parts, out)?;
        EightBytes::put(&value.cost, out)
    }

    #[tactic(auto, unfolding(crate::specs::Programs::plan))]
    fn take(alloc: Global, fields: &mut Fields<'_>) -> Result<Plan, ReadFault> {
        Ok(Plan {
            parts: ListOf::<PartCodec>::take(alloc, fields)?,
            cost: EightBytes::take(alloc, fields)?,
        })
    }
}

/// The codec of what is stored of a whole program.
pub struct HeadCodec;

impl Codec<Head> for HeadCodec {
    ghost use Rattle.rs_calls.specs.Programs.{head};

    ghost form = { head };

    #[tactic(auto, unfolding(crate::specs::Programs::head))]
    fn put(value: &Head, out: &mut Bytes) -> Result<(), NoMemory> {
        EightBytes::put(&value.generation, out)?;
        TxnCodec::put(&value.made, out)?;
        ListOf::<IdentCodec>::put(&value.params, out)?;
        U8::put(&value.statements, out)
    }

    #[tactic(auto, unfolding(crate::specs::Programs::head))]
    fn take(alloc: Global, fields: &mut Fields<'_>) -> Result<Head, ReadFault> {
        Ok(Head {
            generation: EightBytes::take(alloc, fields)?,
            made: TxnCodec::take(alloc, fields)?,
            params: ListOf::<IdentCodec>::take(alloc, fields)?,
            statements: U8::take(alloc, fields)?,
        })
    }
}

/// The codec of a table of a program's statement.
pub struct BodyTableCodec;

impl Codec<BodyTable> for BodyTableCodec {
    ghost use Rattle.rs_calls.specs.Programs.{body_table};

    ghost form = { body_table };

    #[tactic(auto, unfolding(crate::specs::Programs::body_table))]
    fn put(value: &BodyTable, out: &mut Bytes) -> Result<(), NoMemory> {
        SwnCodec::put(&value.name, out)?;
        ListOf::<ColDefCodec>::put(&value.columns, out)
    }

    #[tactic(auto, unfolding(crate::specs::Programs::body_table))]
    fn take(alloc: Global, fields: &mut Fields<'_>) -> Result<BodyTable, ReadFault> {
        Ok(BodyTable {
            name: SwnCodec::take(alloc, fields)?,
            columns: ListOf::<ColDefCodec>::take(alloc, fields)?,
        })
    }
}

/// The codec of a statement of a program.
pub struct BodyCodec;

impl Codec<Body> for BodyCodec {
    ghost use Rattle.rs_calls.specs.Programs.{body};

    ghost form = { body };

    #[tactic(auto, unfolding(crate::specs::Programs::body))]
    fn put(value: &Body, out: &mut Bytes) -> Result<(), NoMemory> {
        DmlCodec::put(&value.statement, out)?;
        ListOf::<BodyTableCodec>::put(&value.tables, out)?;
        PlanCodec::put(&value.plan, out)
    }

    #[tactic(auto, unfolding(crate::specs::Programs::body))]
    fn take(alloc: Global, fields: &mut Fields<'_>) -> Result<Body, ReadFault> {
        Ok(Body {
            statement: DmlCodec::take(alloc, fields)?,
            tables: ListOf::<BodyTableCodec>::take(alloc, fields)?,
            plan: PlanCodec::take(alloc, fields)?,
        })
    }
}
