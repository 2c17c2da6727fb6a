//! Sections, as lines write them.

use crate::clauses::{read_clauses, read_side};
use case_tools::{Words, read_row, read_value};
use rs_ast::{
    Arith, BoundRow, BoundRows, BoundSet, BoundSets, BoundSide, BoundTerm, ColDef, ColDefs, Places,
};
use rs_base::{Kind, NoMemory, Row, SiteNo, Txn, Value, with_room};
use rs_plan::{Section, SectionKind};
use std::alloc::Global;

/// The table that each section is about.
const TABLE: &str = "ann@1.t@1";

/// With what a section is run: the column of the index by which it goes, the values for its parameters, the fetched
/// value, and how many rows are left out.
#[derive(Drop)]
pub struct Options {
    pub path: Option<u8>,
    pub values: Option<Row>,
    pub fetch: Option<Value>,
    pub from: u64,
}

// ---- options

/// Reads the values of a row, or `-` for none.
fn read_values(alloc: Global, word: &str) -> Result<Row, NoMemory> {
    read_row(alloc, if word == "-" { "" } else { word })
}

impl Options {
    fn new() -> Options {
        Options {
            path: None,
            values: None,
            fetch: None,
            from: 0,
        }
    }

    /// Reads an option of this name. Returns whether there is one.
    fn read_one(
        &mut self,
        alloc: Global,
        name: &str,
        words: &mut Words<'_>,
    ) -> Result<bool, NoMemory> {
        match name {
            "by" => self.path = Some(words.byte()),
            "with" => self.values = Some(read_values(alloc, words.next())?),
            "fetched" => self.fetch = Some(read_value(alloc, words.next())?),
            "from" => self.from = words.number(),
            _ => return Ok(false),
        }
        Ok(true)
    }
}

/// Reads options, and the word after them.
pub fn read_options<'a>(
    alloc: Global,
    words: &mut Words<'a>,
) -> Result<(Options, &'a str), NoMemory> {
    let mut options = Options::new();
    let mut word = words.next();
    for _ in 0..4 {
        if options.read_one(alloc, word, words)? {
            word = words.next();
        }
    }
    Ok((options, word))
}

// ---- columns

/// Reads column indexes that `,` separates, or `-` for none.
fn read_places(alloc: Global, words: &mut Words<'_>) -> Result<Places, NoMemory> {
    let mut places = with_room(alloc, 1)?;
    let list = words.next();
    if list == "-" {
        return Ok(places);
    }
    for word in list.split(',') {
        let mut part = Words::new(word);
        places.push(part.short())?;
        words.include(&part);
    }
    Ok(places)
}

fn read_column(word: &str, words: &mut Words<'_>) -> ColDef {
    let kind = match word {
        "text" => Kind::Text,
        "int" => Kind::Int,
        _ => {
            words.refuse();
            Kind::Int
        }
    };
    ColDef {
        name: Words::new("c").ident(),
        kind,
    }
}

/// Reads the kinds of columns, `int` or `text`, that `,` separates.
pub fn read_columns(alloc: Global, words: &mut Words<'_>) -> Result<ColDefs, NoMemory> {
    let mut columns = with_room(alloc, 1)?;
    for word in words.next().split(',') {
        columns.push(read_column(word, words))?;
    }
    Ok(columns)
}

// ---- rows and assignments

/// Reads a column `@N`, a parameter `?N`, or a value.
fn read_term(alloc: Global, word: &str) -> Result<BoundTerm, NoMemory> {
    match read_side(alloc, word)? {
        BoundSide::Place(column) => Ok(BoundTerm::Place(column)),
        BoundSide::Lit(value) => Ok(BoundTerm::Lit(value)),
        BoundSide::Param(param) => Ok(BoundTerm::Param(param)),
    }
}

/// Reads terms that `,` separates. An empty line is the empty row.
fn read_bound_row(alloc: Global, line: &str) -> Result<BoundRow, NoMemory> {
    let mut row = with_room(alloc, 1)?;
    if line.is_empty() {
        return Ok(row);
    }
    for word in line.split(',') {
        row.push(read_term(alloc, word)?)?;
    }
    Ok(row)
}

/// Reads rows of terms that `;` separates, or `-` for none.
fn read_bound_rows(alloc: Global, lines: &str) -> Result<BoundRows, NoMemory> {
    let mut rows = with_room(alloc, 1)?;
    if lines == "-" {
        return Ok(rows);
    }
    for line in lines.split(';') {
        rows.push(read_bound_row(alloc, line)?)?;
    }
    Ok(rows)
}

/// Reads an operator and the term after it, if there is one.
fn read_more(alloc: Global, words: &mut Words<'_>) -> Result<Option<(Arith, BoundTerm)>, NoMemory> {
    let arith = match words.next() {
        "+" => Arith::Add,
        "-" => Arith::Sub,
        "*" => Arith::Mul,
        _ => return Ok(None),
    };
    Ok(Some((arith, read_term(alloc, words.next())?)))
}

/// Reads an assignment `COLUMN:TERM` or `COLUMN:TERM:OP:TERM`.
fn read_set(alloc: Global, words: &mut Words<'_>) -> Result<BoundSet, NoMemory> {
    Ok(BoundSet {
        column: words.byte(),
        first: read_term(alloc, words.next())?,
        more: read_more(alloc, words)?,
    })
}

/// Reads assignments that `;` separates.
fn read_sets(alloc: Global, words: &mut Words<'_>) -> Result<BoundSets, NoMemory> {
    let mut sets = with_room(alloc, 1)?;
    for word in words.next().split(';') {
        let mut part = Words::separated(word, ':');
        sets.push(read_set(alloc, &mut part)?)?;
        words.include(&part);
    }
    Ok(sets)
}

// ---- sections

fn read_scan(alloc: Global, words: &mut Words<'_>) -> Result<SectionKind, NoMemory> {
    let columns = read_places(alloc, words)?;
    let clauses = read_clauses(alloc, words)?;
    Ok(SectionKind::Scan { clauses, columns })
}

fn read_fetch(alloc: Global, words: &mut Words<'_>) -> Result<SectionKind, NoMemory> {
    let by = words.byte();
    let columns = read_places(alloc, words)?;
    let clauses = read_clauses(alloc, words)?;
    Ok(SectionKind::Fetch {
        clauses,
        columns,
        by,
    })
}

fn read_update(alloc: Global, words: &mut Words<'_>) -> Result<SectionKind, NoMemory> {
    let sets = read_sets(alloc, words)?;
    let clauses = read_clauses(alloc, words)?;
    Ok(SectionKind::Update { sets, clauses })
}

fn read_kind(alloc: Global, name: &str, words: &mut Words<'_>) -> Result<SectionKind, NoMemory> {
    match name {
        "scan" => read_scan(alloc, words),
        "fetch" => read_fetch(alloc, words),
        "update" => read_update(alloc, words),
        "insert" => Ok(SectionKind::Insert {
            rows: read_bound_rows(alloc, words.rest())?,
        }),
        "delete" => Ok(SectionKind::Delete {
            clauses: read_clauses(alloc, words)?,
        }),
        _ => {
            words.refuse();
            read_scan(alloc, words)
        }
    }
}

/// Reads a section of this name.
pub fn read_section(alloc: Global, name: &str, words: &mut Words<'_>) -> Result<Section, NoMemory> {
    Ok(Section {
        name: Words::new(TABLE).name(),
        made: Txn {
            site: SiteNo::first(),
            epoch: 1,
            number: 1,
        },
        kind: read_kind(alloc, name, words)?,
    })
}
