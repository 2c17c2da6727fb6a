//! The choice of a path for a section.

use crate::clauses::read_clauses;
use case_tools::{Cases, Output, Words};
use rs_ast::{IndexOf, IndexOfs};
use rs_base::{NoMemory, SiteNo, Txn, with_room};
use rs_plan::{Path, SectionKind, choose};
use std::alloc::Global;

/// The indexes of a table in order of making.
#[derive(Drop)]
pub struct PathCases {
    indexes: IndexOfs,
}

/// Reads the column and the clauses of a fetch.
fn read_fetch(alloc: Global, words: &mut Words<'_>) -> Result<SectionKind, NoMemory> {
    let by = words.byte();
    let clauses = read_clauses(alloc, words)?;
    Ok(SectionKind::Fetch {
        clauses,
        columns: with_room(alloc, 0)?,
        by,
    })
}

/// Reads a scan, a delete or an update, by its clauses.
fn read_kind(alloc: Global, call: &str, words: &mut Words<'_>) -> Result<SectionKind, NoMemory> {
    let clauses = read_clauses(alloc, words)?;
    match call {
        "scan" => Ok(SectionKind::Scan {
            clauses,
            columns: with_room(alloc, 0)?,
        }),
        "delete" => Ok(SectionKind::Delete { clauses }),
        "update" => Ok(SectionKind::Update {
            sets: with_room(alloc, 0)?,
            clauses,
        }),
        _ => {
            words.refuse();
            Ok(SectionKind::Delete { clauses })
        }
    }
}

fn read_section(alloc: Global, call: &str, words: &mut Words<'_>) -> Result<SectionKind, NoMemory> {
    match call {
        "fetch" => read_fetch(alloc, words),
        "insert" => Ok(SectionKind::Insert {
            rows: with_room(alloc, 0)?,
        }),
        _ => read_kind(alloc, call, words),
    }
}

/// Appends `scan`, or the index's name and the number of the transaction that made it.
fn append_path(path: &Path, out: &mut Output) {
    match path {
        Path::Scan => out.text("scan"),
        Path::Index { name, made } => {
            out.append(name.as_bytes());
            out.text(" ");
            out.number(made.number)
        }
    }
}

/// Reads the name and the column of an index that the transaction of this number made.
fn read_index(words: &mut Words<'_>, number: u64) -> IndexOf {
    IndexOf {
        name: words.ident(),
        column: words.byte(),
        made: Txn {
            site: SiteNo::first(),
            epoch: 1,
            number,
        },
    }
}

impl PathCases {
    pub fn new(alloc: Global) -> PathCases {
        PathCases {
            indexes: IndexOfs::new(alloc),
        }
    }

    /// Appends the path of a section, if its line is read.
    fn append_choice(
        &self,
        call: &str,
        words: &mut Words<'_>,
        out: &mut Output,
    ) -> Result<(), NoMemory> {
        let kind = read_section(out.alloc, call, words)?;
        if !words.is_refused() {
            append_path(&choose(&kind, self.indexes.as_slice()), out);
        }
        Ok(())
    }
}

impl Cases for PathCases {
    fn answer(&mut self, words: &mut Words<'_>, out: &mut Output) -> Result<(), NoMemory> {
        match words.next() {
            "new" => {
                self.indexes = IndexOfs::new(out.alloc);
                Ok(())
            }
            "index" => {
                let number = self.indexes.len() as u64;
                self.indexes.push(read_index(words, number))?;
                Ok(())
            }
            call => self.append_choice(call, words, out),
        }
    }
}
