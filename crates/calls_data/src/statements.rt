//! Statements over the tables of a file.

use crate::binding::{bound_over_entry, bound_over_heading, is_delete};
use crate::effects::{ASKED, append_answer, append_bound};
use case_tools::{Cases, Output, Words, read_row, read_rows};
use rs_answer::compare_answers;
use rs_ast::{ColDef, Column, Columns, Dml, ShapeKey, Stmt};
use rs_base::{Answer, Denial, Ident, NameText, NoMemory, Reply, Row, Rows, one_item};
use rs_bind::column_defs;
use rs_parse::{ParseFault, TEXT_LIMIT, parse};
use rs_plain::{PlainTable, PlainTables, answer_plain};
use rs_plan::Bound;
use rs_scope::{Heading, as_position};
use std::alloc::Global;
use std::cmp::Ordering;

/// The names of the parameters.
const PARAMS: &str = "t n";

/// The tables that the statements are over, and the values of the parameters `t` and `n`.
#[derive(Drop)]
pub struct StatementCases {
    tables: PlainTables,
    values: Row,
}

/// Parses a text, of which `TEXT_LIMIT` bytes are read at most.
fn parsed(alloc: Global, text: &str) -> Result<Stmt, ParseFault> {
    let text = text.as_bytes();
    let (text, _) = text.split_at(text.len().min(TEXT_LIMIT));
    parse(alloc, text)
}

/// Reads rows, or `none`.
fn read_table_rows(alloc: Global, word: &str) -> Result<Rows, NoMemory> {
    if word == "none" {
        return Ok(Rows::new(alloc));
    }
    read_rows(alloc, word)
}

/// Returns what is known of columns of which no values are counted.
fn known_columns(alloc: Global, columns: &[ColDef]) -> Result<Columns, NoMemory> {
    let mut known = Columns::new(alloc);
    for column in columns {
        known.push(Column {
            name: column.name,
            kind: column.kind,
            distinct: 0,
        })?;
    }
    Ok(known)
}

/// Returns the table of this name with these columns, and reads its rows.
fn table(
    alloc: Global,
    name: &NameText,
    columns: &[ColDef],
    rows: &str,
) -> Result<PlainTable, NoMemory> {
    let asker = Words::new(ASKED).origin();
    Ok(PlainTable {
        name: name.resolve(asker.user, asker.site),
        columns: known_columns(alloc, columns)?,
        rows: read_table_rows(alloc, rows)?,
    })
}

/// Returns the table that a statement creates with these rows, or no tables if it creates none.
fn created(
    alloc: Global,
    stmt: &Result<Stmt, ParseFault>,
    rows: &str,
    words: &mut Words<'_>,
) -> Result<PlainTables, NoMemory> {
    match stmt {
        Ok(Stmt::CreateTable { name, columns }) => {
            one_item(alloc, table(alloc, name, columns.as_slice(), rows)?)
        }
        _ => {
            words.refuse();
            Ok(PlainTables::new(alloc))
        }
    }
}

/// Reads `ROWS CREATE TABLE NAME (COLUMNS)`, or gives no tables if that is no such statement.
fn read_table(alloc: Global, words: &mut Words<'_>) -> Result<PlainTables, NoMemory> {
    let rows = words.next();
    let stmt = parsed(alloc, words.rest());
    created(alloc, &stmt, rows, words)
}

/// Returns the reply of an answer or a denial.
fn reply_of(alloc: Global, answered: Result<Answer, Denial>) -> Result<Reply, NoMemory> {
    match answered {
        Ok(answer) => Ok(Reply::Done(one_item(alloc, answer)?)),
        Err(cause) => Ok(Reply::Denied(cause)),
    }
}

/// Binds the statement over the heading of a table, with parameters of these names.
fn bound_over_table(
    alloc: Global,
    dml: &Dml,
    table: &PlainTable,
    t: Ident,
    n: Ident,
) -> Result<Result<Bound, Denial>, NoMemory> {
    let heading = Heading {
        name: table.name,
        columns: column_defs(alloc, table.columns.as_slice())?,
    };
    bound_over_heading(alloc, dml, &heading, t, n)
}

/// Binds the statement over the heading of a table, or for the call `bind` of a DELETE over an entry.
fn bound(
    alloc: Global,
    call: &str,
    dml: &Dml,
    table: &PlainTable,
) -> Result<Result<Bound, Denial>, NoMemory> {
    let mut params = Words::new(PARAMS);
    let t = params.ident();
    let n = params.ident();
    match call {
        "bind" if is_delete(dml) => bound_over_entry(alloc, dml, t, n),
        _ => bound_over_table(alloc, dml, table, t, n),
    }
}

/// Appends whether an order is greater.
fn append_order_of(order: Ordering, out: &mut Output) {
    match order {
        Ordering::Greater => out.text("greater"),
        Ordering::Less | Ordering::Equal => out.text("not greater"),
    }
}

/// Reads two integers, and appends the order of answers of one column whose values they are, sorted by it, falling.
fn append_order(words: &mut Words<'_>, out: &mut Output) -> Result<(), NoMemory> {
    let one = read_row(out.alloc, words.next())?;
    let other = read_row(out.alloc, words.next())?;
    let key = ShapeKey {
        item: 0,
        desc: true,
    };
    append_order_of(
        compare_answers(&[key], one.as_slice(), other.as_slice()),
        out,
    );
    Ok(())
}

impl StatementCases {
    pub fn new(alloc: Global) -> StatementCases {
        StatementCases {
            tables: PlainTables::new(alloc),
            values: Row::new(alloc),
        }
    }

    /// Appends the plain evaluator's answer, as it is replied to bob, who asks at site 2.
    fn append_plain(&self, dml: &Dml, out: &mut Output) -> Result<(), NoMemory> {
        let asked = Words::new(ASKED).origin();
        let answered = answer_plain(
            out.alloc,
            self.tables.as_slice(),
            dml,
            asked.user,
            asked.site,
        )?;
        out.reply(&asked, &reply_of(out.alloc, answered)?);
        Ok(())
    }

    /// Appends what a bound statement does to the rows, or what it answers.
    fn append_bound_call(
        &self,
        call: &str,
        bound: &Result<Bound, Denial>,
        rows: &[Row],
        out: &mut Output,
    ) -> Result<(), NoMemory> {
        match call {
            "answer" => append_answer(bound, rows, out),
            _ => append_bound(bound, self.values.as_slice(), rows, out),
        }
    }

    /// Binds a statement over the only table, and appends what the call returns.
    fn append_over(
        &self,
        call: &str,
        dml: &Dml,
        table: &PlainTable,
        out: &mut Output,
    ) -> Result<(), NoMemory> {
        let bound = bound(out.alloc, call, dml, table)?;
        self.append_bound_call(call, &bound, table.rows.as_slice(), out)
    }

    /// Appends what a call on a statement returns, over the only table or by the plain evaluator.
    fn append_statement(&self, call: &str, dml: &Dml, out: &mut Output) -> Result<(), NoMemory> {
        match self.tables.as_slice() {
            [table] => self.append_over(call, dml, table, out),
            _ => self.append_plain(dml, out),
        }
    }

    /// Appends what a call on a statement on rows returns.
    fn append_parsed(
        &self,
        call: &str,
        stmt: &Result<Stmt, ParseFault>,
        words: &mut Words<'_>,
        out: &mut Output,
    ) -> Result<(), NoMemory> {
        match stmt {
            Ok(Stmt::Dml(dml)) => self.append_statement(call, dml, out),
            _ => {
                words.refuse();
                Ok(())
            }
        }
    }

    /// Appends what a call on a statement returns.
    fn append_call(
        &self,
        call: &str,
        words: &mut Words<'_>,
        out: &mut Output,
    ) -> Result<(), NoMemory> {
        let stmt = parsed(out.alloc, words.rest());
        self.append_parsed(call, &stmt, words, out)
    }
}

impl Cases for StatementCases {
    fn answer(&mut self, words: &mut Words<'_>, out: &mut Output) -> Result<(), NoMemory> {
        match words.next() {
            "table" => {
                self.tables = read_table(out.alloc, words)?;
                Ok(())
            }
            "and" => {
                self.tables.append(read_table(out.alloc, words)?)?;
                Ok(())
            }
            "values" => {
                self.values = read_row(out.alloc, words.rest())?;
                Ok(())
            }
            "as_position" => {
                out.number(u64::from(as_position(words.small() as usize)));
                Ok(())
            }
            "compare_answers" => append_order(words, out),
            call => self.append_call(call, words, out),
        }
    }
}
