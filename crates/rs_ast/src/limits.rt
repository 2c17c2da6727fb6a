//! The limits of statements.

ghost use Rattle.std.specs.Prelude.{◌≡◌, ◌↔◌, IsTrue};
ghost use Rattle.std.specs.List.{list_all};
ghost use Rattle.rs_ast.specs.Limits as spec;

use crate::change::{Term, TermRow};
use crate::clause::Clause;
use crate::select::{Item, Select};
use crate::stmt::{Dml, Stmt};

fn up_to<T>(most: usize, items: &[T]) -> bool
    ensures { result ≡ spec.up_to most items.now }
{
    items.len() <= most
}

fn one_to<T>(most: usize, items: &[T]) -> bool
    ensures { result ≡ spec.one_to most items.now }
{
    1 <= items.len() && up_to(most, items)
}

fn clauses_keep_limits(clauses: &[Clause]) -> bool
    ensures { result ≡ spec.clauses_keep_limits clauses.now }
{
    clauses.iter().all(|clause| 1 <= clause.any.len())
}

fn items_keep_limits(select: &Select) -> bool
    ensures { result ≡ spec.items_keep_limits select.now.items }
{
    match &select.items {
        None => true,
        Some(shown) => one_to(16, shown.as_slice()),
    }
}

fn select_keeps_limits(select: &Select) -> bool
    ensures { result ≡ spec.select_keeps_limits select.now }
{
    items_keep_limits(select)
        && one_to(6, select.from.as_slice())
        && clauses_keep_limits(select.clauses.as_slice())
        && up_to(16, select.group.as_slice())
        && up_to(16, select.order.as_slice())
}

fn is_given(term: &Term) -> bool
    ensures { result ≡ spec.is_given term.now }
{
    match term {
        Term::Col(_) => false,
        Term::Lit(_) => true,
        Term::Param(_) => true,
    }
}

fn are_given(row: &[Term]) -> bool
    ensures { result ≡ list_all spec.is_given row.now }
{
    row.iter().all(|term| is_given(term))
}

fn row_keeps_limits(row: &[Term]) -> bool
    ensures { result ≡ spec.row_keeps_limits row.now }
{
    one_to(16, row) && are_given(row)
}

fn rows_keep_limits(rows: &[TermRow]) -> bool
    ensures { result ≡ list_all spec.row_keeps_limits rows.now }
{
    rows.iter().all(|row| row_keeps_limits(row.as_slice()))
}

fn body_keeps_limits(body: &[Dml]) -> bool
    ensures { result ≡ list_all spec.dml_keeps_limits body.now }
{
    body.iter().all(|dml| dml.keeps_limits())
}

impl Dml {
    /// Returns whether the statement keeps the limits of statements: 1 to 6 tables of a query; 1 to 16 select items,
    /// values of a row, and assignments; at most 16 GROUP BY columns and sort keys; a row of an INSERT at least, without
    /// columns; a comparison in each clause. Linear in the statement.
    pub fn keeps_limits(&self) -> bool
        ensures { IsTrue result ↔ spec.DmlKeepsLimits self.now }
    {
        match self {
            Dml::Select(select) => select_keeps_limits(select),
            Dml::Insert { rows, .. } => 1 <= rows.len() && rows_keep_limits(rows.as_slice()),
            Dml::Update { sets, clauses, .. } => {
                one_to(16, sets.as_slice()) && clauses_keep_limits(clauses.as_slice())
            }
            Dml::Delete { clauses, .. } => clauses_keep_limits(clauses.as_slice()),
        }
    }
}

impl Stmt {
    /// Returns whether the statement keeps the limits of statements, as each that a text spells does: 1 to 16 columns of
    /// a table; at most 16 parameters, 1 to 8 statements of a program, and at most 16 values of an EXECUTE; and those of
    /// its queries and changes of rows. Linear in the statement.
    pub fn keeps_limits(&self) -> bool
        ensures { IsTrue result ↔ spec.KeepsLimits self.now }
    {
        match self {
            Stmt::CreateTable { columns, .. } => one_to(16, columns.as_slice()),
            Stmt::Compile { params, body, .. } => {
                up_to(16, params.as_slice())
                    && one_to(8, body.as_slice())
                    && body_keeps_limits(body.as_slice())
            }
            Stmt::Execute { values, .. } => up_to(16, values.as_slice()),
            Stmt::Explain(select) => select_keeps_limits(select),
            Stmt::Dml(dml) => dml.keeps_limits(),
            Stmt::DropTable { .. }
            | Stmt::CreateIndex { .. }
            | Stmt::DropIndex { .. }
            | Stmt::CreateSynonym { .. }
            | Stmt::DropSynonym { .. }
            | Stmt::Migrate { .. }
            | Stmt::DropProgram { .. }
            | Stmt::ShowSections
            | Stmt::ShowCache => true,
        }
    }
}
