//! Whether a section fits the columns of its table and the values for its parameters.

ghost use Rattle.std.specs.Prelude.{◌≡◌, map, Some, slice_get};
ghost use Rattle.std.specs.Cmp.Lexicographic.{pointwise};
ghost use Rattle.std.specs.List.{list_all, zip};
ghost use Rattle.std.specs.Option.{option_copied};
ghost use Rattle.rs_ast.specs.Kinds as kinds;
ghost use Rattle.rs_plan.specs.Over as over;
ghost use Rattle.rs_exec.specs.Fit.{column_kinds, value_kinds};
ghost use Rattle.rs_exec.specs.Fit as spec;

use rs_ast::{Arith, BoundClause, BoundCmp, BoundRow, BoundSet, BoundSide, BoundTerm, ColDef};
use rs_base::{Kind, Value};
use rs_plan::{Section, SectionKind};

/// Returns whether the two kinds are the same, or one isn't known.
fn kinds_fit(one: Option<Kind>, other: Option<Kind>) -> bool
    ensures { result ≡ kinds.kinds_fit one other }
{
    match (one, other) {
        (Some(one), Some(other)) => one == other,
        _ => true,
    }
}

// ---- columns and parameters

/// Returns the kind of a column, if it is there.
fn column_kind(columns: &[ColDef], column_index: u16) -> Option<Kind>
    ensures { result ≡ slice_get (column_kinds columns.now) column_index }
{
    columns
        .get(usize::from(column_index))
        .map(|column| column.kind)
}

fn is_column_index(columns: &[ColDef], column_index: u16) -> bool
    ensures { result ≡ over.is_column_index (column_kinds columns.now) column_index }
{
    usize::from(column_index) < columns.len()
}

fn are_column_indexes(columns: &[ColDef], column_indexes: &[u16]) -> bool
    ensures { result ≡ list_all (over.is_column_index (column_kinds columns.now)) column_indexes.now }
{
    column_indexes
        .iter()
        .all(|column_index| is_column_index(columns, *column_index))
}

/// Returns whether there is such a column, of this kind.
fn has_kind(columns: &[ColDef], kind: Kind, column_index: u16) -> bool
    ensures { result ≡ over.has_kind (column_kinds columns.now) kind column_index }
{
    is_column_index(columns, column_index)
        && kinds_fit(Some(kind), column_kind(columns, column_index))
}

/// Returns the kind of a parameter's value, if it is known.
fn param_kind(values: Option<&[Value]>, param: u8) -> Option<Kind>
    ensures { result ≡ over.param_kind (value_kinds (option_copied values.entry)) param }
{
    match values {
        Some(values) => values.get(usize::from(param)).map(|value| value.kind()),
        None => None,
    }
}

/// Returns whether a parameter has a value, if there are values.
fn has_value(values: Option<&[Value]>, param: u8) -> bool
    ensures { result ≡ over.has_value (value_kinds (option_copied values.entry)) param }
{
    match values {
        Some(values) => usize::from(param) < values.len(),
        None => true,
    }
}

// ---- predicates

fn side_kind(columns: &[ColDef], values: Option<&[Value]>, side: &BoundSide) -> Option<Kind>
    ensures { result
        ≡ over.side_kind (column_kinds columns.now)
        (value_kinds (option_copied values.entry)) side.now }
{
    match side {
        BoundSide::Place(column_index) => column_kind(columns, *column_index),
        BoundSide::Lit(value) => Some(value.kind()),
        BoundSide::Param(param) => param_kind(values, *param),
    }
}

fn side_is_there(columns: &[ColDef], values: Option<&[Value]>, side: &BoundSide) -> bool
    ensures { result
        ≡ over.side_is_there (column_kinds columns.now)
        (value_kinds (option_copied values.entry)) side.now }
{
    match side {
        BoundSide::Place(column_index) => is_column_index(columns, *column_index),
        BoundSide::Lit(_) => true,
        BoundSide::Param(param) => has_value(values, *param),
    }
}

fn cmp_fits(columns: &[ColDef], values: Option<&[Value]>, cmp: &BoundCmp) -> bool
    ensures { result
        ≡ over.cmp_fits (column_kinds columns.now)
        (value_kinds (option_copied values.entry)) cmp.now }
{
    is_column_index(columns, cmp.left)
        && side_is_there(columns, values, &cmp.right)
        && kinds_fit(
            column_kind(columns, cmp.left),
            side_kind(columns, values, &cmp.right),
        )
}

fn clause_fits(columns: &[ColDef], values: Option<&[Value]>, clause: &[BoundCmp]) -> bool
    ensures { result
        ≡ list_all (over.cmp_fits (column_kinds columns.now)
        (value_kinds (option_copied values.entry))) clause.now }
{
    clause.iter().all(|cmp| cmp_fits(columns, values, cmp))
}

fn clauses_fit(columns: &[ColDef], values: Option<&[Value]>, clauses: &[BoundClause]) -> bool
    ensures { result
        ≡ over.clauses_fit (column_kinds columns.now)
        (value_kinds (option_copied values.entry)) clauses.now }
{
    clauses
        .iter()
        .all(|clause| clause_fits(columns, values, clause.as_slice()))
}

fn query_fits(
    columns: &[ColDef],
    values: Option<&[Value]>,
    clauses: &[BoundClause],
    shipped: &[u16],
) -> bool
    ensures { result ≡ spec.query_fits (column_kinds columns.now)
        (value_kinds (option_copied values.entry))
        clauses.now shipped.now }
{
    clauses_fit(columns, values, clauses) && are_column_indexes(columns, shipped)
}

/// Returns whether the column of a fetch is there, and has the kind of the fetched value, if there is one.
fn fetch_fits(columns: &[ColDef], by: u8, fetch: Option<&Value>) -> bool
    ensures { result ≡ spec.fetch_fits (column_kinds columns.now) by (option_copied fetch.entry) }
{
    match fetch {
        Some(value) => has_kind(columns, value.kind(), u16::from(by)),
        None => is_column_index(columns, u16::from(by)),
    }
}

// ---- changes

fn term_kind(columns: &[ColDef], values: Option<&[Value]>, term: &BoundTerm) -> Option<Kind>
    ensures { result
        ≡ over.term_kind (column_kinds columns.now)
        (value_kinds (option_copied values.entry)) term.now }
{
    match term {
        BoundTerm::Place(column_index) => column_kind(columns, *column_index),
        BoundTerm::Lit(value) => Some(value.kind()),
        BoundTerm::Param(param) => param_kind(values, *param),
    }
}

fn term_is_there(columns: &[ColDef], values: Option<&[Value]>, term: &BoundTerm) -> bool
    ensures { result
        ≡ over.term_is_there (column_kinds columns.now)
        (value_kinds (option_copied values.entry)) term.now }
{
    match term {
        BoundTerm::Place(column_index) => is_column_index(columns, *column_index),
        BoundTerm::Lit(_) => true,
        BoundTerm::Param(param) => has_value(values, *param),
    }
}

fn term_fits(columns: &[ColDef], values: Option<&[Value]>, kind: Kind, term: &BoundTerm) -> bool
    ensures { result
        ≡ over.term_fits (column_kinds columns.now)
        (value_kinds (option_copied values.entry)) kind term.now }
{
    term_is_there(columns, values, term) && kinds_fit(Some(kind), term_kind(columns, values, term))
}

fn more_fits(
    columns: &[ColDef],
    values: Option<&[Value]>,
    more: &Option<(Arith, BoundTerm)>,
) -> bool
    ensures { result
        ≡ over.more_fits (column_kinds columns.now)
        (value_kinds (option_copied values.entry)) more.now }
{
    match more {
        Some((_, second)) => term_fits(columns, values, Kind::Int, second),
        None => true,
    }
}

/// Returns the kind that an assignment to a column of this kind computes.
fn set_kind(kind: Kind, more: &Option<(Arith, BoundTerm)>) -> Kind
    ensures { result ≡ over.set_kind kind more.now }
{
    match more {
        Some(_) => Kind::Int,
        None => kind,
    }
}

fn set_fits(columns: &[ColDef], values: Option<&[Value]>, set: &BoundSet) -> bool
    ensures { result
        ≡ over.set_fits (column_kinds columns.now)
        (value_kinds (option_copied values.entry)) set.now }
{
    match column_kind(columns, u16::from(set.column)) {
        Some(kind) => {
            kinds_fit(Some(kind), Some(set_kind(kind, &set.more)))
                && term_fits(columns, values, kind, &set.first)
                && more_fits(columns, values, &set.more)
        }
        None => false,
    }
}

/// Returns whether the term is a value, or a parameter with a value, and no column.
fn is_given(values: Option<&[Value]>, term: &BoundTerm) -> bool
    ensures { result ≡ over.is_given (value_kinds (option_copied values.entry)) term.now }
{
    match term {
        BoundTerm::Place(_) => false,
        BoundTerm::Lit(_) => true,
        BoundTerm::Param(param) => has_value(values, *param),
    }
}

fn are_given(values: Option<&[Value]>, row: &[BoundTerm]) -> bool
    ensures { result ≡ list_all (over.is_given (value_kinds (option_copied values.entry))) row.now }
{
    row.iter().all(|term| is_given(values, term))
}

/// Returns whether the term has the kind of the column.
fn term_is_of(
    columns: &[ColDef],
    values: Option<&[Value]>,
    term: &BoundTerm,
    column: &ColDef,
) -> bool
    ensures { result ≡ kinds.kinds_fit (Some column.now.kind)
        (over.term_kind (column_kinds columns.now)
        (value_kinds (option_copied values.entry)) term.now) }
{
    kinds_fit(Some(column.kind), term_kind(columns, values, term))
}

/// Returns whether each term has the kind of its column, as far as there are both.
fn each_is_of(columns: &[ColDef], values: Option<&[Value]>, row: &[BoundTerm]) -> bool
    ensures { result ≡ list_all (λ both. kinds.kinds_fit (Some both.1.kind)
        (over.term_kind (column_kinds columns.now)
        (value_kinds (option_copied values.entry)) both.0))
        (zip row.now columns.now) }
{
    row.iter()
        .zip(columns)
        .all(|(term, column)| term_is_of(columns, values, term, column))
}

/// Returns whether there is a term for each column, of its kind.
fn are_of(columns: &[ColDef], values: Option<&[Value]>, row: &[BoundTerm]) -> bool
    ensures { result ≡ pointwise (λ term kind. kinds.kinds_fit (Some kind)
        (over.term_kind (column_kinds columns.now) (value_kinds (option_copied values.entry)) term))
        row.now (column_kinds columns.now) }
{
    row.len() == columns.len() && each_is_of(columns, values, row)
}

/// Returns whether the row has a value for each column, of its kind.
fn row_fits(columns: &[ColDef], values: Option<&[Value]>, row: &[BoundTerm]) -> bool
    ensures { result
        ≡ over.row_fits (column_kinds columns.now)
        (value_kinds (option_copied values.entry)) row.now }
{
    are_given(values, row) && are_of(columns, values, row)
}

fn rows_fit(columns: &[ColDef], values: Option<&[Value]>, rows: &[BoundRow]) -> bool
    ensures { result ≡ list_all (over.row_fits (column_kinds columns.now)
        (value_kinds (option_copied values.entry))) rows.now }
{
    rows.iter()
        .all(|row| row_fits(columns, values, row.as_slice()))
}

fn sets_fit(columns: &[ColDef], values: Option<&[Value]>, sets: &[BoundSet]) -> bool
    ensures { result ≡ list_all (over.set_fits (column_kinds columns.now)
        (value_kinds (option_copied values.entry))) sets.now }
{
    sets.iter().all(|set| set_fits(columns, values, set))
}

// ---- sections

/// Returns whether the section fits these columns, the values for its parameters, if there are values, and the fetched
/// value, if there is one. It takes no memory.
#[tactic(auto, unfolding(crate::specs::Fit::section_fits))]
pub fn fits(
    section: &Section,
    columns: &[ColDef],
    values: Option<&[Value]>,
    fetch: Option<&Value>,
) -> bool
    ensures { result
        ≡ spec.section_fits section.now columns.now
        (option_copied values.entry) (option_copied fetch.entry) }
{
    match &section.kind {
        SectionKind::Scan {
            clauses,
            columns: shipped,
        } => query_fits(columns, values, clauses.as_slice(), shipped.as_slice()),
        SectionKind::Fetch {
            clauses,
            columns: shipped,
            by,
        } => {
            query_fits(columns, values, clauses.as_slice(), shipped.as_slice())
                && fetch_fits(columns, *by, fetch)
        }
        SectionKind::Insert { rows } => rows_fit(columns, values, rows.as_slice()),
        SectionKind::Delete { clauses } => clauses_fit(columns, values, clauses.as_slice()),
        SectionKind::Update { sets, clauses } => {
            sets_fit(columns, values, sets.as_slice())
                && clauses_fit(columns, values, clauses.as_slice())
        }
    }
}
