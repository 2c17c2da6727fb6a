//! An index.

ghost use Rattle.std.specs.Prelude.{◌≡◌, ◌≢◌, [], IfOk, OnOk, OnErr, unwrap_or, if◌then◌else◌};
ghost use Rattle.std.specs.declared.cmp.Ordering.TheVariants.{Less, Greater};
ghost use Rattle.rs_ast.specs.Allows.{allows};
ghost use Rattle.rs_index.specs.Pairs.{added, dropped, has, pairs_of, range_of};
ghost use Rattle.rs_index.specs.TextPairs.{pair_numbers};

use crate::index_iter::IndexIter;
use crate::int_numbers::{IntNumbers, add_int, all_ints, drop_int, range_of_ints};
use crate::text_iter::TextIter;
use crate::text_numbers::TextNumbers;
use rs_ast::Op;
use rs_base::{NoMemory, Txt, Value};
use rs_rows::TableRows;
use std::alloc::Global;
use std::collections::BTreeSet;
use std::collections::btree_set::Range;
use std::marker::Model;

/// An index over a column: for each row that has a value in it the pair of that value and the row's number, rising by
/// value and then by number.
#[derive(Drop)]
pub struct Index {
    column: u8,
    ints: IntNumbers,
    texts: TextNumbers,
}

impl Model for Index {
    ghost use Rattle.rs_index.specs.Index.{Index};

    ghost Value = { Index };

    ghost use Rattle.rs_index.specs.IndexInside.{index_of, IsKept};

    ghost view = { index_of };

    ghost invariant = { IsKept };
}

/// Returns all integers, if those below a text satisfy the comparison with it.
fn ints_below(ints: &IntNumbers, op: Op) -> Option<Range<'_, (i64, u64)>>
    ensures { unwrap_or result [] ≡ (if allows op Less then ints.now.keys else []) }
{
    match op {
        Op::Ne | Op::Lt | Op::Le => Some(all_ints(ints)),
        Op::Eq | Op::Gt | Op::Ge => None,
    }
}

/// Returns the numbers of all texts, if those above an integer satisfy the comparison with it.
fn texts_above(texts: &TextNumbers, op: Op) -> Option<TextIter<'_>>
    ensures { unwrap_or result [] ≡ (if allows op Greater then pair_numbers texts.now else []) }
{
    match op {
        Op::Ne | Op::Gt | Op::Ge => Some(texts.all()),
        Op::Eq | Op::Lt | Op::Le => None,
    }
}

impl Index {
    ghost use Rattle.std.specs.Prelude.{◌≡◌, ◌≢◌, [], IfOk, OnOk, OnErr};
    ghost use Rattle.rs_index.specs.Pairs.{added, dropped, has, pairs_of, range_of};

    fn new(alloc: Global, column: u8) -> Index
        ensures { result ≡ record { column = column; pairs = [] } }
    {
        Index {
            column,
            ints: BTreeSet::new(alloc),
            texts: TextNumbers::new(alloc),
        }
    }

    /// Builds the index over a column of these rows. A row without a value in the column has no pair.
    pub fn build(alloc: Global, rows: &TableRows, column: u8) -> Result<Index, NoMemory>
        ensures { IfOk result (λ index. index
            ≡ record { column = column; pairs = pairs_of column rows.now.rows }) }
    {
        let mut index = Index::new(alloc, column);
        for (number, row) in rows.iter() {
            if let Some(value) = row.get(usize::from(column)) {
                index.add(value, number)?;
            }
        }
        Ok(index)
    }

    /// Adds a row's value, with the row's number. A pair that is there stays. On out of memory nothing changes.
    /// Logarithmic in the number of pairs.
    pub fn add(&mut self, value: &Value, number: u64) -> Result<(), NoMemory>
        ensures ok { OnOk result (self.new
            ≡ record self.old { pairs = added (value.now, number) self.old.pairs }) }
        ensures err { OnErr result (self.new ≡ self.old) }
    {
        match value {
            Value::Int(n) => add_int(&mut self.ints, *n, number),
            Value::Text(text) => self.texts.add(text, number),
        }
    }

    /// Drops a row's value, with the row's number. Returns whether the pair was there. Logarithmic in the number of
    /// pairs.
    pub fn drop_row(&mut self, value: &Value, number: u64) -> bool
        ensures test { result ≡ has (value.now, number) self.old.pairs }
        ensures pairs { self.new
            ≡ record self.old { pairs = dropped (value.now, number) self.old.pairs } }
    {
        match value {
            Value::Int(n) => drop_int(&mut self.ints, *n, number),
            Value::Text(text) => self.texts.drop_row(text, number),
        }
    }

    /// Returns the row numbers whose value satisfies the comparison, rising by value and then by number. The operator
    /// isn't `<>`. Logarithmic in the number of pairs, and then linear in what is taken of the answer.
    pub fn range(&self, op: Op, value: &Value) -> IndexIter<'_>
        requires { op ≢ Op.Ne }
        ensures { result ≡ range_of op value.now self.now.pairs }
    {
        match value {
            Value::Int(n) => self.range_by_int(op, *n),
            Value::Text(text) => self.range_by_text(op, text),
        }
    }

    /// Each text is above the integer.
    fn range_by_int(&self, op: Op, n: i64) -> IndexIter<'_>
        requires { op ≢ Op.Ne }
        ensures { result ≡ range_of op (Value.Int n) self.now.pairs }
    {
        let texts = texts_above(&self.texts, op);
        IndexIter::new(Some(range_of_ints(&self.ints, op, n)), texts)
    }

    /// Each integer is below the text.
    fn range_by_text(&self, op: Op, text: &Txt) -> IndexIter<'_>
        requires { op ≢ Op.Ne }
        ensures { result ≡ range_of op (Value.Text text.now) self.now.pairs }
    {
        let ints = ints_below(&self.ints, op);
        IndexIter::new(ints, Some(self.texts.range(op, text)))
    }

    /// Returns the column index.
    pub fn column(&self) -> u8
        ensures { result ≡ self.now.column }
    {
        self.column
    }
}
