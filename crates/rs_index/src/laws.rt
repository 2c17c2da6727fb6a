//! Laws of indexes. A law's claim is its contract, and its body does nothing.

ghost use Rattle.std.specs.Prelude.{◌↔◌, ℕ, Contains, IsTrue, nat_eq};
ghost use Rattle.std.specs.List.{IsDistinct};
ghost use Rattle.rs_base.specs.declared.value.Value.{Value};
ghost use Rattle.rs_ast.specs.declared.clause.Op.{Op};
ghost use Rattle.rs_rows.specs.TableRows.{TableRows, IsTable};
ghost use Rattle.rs_index.specs.Pairs.{pairs_of, range_of};
ghost use Rattle.rs_index.specs.Satisfying.{satisfies};

/// Proves that after building, a range has exactly the numbers of the rows whose value in the column satisfies the
/// comparison.
pub fn range_gives_satisfying()
    ensures { (table : TableRows) (column : ℕ) (op : Op) (value : Value) (number : ℕ)
        → IsTable table
        → Contains (range_of op value (pairs_of column table.rows)) number
        ↔ IsTrue (satisfies op value column table number) }
{}

/// Proves that after building, a range has each number once.
pub fn range_gives_each_once()
    ensures { (table : TableRows) (column : ℕ) (op : Op) (value : Value) → IsTable table
        → IsDistinct nat_eq (range_of op value (pairs_of column table.rows)) }
{}
