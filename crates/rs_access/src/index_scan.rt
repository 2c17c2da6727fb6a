//! The rows in a range of an index.

ghost use Rattle.std.specs.Prelude.{◌≡◌, ◌≢◌, IfOk};
ghost use Rattle.rs_index.specs.Pairs.{range_of};

use crate::access::Access;
use crate::number_list::NumberList;
use rs_ast::Op;
use rs_base::{NoMemory, Value};
use rs_index::Index;
use sqlite_items::Items;
use std::alloc::Global;
use std::marker::Model;

/// The row numbers in a range of an index, rising by value and then by number. It has them all from the start, so the
/// index may change meanwhile. Seen as those that are left.
#[derive(Drop)]
pub struct IndexScan {
    numbers: NumberList,
}

impl Model for IndexScan {
    ghost use Rattle.std.specs.Prelude.{List, ℕ};

    ghost Value = { List ℕ };

    ghost view = { λ scan. scan.numbers };
}

impl IndexScan {
    /// Scans the row numbers whose value satisfies the comparison. The operator isn't `<>`. Linear in their number,
    /// after the logarithm of the index's size.
    pub fn new(alloc: Global, index: &Index, op: Op, value: &Value) -> Result<IndexScan, NoMemory>
        requires { op ≢ Op.Ne }
        ensures { IfOk result (λ scan. scan ≡ range_of op value.now index.now.pairs) }
    {
        let mut numbers = Items::new(alloc);
        for number in index.range(op, value) {
            numbers.push(number)?;
        }
        Ok(IndexScan {
            numbers: NumberList::new(numbers),
        })
    }
}

impl Access for IndexScan {
    ghost left = { λ numbers. numbers };

    fn next(&mut self) -> Option<u64> {
        self.numbers.next()
    }
}
