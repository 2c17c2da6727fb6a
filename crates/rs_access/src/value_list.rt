//! The rows whose value is one of a list.

ghost use Rattle.std.specs.Prelude.{◌≡◌, IfOk, OnOk};
ghost use Rattle.rs_access.specs.Access.{listed, put_all};
ghost use Rattle.rs_index.specs.Pairs.{range_of};

use crate::access::Access;
use crate::number_list::NumberList;
use rs_ast::Op;
use rs_base::{NoMemory, Value};
use rs_index::Index;
use sqlite_items::Items;
use std::alloc::Global;
use std::collections::BTreeSet;
use std::marker::Model;

/// The row numbers whose value in an index is one of a list of values, rising and each once. It has them all from the
/// start, so the index may change meanwhile. Seen as those that are left.
#[derive(Drop)]
pub struct ValueList {
    numbers: NumberList,
}

impl Model for ValueList {
    ghost use Rattle.std.specs.Prelude.{List, ℕ};

    ghost Value = { List ℕ };

    ghost view = { λ list. list.numbers };
}

/// Puts the row numbers of this value into the set.
fn put_numbers(numbers: &mut BTreeSet<u64>, index: &Index, value: &Value) -> Result<(), NoMemory>
    ensures { OnOk result (numbers.new.keys
        ≡ put_all numbers.old.keys (range_of Op.Eq value.now index.now.pairs)) }
{
    for number in index.range(Op::Eq, value) {
        numbers.insert(number)?;
    }
    Ok(())
}

impl ValueList {
    /// Lists the row numbers whose value is one of `values`.
    pub fn new(alloc: Global, index: &Index, values: &[Value]) -> Result<ValueList, NoMemory>
        ensures { IfOk result (λ list. list ≡ listed values.now index.now.pairs) }
    {
        let mut numbers = BTreeSet::new(alloc);
        for value in values {
            put_numbers(&mut numbers, index, value)?;
        }
        let numbers: Vec<u64> = numbers.iter().copied().collect(alloc)?;
        Ok(ValueList {
            numbers: NumberList::new(Items::from_vec(numbers)),
        })
    }
}

impl Access for ValueList {
    ghost left = { λ numbers. numbers };

    fn next(&mut self) -> Option<u64> {
        self.numbers.next()
    }
}
