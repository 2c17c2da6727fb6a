//! The history of a world.

ghost use Rattle.std.specs.Prelude.{◌≡◌, [], OnOk, OnErr};
ghost use Rattle.rs_course.specs.History.{entered, with_entries};

use crate::queue::reversed;
use rs_base::{NoMemory, Txn};
use rs_course::{Decided, Decideds};
use std::alloc::Global;
use std::collections::BTreeSet;
use std::marker::Model;

/// Committed executions in their serial order, each transaction once.
#[derive(Drop)]
pub struct History {
    entries: Decideds,
    txns: BTreeSet<Txn>,
}

impl Model for History {
    ghost use Rattle.std.specs.Prelude.{List};
    ghost use Rattle.rs_course.specs.declared.outs.Decided.{Decided};
    ghost use Rattle.rs_world.specs.Entries.{KnowsTransactions};

    ghost Value = { List Decided };

    ghost view = { λ it. it.entries };

    ghost invariant = { KnowsTransactions };
}

impl History {
    /// Makes an empty history.
    pub fn new(alloc: Global) -> History
        ensures { result ≡ [] }
    {
        History {
            entries: Decideds::new(alloc),
            txns: BTreeSet::new(alloc),
        }
    }

    /// Appends an entry of a transaction that the history doesn't have. On out of memory nothing changes. Logarithmic in
    /// the number of entries.
    fn append(&mut self, entry: Decided) -> Result<(), NoMemory>
        ensures ok { OnOk result (self.new ≡ entered self.old entry) }
        ensures err { OnErr result (self.new ≡ self.old) }
    {
        let txn = entry.txn;
        if self.txns.contains(&txn) {
            return Ok(());
        }
        self.entries.push(entry)?;
        match self.txns.insert(txn) {
            Ok(_) => Ok(()),
            Err(_) => {
                self.entries.pop();
                Err(NoMemory)
            }
        }
    }

    /// Appends those of the entries whose transactions the history doesn't have.
    pub fn append_new(&mut self, alloc: Global, entries: Decideds) -> Result<(), NoMemory>
        ensures { OnOk result (self.new ≡ with_entries self.old entries) }
    {
        let mut left = reversed(alloc, entries)?;
        while let Some(entry) = left.pop() {
            self.append(entry)?;
        }
        Ok(())
    }

    /// Returns the entries of a history that is no longer used.
    pub fn into_entries(self) -> Decideds
        ensures { result ≡ self }
    {
        self.entries
    }
}
