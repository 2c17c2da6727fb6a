//! Distinct resources in the order in which they came.

ghost use Rattle.std.specs.Prelude.{◌≡◌, [], OnOk, OnErr};
ghost use Rattle.rs_lock.specs.Resources as spec;

use rs_base::{NoMemory, Resource};
use std::alloc::Global;
use std::collections::BTreeSet;
use std::marker::Model;

/// Distinct resources in the order in which they were added, and the set of them, by which one is found.
#[derive(Drop)]
pub(crate) struct Order {
    resources: Vec<Resource>,
    members: BTreeSet<Resource>,
}

impl Model for Order {
    ghost use Rattle.std.specs.Prelude.{List};
    ghost use Rattle.rs_base.specs.declared.lock.Resource.{Resource};

    ghost Value = { List Resource };

    ghost use Rattle.rs_lock.specs.OrderInside.{KnowsMembers};

    ghost view = { λ it. it.resources.items };

    ghost invariant = { KnowsMembers };
}

impl Order {
    /// Makes an empty order.
    pub(crate) fn new(alloc: Global) -> Order
        ensures { result ≡ [] }
    {
        Order {
            resources: Vec::new(alloc),
            members: BTreeSet::new(alloc),
        }
    }

    pub(crate) fn as_slice(&self) -> &[Resource]
        ensures { result.now ≡ self.now }
    {
        self.resources.as_slice()
    }

    /// Adds the resource at the end, unless it is there already. On out of memory nothing changes. Logarithmic in the number
    /// of resources.
    pub(crate) fn add(&mut self, what: &Resource) -> Result<(), NoMemory>
        ensures ok { OnOk result (self.new ≡ spec.noted what.now self.old) }
        ensures err { OnErr result (self.new ≡ self.old) }
    {
        if self.members.contains(what) {
            return Ok(());
        }
        self.resources.reserve(1)?;
        self.members.insert(*what)?;
        self.resources.push_reserved(*what);
        Ok(())
    }
}
