//! The orders of values, names, resources, peers, transactions and requests: what `cmp` returns.

ghost use Rattle.std.specs.Prelude.{◌≡◌};
ghost use Rattle.rs_base.specs.Name.{name_cmp};
ghost use Rattle.rs_base.specs.Orders.{mode_cmp, peer_cmp, resource_cmp};
ghost use Rattle.rs_base.specs.Txn.{enlist_cmp, origin_cmp, txn_cmp};
ghost use Rattle.rs_base.specs.Value.{value_cmp};

use crate::lock::{Mode, Resource};
use crate::name::Swn;
use crate::peer::Peer;
use crate::txn::{Enlist, Origin, Txn};
use crate::value::Value;
use std::cmp::Ordering;

/// Orders integers by value, texts by their bytes, each integer below each text.
pub fn order_of_values(one: &Value, other: &Value) -> Ordering
    ensures { result ≡ value_cmp one.now other.now }
{
    one.cmp(other)
}

/// Orders by creator, its site, the object and the birth site.
pub fn order_of_names(one: &Swn, other: &Swn) -> Ordering
    ensures { result ≡ name_cmp one.now other.now }
{
    one.cmp(other)
}

/// Orders tables before births, births before programs, programs before synonyms, and each by its fields in order.
pub fn order_of_resources(one: &Resource, other: &Resource) -> Ordering
    ensures { result ≡ resource_cmp one.now other.now }
{
    one.cmp(other)
}

/// Orders reading before writing.
pub fn order_of_modes(one: &Mode, other: &Mode) -> Ordering
    ensures { result ≡ mode_cmp one.now other.now }
{
    one.cmp(other)
}

/// Orders sites before clients, each by its number.
pub fn order_of_peers(one: &Peer, other: &Peer) -> Ordering
    ensures { result ≡ peer_cmp one.now other.now }
{
    one.cmp(other)
}

/// Orders by site, epoch and number.
pub fn order_of_txns(one: &Txn, other: &Txn) -> Ordering
    ensures { result ≡ txn_cmp one.now other.now }
{
    one.cmp(other)
}

/// Orders by site, epoch and number.
pub fn order_of_enlists(one: &Enlist, other: &Enlist) -> Ordering
    ensures { result ≡ enlist_cmp one.now other.now }
{
    one.cmp(other)
}

/// Orders by site, user, epoch and number.
pub fn order_of_origins(one: &Origin, other: &Origin) -> Ordering
    ensures { result ≡ origin_cmp one.now other.now }
{
    one.cmp(other)
}
