//! Calls on locks.

use crate::random::Random;
use rs_base::{Bytes, Enlist, Ident, Mode, NoMemory, Resource, SiteNo, print_number};
use rs_lock::{Asked, Locks};
use std::alloc::Global;

/// The number of enlistments that ask. Those of a higher number hold a lock of each resource from the start.
const ASKERS: u64 = 64;

/// The number of resources that one of the others holds.
const HELD_BY_ONE: u64 = 16;

fn enlist(number: u64) -> Enlist {
    Enlist {
        site: SiteNo::first(),
        epoch: 1,
        number,
    }
}

fn resource(alloc: Global, number: u64) -> Result<Option<Resource>, NoMemory> {
    let mut name = Bytes::from_slice(alloc, b"u".as_slice())?;
    print_number(alloc, number, &mut name)?;
    match Ident::new(name.as_slice()) {
        Some(user) => Ok(Some(Resource::Synonyms(user))),
        None => Ok(None),
    }
}

fn resources(alloc: Global, size: u64) -> Result<Vec<Resource>, NoMemory> {
    let mut all = Vec::new(alloc);
    for number in 0..size {
        if let Some(what) = resource(alloc, number)? {
            all.push(what)?;
        }
    }
    Ok(all)
}

/// Asks for a lock, and releases all locks of the enlistment if it would have to wait. Returns whether it was granted.
fn turn(locks: &mut Locks, who: &Enlist, what: &Resource, mode: Mode) -> Result<bool, NoMemory> {
    if locks.is_waiting(*who) {
        return Ok(false);
    }
    match locks.ask(*who, *what, mode)? {
        Asked::Granted => Ok(true),
        Asked::Waiting(_) => {
            let _granted = locks.release(*who)?;
            Ok(false)
        }
    }
}

/// Locks each resource for reading, by enlistments that don't ask again.
fn filled(alloc: Global, resources: &[Resource]) -> Result<Locks, NoMemory> {
    let mut locks = Locks::new(alloc);
    let mut number = ASKERS * HELD_BY_ONE;
    for what in resources {
        let _granted = turn(&mut locks, &enlist(number / HELD_BY_ONE), what, Mode::Read)?;
        number = number.saturating_add(1);
    }
    Ok(locks)
}

/// Asks for locks in no order, one of sixteen for writing, which has to wait: then the enlistment releases all of its locks.
/// Returns how many asks were granted.
fn turns(alloc: Global, count: u64, size: u64) -> Result<u64, NoMemory> {
    let resources = resources(alloc, size)?;
    let mut locks = filled(alloc, resources.as_slice())?;
    let mut random = Random::new();
    let mut granted = 0u64;
    for _ in 0..count {
        let who = random.below(ASKERS);
        let writes = random.below(16) == 0;
        let Some(what) = resources.get(random.below(size) as usize) else {
            break;
        };
        if turn(
            &mut locks,
            &enlist(who),
            what,
            if writes { Mode::Write } else { Mode::Read },
        )? {
            granted = granted.saturating_add(1);
        }
    }
    Ok(granted)
}

/// Makes calls, and returns a number that depends on their answers, if there are such calls.
pub fn make(alloc: Global, call: &str, count: u64, size: u64) -> Option<Result<u64, NoMemory>> {
    match call {
        "turn" => Some(turns(alloc, count, size)),
        _ => None,
    }
}
