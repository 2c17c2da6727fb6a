//! Makes many calls on structures of a given size, for the scripts of bench/ to time.
#![tactic(auto)]

mod index;
mod locks;
mod random;
mod rows;
mod sections;

use rs_base::NoMemory;
use std::alloc::Global;
use std::io;

/// Makes the calls of a line `STRUCTURE CALL COUNT SIZE`, and returns a number that depends on their answers, if there are such
/// calls.
fn make(alloc: Global, line: &str) -> Option<Result<u64, NoMemory>> {
    let mut words = line.split(' ');
    let structure = words.next()?;
    let call = words.next()?;
    let count = words.next()?.parse().ok()?;
    let size = words.next()?.parse().ok()?;
    match structure {
        "rows" => rows::make(alloc, call, count, size),
        "index" => index::make(alloc, call, count, size),
        "locks" => locks::make(alloc, call, count, size),
        "sections" => sections::make(alloc, call, count, size),
        _ => None,
    }
}

/// Prints a line and what its calls returned.
fn print<R: Print>(rt: &R, line: &str, made: Option<Result<u64, NoMemory>>) -> io::Result<()> {
    match made {
        Some(Ok(answer)) => println!(rt; "{line}: {answer}"),
        Some(Err(NoMemory)) => println!(rt; "{line}: out of memory"),
        None => println!(rt; "{line}: no such calls"),
    }
}

fn main(rt: HostRuntime) -> io::Result<()> {
    for line in rt.lines(rt.alloc()) {
        let line = line?;
        print(&rt, line.as_str(), make(rt.alloc(), line.as_str()))?;
    }
    Ok(())
}
