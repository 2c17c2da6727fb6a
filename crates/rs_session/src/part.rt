//! The parts of a printed reply.

ghost use Rattle.std.specs.Prelude.{◌≡◌, IfOk};
ghost use Rattle.rs_session.specs.Parts as spec;

use rs_base::{Bytes, NoMemory, Origin, Reply};
use rs_print::print_reply;
use std::alloc::Global;

/// The size of each part of a reply but the last, in bytes.
pub(crate) const PART_SIZE: u64 = 30_000;

/// Returns whether the printed reply has this part, by printing it.
fn printed_has_part(
    alloc: Global,
    origin: &Origin,
    reply: &Reply,
    part: u32,
) -> Result<bool, NoMemory>
    ensures { IfOk result (λ has. has ≡ spec.has_part origin.now reply.now part) }
{
    let mut text = Bytes::new(alloc);
    print_reply(alloc, origin, reply, &mut text)?;
    Ok(u64::from(part) * PART_SIZE < text.len() as u64)
}

/// Returns whether the printed reply has this part, counted from 0. The first is always there.
pub fn has_part(alloc: Global, origin: &Origin, reply: &Reply, part: u32) -> Result<bool, NoMemory>
    ensures { IfOk result (λ has. has ≡ spec.has_part origin.now reply.now part) }
{
    if part == 0 {
        return Ok(true);
    }
    printed_has_part(alloc, origin, reply, part)
}
