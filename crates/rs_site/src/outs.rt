//! The output of a step of a site.

ghost use Rattle.std.specs.Prelude.{◌≡◌, [], ◌∷◌, IfOk};
ghost use Rattle.rs_site.specs.Asking as spec;
ghost use Rattle.rs_course.specs.Outs.{no_outs};

use rs_base::{NoMemory, Origin, Peer, Reply, one_item};
use rs_course::{Decided, Outs};
use rs_session::Told;
use sqlite_items::Items;
use std::alloc::Global;

/// Returns the empty output.
pub(crate) fn no_outs(alloc: Global) -> Outs
    ensures { result ≡ no_outs }
{
    Outs {
        sends: Items::new(alloc),
        replies: Items::new(alloc),
        decided: Items::new(alloc),
        runs: Items::new(alloc),
    }
}

/// Returns the output of one part of a reply.
pub(crate) fn reply_with(
    alloc: Global,
    to: &Peer,
    origin: &Origin,
    part: u32,
    reply: Reply,
) -> Result<Outs, NoMemory>
    ensures { IfOk result (λ outs. outs ≡ spec.reply_with to.now origin.now part reply) }
{
    let reported = Told {
        peer: *to,
        origin: *origin,
        part,
        reply,
    };
    let mut outs = no_outs(alloc);
    outs.replies = one_item(alloc, reported)?;
    Ok(outs)
}

/// Returns the output of a committed execution: the first part of its reply, and its entry.
pub(crate) fn commits(
    alloc: Global,
    to: &Peer,
    origin: &Origin,
    reply: Reply,
    decided: Decided,
) -> Result<Outs, NoMemory>
    ensures { IfOk result (λ outs. outs ≡ record (spec.reply_with to.now origin.now 0 reply) { decided = decided ∷ [] }) }
{
    let mut outs = reply_with(alloc, to, origin, 0, reply)?;
    outs.decided = one_item(alloc, decided)?;
    Ok(outs)
}
