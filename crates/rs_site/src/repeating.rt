//! Replies that are sent again.

ghost use Rattle.std.specs.Prelude.{IfOk};
ghost use Rattle.rs_site.specs.Asking as spec;
ghost use Rattle.rs_site.specs.Planned.{IsDone};
ghost use Rattle.rs_session.specs.Sessions.{session_of};

use crate::outs::{no_outs, reply_with};
use crate::site::Site;
use rs_base::{NoMemory, Origin, Peer};
use rs_course::Outs;
use rs_session::has_part;
use std::alloc::Global;

impl Site {
    /// Sends the stored reply to the user's last request again, if there is one, and it has this part.
    #[tactic(auto, unfolding(crate::specs::Planned::when))]
    pub(crate) fn repeated(
        &self,
        alloc: Global,
        from: &Peer,
        origin: &Origin,
        part: u32,
    ) -> Result<Outs, NoMemory>
        ensures { IfOk result (IsDone (spec.repeated self.now from.now origin.now part (session_of origin.now.user self.now.desk.sessions).reply) self.now) }
    {
        let Some(reply) = self.desk.reply(&origin.user) else {
            return Ok(no_outs(alloc));
        };
        if !has_part(alloc, origin, reply, part)? {
            return Ok(no_outs(alloc));
        }
        reply_with(alloc, from, origin, part, reply.copy(alloc)?)
    }
}
