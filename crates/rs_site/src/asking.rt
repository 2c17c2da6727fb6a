//! A site's handling of an ask.

ghost use Rattle.std.specs.Prelude.{◌≡◌, ◌≤◌, length, IfOk, OnErr};
ghost use Rattle.rs_parse.specs.Parsing.{text_limit};
ghost use Rattle.rs_site.specs.Asking as spec;
ghost use Rattle.rs_site.specs.Planned.{IsDone};
ghost use Rattle.rs_session.specs.Sessions.{session_of};

use crate::outs::{no_outs, reply_with};
use crate::site::Site;
use rs_base::{Bytes, NoMemory, Origin, Peer, Reply};
use rs_course::Outs;
use rs_msg::Ask;
use std::alloc::Global;

impl Site {
    /// Handles the first part of a request in the site's epoch.
    #[tactic(auto, unfolding(crate::specs::Planned::when))]
    fn by_number(
        &mut self,
        alloc: Global,
        from: &Peer,
        origin: &Origin,
        text: Bytes,
    ) -> Result<Outs, NoMemory>
        requires { length text ≤ text_limit }
        ensures ok { IfOk result (IsDone (spec.by_number self.old from.now origin.now text (session_of origin.now.user self.old.desk.sessions)) self.new) }
        ensures err { OnErr result (self.new ≡ self.old) }
    {
        let last = self.desk.last(&origin.user);
        if origin.number < last {
            return reply_with(alloc, from, origin, 0, Reply::OldRequest(last));
        }
        if origin.number == last {
            return self.repeated(alloc, from, origin, 0);
        }
        if self.desk.is_next(origin) {
            return self.take(alloc, from, origin, text);
        }
        reply_with(alloc, from, origin, 0, Reply::Gap(last))
    }

    /// Handles an ask of a first part.
    #[tactic(auto, unfolding(crate::specs::Planned::when))]
    fn on_first(
        &mut self,
        alloc: Global,
        from: &Peer,
        origin: &Origin,
        text: Bytes,
    ) -> Result<Outs, NoMemory>
        requires { length text ≤ text_limit }
        ensures ok { IfOk result (IsDone (spec.on_first self.old from.now origin.now text) self.new) }
        ensures err { OnErr result (self.new ≡ self.old) }
    {
        if origin.epoch == self.who.epoch {
            self.by_number(alloc, from, origin, text)
        } else {
            reply_with(alloc, from, origin, 0, Reply::OldEpoch(self.who.epoch))
        }
    }

    /// Handles an ask of a further part.
    #[tactic(auto, unfolding(crate::specs::Planned::when))]
    fn on_further(
        &self,
        alloc: Global,
        from: &Peer,
        origin: &Origin,
        part: u32,
    ) -> Result<Outs, NoMemory>
        ensures { IfOk result (IsDone (spec.on_further self.now from.now origin.now part) self.now) }
    {
        if origin.epoch == self.who.epoch && origin.number == self.desk.last(&origin.user) {
            self.repeated(alloc, from, origin, part)
        } else {
            Ok(no_outs(alloc))
        }
    }

    /// Handles an ask from a peer.
    #[tactic(auto, unfolding(crate::specs::Planned::when))]
    pub(crate) fn on_ask(&mut self, alloc: Global, from: &Peer, ask: Ask) -> Result<Outs, NoMemory>
        requires { length ask.text ≤ text_limit }
        ensures ok { IfOk result (IsDone (spec.on_ask self.old from.now ask) self.new) }
        ensures err { OnErr result (self.new ≡ self.old) }
    {
        let Ask {
            user,
            epoch,
            number,
            part,
            text,
        } = ask;
        let origin = Origin {
            site: self.who.me,
            user,
            epoch,
            number,
        };
        if part == 0 {
            self.on_first(alloc, from, &origin, text)
        } else {
            self.on_further(alloc, from, &origin, part)
        }
    }
}
