//! What a site has of its users.

ghost use Rattle.std.specs.Prelude.{◌≡◌, ◌<◌, IfOk, OnOk, OnErr};
ghost use Rattle.std.specs.Option.{option_copied};
ghost use Rattle.rs_session.specs.Sessions.{IsInOrder, kept_of, session_of};
ghost use Rattle.rs_site.specs.Asking.{is_next, remembering};
ghost use Rattle.rs_site.specs.State.{new_desk};

use rs_base::{Ident, NoMemory, Origin, Reply};
use rs_session::{Session, Sessions};
use std::alloc::Global;

/// The sessions of a site's users, and the number of transactions that the site began in its epoch.
#[derive(Drop)]
pub(crate) struct Desk {
    pub(crate) sessions: Sessions,
    pub(crate) begun: u64,
}

impl Desk {
    /// Makes the desk of a site that is opened.
    pub(crate) fn new(alloc: Global) -> Desk
        ensures { result ≡ new_desk }
    {
        Desk {
            sessions: Sessions::new(alloc),
            begun: 0,
        }
    }

    /// Returns the number of the user's last accepted request, 0 if there was none.
    pub(crate) fn last(&self, user: &Ident) -> u64
        ensures { result ≡ (session_of user.now self.now.sessions).last }
    {
        self.sessions.last(user)
    }

    /// Returns the stored reply to the user's last request, if there is one.
    pub(crate) fn reply(&self, user: &Ident) -> Option<&Reply>
        ensures { option_copied result ≡ (session_of user.now self.now.sessions).reply }
    {
        self.sessions.reply(user)
    }

    /// Returns whether the request is the user's next, and the last is answered.
    pub(crate) fn is_next(&self, origin: &Origin) -> bool
        requires { (session_of origin.now.user self.now.sessions).last < origin.now.number }
        ensures { result ≡ is_next origin.now.number (session_of origin.now.user self.now.sessions) }
    {
        origin.number == self.last(&origin.user) + 1 && self.sessions.last_is_answered(&origin.user)
    }

    /// Stores that the request was accepted, and its reply, and returns the session that was stored before. On out of memory
    /// nothing changes.
    pub(crate) fn remember(
        &mut self,
        origin: &Origin,
        reply: Reply,
    ) -> Result<Option<Session>, NoMemory>
        ensures ok { OnOk result (self.new ≡ remembering self.old origin.now reply) }
        ensures before { IfOk result (λ before. before ≡ kept_of origin.now.user self.old.sessions) }
        ensures err { OnErr result (self.new ≡ self.old) }
        ensures in_order { IsInOrder self.old.sessions }
    {
        let session = Session {
            last: origin.number,
            reply: Some(reply),
        };
        self.sessions.put(&origin.user, session)
    }
}
