//! The sessions of a site's users.

ghost use Rattle.std.specs.Prelude.{◌≡◌, Some, OnOk, OnErr, IfOk};
ghost use Rattle.std.specs.BTreeMap.{is_at};
ghost use Rattle.std.specs.Cmp.Lexicographic.{slice_cmp};
ghost use Rattle.std.specs.Map.{set_value, remove_entry};
ghost use Rattle.std.specs.Option.{option_copied};
ghost use Rattle.std.specs.Ordering.{nat_cmp};
ghost use Rattle.rs_session.specs.declared.session.Session.{Session};
ghost use Rattle.rs_session.specs.Sessions as spec;

use rs_base::{Ident, NoMemory, Reply};
use std::alloc::Global;
use std::collections::BTreeMap;
use std::marker::Model;

/// A user's session: the number of the last accepted request, 0 at opening, and its reply.
#[derive(Drop)]
pub struct Session {
    pub last: u64,
    pub reply: Option<Reply>,
}

/// The sessions of the users whose requests were accepted. Contracts see them as a list, sorted by user.
#[derive(Drop)]
pub struct Sessions {
    by_user: BTreeMap<Ident, Session>,
}

impl Model for Sessions {
    ghost use Rattle.rs_session.specs.Sessions.{Book};

    ghost Value = { Book };

    ghost view = { λ it. it.by_user.entries };
}

fn write(kept: &mut Session, session: Session)
    ensures { kept.new ≡ session }
{
    *kept = session;
}

impl Sessions {
    /// Makes an empty book of sessions.
    pub fn new(alloc: Global) -> Sessions
        ensures { result ≡ spec.all_fresh }
    {
        Sessions {
            by_user: BTreeMap::new(alloc),
        }
    }

    /// Returns the number of the user's last accepted request, 0 if there was none.
    pub fn last(&self, user: &Ident) -> u64
        ensures { result ≡ (spec.session_of user.now self.now).last }
    {
        match self.by_user.get(user) {
            Some(session) => session.last,
            None => 0,
        }
    }

    /// Returns the stored reply to the user's last request, if there is one.
    pub fn reply(&self, user: &Ident) -> Option<&Reply>
        ensures { option_copied result ≡ (spec.session_of user.now self.now).reply }
    {
        match self.by_user.get(user) {
            Some(session) => session.reply.as_ref(),
            None => None,
        }
    }

    /// Returns whether the user's last request is answered, or there was none.
    pub fn last_is_answered(&self, user: &Ident) -> bool
        ensures { result ≡ spec.last_is_answered (spec.session_of user.now self.now) }
    {
        self.last(user) == 0 || self.reply(user).is_some()
    }

    /// Stores this session of the user, and returns the one before. On out of memory nothing changes.
    pub fn put(&mut self, user: &Ident, session: Session) -> Result<Option<Session>, NoMemory>
        ensures ok { OnOk result (self.new ≡ spec.with_session user.now session self.old) }
        ensures before { IfOk result (λ before. before ≡ spec.kept_of user.now self.old) }
        ensures err { OnErr result (self.new ≡ self.old) }
        ensures in_order { spec.IsInOrder self.old }
    {
        Ok(self.by_user.insert(*user, session)?)
    }

    /// Restores the session that was stored before the last `put`. It takes no memory.
    pub fn put_back(&mut self, user: &Ident, before: Option<Session>)
        ensures { (book : spec.Book) (session : Session) → spec.IsInOrder book → self.old ≡ spec.with_session user.now session book → before ≡ spec.kept_of user.now book → self.new ≡ book }
    {
        match before {
            Some(session) => self.put_in_place(user, session),
            None => self.forget(user),
        }
    }

    /// Replaces the user's stored session.
    fn put_in_place(&mut self, user: &Ident, session: Session)
        ensures { (kept : Session) → spec.kept_of user.now self.old ≡ Some kept → self.new ≡ set_value (is_at (slice_cmp nat_cmp user.now)) self.old session }
    {
        let Some(kept) = self.by_user.get_mut(user) else {
            return;
        };
        write(kept, session);
    }

    /// Removes the user's session.
    fn forget(&mut self, user: &Ident)
        ensures { self.new ≡ remove_entry (is_at (slice_cmp nat_cmp user.now)) self.old }
    {
        let _forgotten = self.by_user.remove(user);
    }
}
