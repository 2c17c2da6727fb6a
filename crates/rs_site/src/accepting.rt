//! Accepted asks.

ghost use Rattle.std.specs.Prelude.{◌≡◌, ◌<◌, ◌≤◌, length, IfOk, IfErr, OnOk, OnErr, Some, None};
ghost use Rattle.rs_mean.specs.Changes.{changed};
ghost use Rattle.rs_mean.specs.Outcome.{outcome_of};
ghost use Rattle.rs_parse.specs.Parsing.{text_limit};
ghost use Rattle.rs_site.specs.Asking as spec;
ghost use Rattle.rs_site.specs.Planned.{IsDone};
ghost use Rattle.rs_site.specs.Statement.{statement_of, offset_replied};

use crate::outs::{commits, no_outs, reply_with};
use crate::site::Site;
use rs_ast::Stmt;
use rs_base::{Answer, Bytes, Denial, NoMemory, Origin, Peer, Reply, Txn, one_item};
use rs_course::{Decided, Outs};
use rs_mean::{Change, Effect, Execution, is_executed};
use rs_parse::{ParseFault, parse};
use std::alloc::Global;

/// Returns the reply that reports the outcome of one statement.
fn reply_of(alloc: Global, answer: Result<Answer, Denial>) -> Result<Reply, NoMemory>
    ensures { IfOk result (λ reply. reply ≡ spec.reply_of (outcome_of answer)) }
{
    match answer {
        Ok(answer) => Ok(Reply::Done(one_item(alloc, answer)?)),
        Err(cause) => Ok(Reply::Denied(cause)),
    }
}

/// Returns the output of a committed execution of one statement, and the reply in it.
fn report_of(
    alloc: Global,
    from: &Peer,
    origin: &Origin,
    text: Bytes,
    txn: Txn,
    answer: Result<Answer, Denial>,
) -> Result<(Outs, Reply), NoMemory>
    ensures outs { IfOk result (λ made. made.0
        ≡ spec.reported from.now origin.now text txn (spec.reply_of (outcome_of answer))) }
    ensures reply { IfOk result (λ made. made.1 ≡ spec.reply_of (outcome_of answer)) }
{
    let reply = reply_of(alloc, answer)?;
    let kept = reply.copy(alloc)?;
    let decided = Decided {
        txn,
        origin: *origin,
        text,
    };
    Ok((commits(alloc, from, origin, reply, decided)?, kept))
}

/// Returns the supported statement of a text, or else the byte offset to reply.
#[tactic(auto, unfolding(crate::specs::Statement::statement_of, crate::specs::Statement::offset_replied))]
fn statement(alloc: Global, text: &[u8]) -> Result<Result<Stmt, u32>, NoMemory>
    requires { length text.now ≤ text_limit }
    ensures statement { IfOk result (λ said. IfOk said (λ stmt. statement_of text.now ≡ Some stmt)) }
    ensures none { IfOk result (λ said. OnErr said (statement_of text.now ≡ None)) }
    ensures offset { IfOk result (λ said. IfErr said (λ offset. offset ≡ offset_replied text.now)) }
{
    match parse(alloc, text) {
        Ok(stmt) if is_executed(&stmt) => Ok(Ok(stmt)),
        Ok(_) => Ok(Err(0)),
        Err(ParseFault::Syntax { place }) => Ok(Err(place)),
        Err(ParseFault::NoMemory) => Err(NoMemory),
    }
}

impl Site {
    /// Applies the change as the next transaction, and stores that the request was accepted, and its reply.
    fn commit(&mut self, change: Change, origin: &Origin, reply: Reply) -> Result<(), NoMemory>
        requires { self.old.desk.begun < spec.last_number }
        ensures ok { OnOk result (self.new
            ≡ spec.with_reply origin.now reply (spec.with_change (changed change self.old.held.database) self.old)) }
        ensures err { OnErr result (self.new ≡ self.old) }
    {
        let before = self.desk.remember(origin, reply)?;
        if let Err(fault) = self.held.database.apply(change) {
            self.desk.sessions.put_back(&origin.user, before);
            return Err(fault);
        }
        self.desk.begun += 1;
        Ok(())
    }

    /// Commits the execution, and replies its outcome.
    fn execute(
        &mut self,
        alloc: Global,
        from: &Peer,
        origin: &Origin,
        text: Bytes,
        execution: &Execution,
    ) -> Result<Outs, NoMemory>
        requires { self.old.desk.begun < spec.last_number }
        ensures ok { IfOk result (IsDone (spec.executed_by self.old from.now origin.now text execution.now) self.new) }
        ensures err { OnErr result (self.new ≡ self.old) }
    {
        let Effect { change, answer } = self.held.database.effect_of(alloc, execution)?;
        let (outs, reply) = report_of(alloc, from, origin, text, execution.txn, answer)?;
        self.commit(change, origin, reply)?;
        Ok(outs)
    }

    /// Executes the statement as the next transaction, and replies its outcome.
    fn execute_next(
        &mut self,
        alloc: Global,
        from: &Peer,
        origin: &Origin,
        text: Bytes,
        stmt: Stmt,
    ) -> Result<Outs, NoMemory>
        requires { self.old.desk.begun < spec.last_number }
        ensures ok { IfOk result (IsDone (spec.executed self.old from.now origin.now text stmt) self.new) }
        ensures err { OnErr result (self.new ≡ self.old) }
    {
        let execution = Execution {
            txn: self.who.next_txn(&self.desk),
            user: origin.user,
            site: origin.site,
            stmt,
        };
        self.execute(alloc, from, origin, text, &execution)
    }

    /// Accepts a statement. It is dropped if the epoch has no transaction left.
    #[tactic(auto, unfolding(crate::specs::Planned::when))]
    fn take_statement(
        &mut self,
        alloc: Global,
        from: &Peer,
        origin: &Origin,
        text: Bytes,
        stmt: Stmt,
    ) -> Result<Outs, NoMemory>
        ensures ok { IfOk result (IsDone (spec.accepted_as self.old from.now origin.now text (Some stmt)) self.new) }
        ensures err { OnErr result (self.new ≡ self.old) }
    {
        if self.desk.begun == u64::MAX {
            return Ok(no_outs(alloc));
        }
        self.execute_next(alloc, from, origin, text, stmt)
    }

    /// Accepts a text without a supported statement, and replies this byte offset.
    fn take_no_request(
        &mut self,
        alloc: Global,
        from: &Peer,
        origin: &Origin,
        offset: u32,
    ) -> Result<Outs, NoMemory>
        ensures ok { IfOk result (IsDone (spec.no_request self.old from.now origin.now offset) self.new) }
        ensures err { OnErr result (self.new ≡ self.old) }
    {
        let outs = reply_with(alloc, from, origin, 0, Reply::Syntax(offset))?;
        self.desk.remember(origin, Reply::Syntax(offset))?;
        Ok(outs)
    }

    /// Accepts the user's next request.
    pub(crate) fn take(
        &mut self,
        alloc: Global,
        from: &Peer,
        origin: &Origin,
        text: Bytes,
    ) -> Result<Outs, NoMemory>
        requires { length text ≤ text_limit }
        ensures ok { IfOk result (IsDone (spec.accepted self.old from.now origin.now text) self.new) }
        ensures err { OnErr result (self.new ≡ self.old) }
    {
        match statement(alloc, text.as_slice())? {
            Ok(stmt) => self.take_statement(alloc, from, origin, text, stmt),
            Err(offset) => self.take_no_request(alloc, from, origin, offset),
        }
    }
}
