//! Appends the printed text of rows, requests and replies part by part. On out of memory the bytes that were there are a
//! prefix of the new ones: a part of the text may be left after them.

ghost use Rattle.std.specs.Prelude.{◌≡◌, ◌++◌, length, take, flat_map, map, decimal, codes, OnOk, OnErr};
ghost use Rattle.std.specs.List.{join_with_byte};
ghost use Rattle.rs_base.specs.Keeping.{Keeps};
ghost use Rattle.rs_base.specs.Printing.{printed_value};
ghost use Rattle.rs_print.specs.Replies as spec;

pub use rs_base::append::{number, site, swn, value};
use rs_base::{
    Answer, Bytes, Denial, Enlist, NoMemory, Origin, Reason, Reply, Resource, Row, SiteNo, Txn,
    Value,
};

fn values(out: &mut Bytes, row: &[Value]) -> Result<(), NoMemory>
    ensures ok { OnOk result (out.new ≡ out.old ++ join_with_byte 44 (map printed_value row.now)) }
    ensures err { OnErr result (Keeps out.old out.new) }
{
    let [first, others @ ..] = row else {
        return Ok(());
    };
    value(out, first)?;
    further_values(out, others)
}

fn further_value(out: &mut Bytes, next: &Value) -> Result<(), NoMemory>
    ensures ok { OnOk result (out.new ≡ out.old ++ spec.further_value next.now) }
    ensures err { OnErr result (Keeps out.old out.new) }
{
    out.push(b',')?;
    value(out, next)
}

fn further_values(out: &mut Bytes, row: &[Value]) -> Result<(), NoMemory>
    ensures ok { OnOk result (out.new ≡ out.old ++ flat_map spec.further_value row.now) }
    ensures err { OnErr result (Keeps out.old out.new) }
{
    for next in row {
        further_value(out, next)?;
    }
    Ok(())
}

pub fn row(out: &mut Bytes, row: &[Value]) -> Result<(), NoMemory>
    ensures ok { OnOk result (out.new ≡ out.old ++ spec.printed_row row.now) }
    ensures err { OnErr result (Keeps out.old out.new) }
{
    values(out, row)?;
    out.extend(b"\n")
}

fn rows(out: &mut Bytes, rows: &[Row]) -> Result<(), NoMemory>
    ensures ok { OnOk result (out.new ≡ out.old ++ flat_map spec.printed_row rows.now) }
    ensures err { OnErr result (Keeps out.old out.new) }
{
    for each in rows {
        row(out, each.as_slice())?;
    }
    Ok(())
}

fn dotted(out: &mut Bytes, at: SiteNo, epoch: u32, n: u64) -> Result<(), NoMemory>
    ensures ok { OnOk result (out.new ≡ out.old ++ spec.dotted at epoch n) }
    ensures err { OnErr result (Keeps out.old out.new) }
{
    site(out, at)?;
    out.extend(b".")?;
    number(out, u64::from(epoch))?;
    out.extend(b".")?;
    number(out, n)
}

pub fn txn(out: &mut Bytes, txn: &Txn) -> Result<(), NoMemory>
    ensures ok { OnOk result (out.new ≡ out.old ++ spec.printed_txn txn.now) }
    ensures err { OnErr result (Keeps out.old out.new) }
{
    dotted(out, txn.site, txn.epoch, txn.number)
}

fn enlist(out: &mut Bytes, enlist: &Enlist) -> Result<(), NoMemory>
    ensures ok { OnOk result (out.new ≡ out.old ++ spec.printed_enlist enlist.now) }
    ensures err { OnErr result (Keeps out.old out.new) }
{
    dotted(out, enlist.site, enlist.epoch, enlist.number)
}

pub fn origin(out: &mut Bytes, origin: &Origin) -> Result<(), NoMemory>
    ensures ok { OnOk result (out.new ≡ out.old ++ spec.printed_origin origin.now) }
    ensures err { OnErr result (Keeps out.old out.new) }
{
    site(out, origin.site)?;
    out.extend(b" ")?;
    out.extend(origin.user.as_bytes())?;
    out.extend(b" ")?;
    number(out, u64::from(origin.epoch))?;
    out.extend(b" ")?;
    number(out, origin.number)
}

fn answer(out: &mut Bytes, answer: &Answer) -> Result<(), NoMemory>
    ensures ok { OnOk result (out.new ≡ out.old ++ spec.printed_answer answer.now) }
    ensures err { OnErr result (Keeps out.old out.new) }
{
    match answer {
        Answer::Ok => out.extend(b"ok\n"),
        Answer::Changed(n) => {
            out.extend(b"changed ")?;
            number(out, *n)?;
            out.extend(b"\n")
        }
        Answer::Rows(answered) => {
            out.extend(b"rows ")?;
            number(out, answered.len() as u64)?;
            out.extend(b"\n")?;
            rows(out, answered.as_slice())
        }
    }
}

fn answers(out: &mut Bytes, answers: &[Answer]) -> Result<(), NoMemory>
    ensures ok { OnOk result (out.new ≡ out.old ++ flat_map spec.printed_answer answers.now) }
    ensures err { OnErr result (Keeps out.old out.new) }
{
    for each in answers {
        answer(out, each)?;
    }
    Ok(())
}

fn denial_text(cause: Denial) -> &'static [u8]
    ensures { result.now ≡ spec.printed_denial cause }
{
    match cause {
        Denial::NoTable => b"1 NoTable",
        Denial::NoColumn => b"2 NoColumn",
        Denial::TwoColumns => b"3 TwoColumns",
        Denial::WrongType => b"4 WrongType",
        Denial::TableExists => b"5 TableExists",
        Denial::NoIndex => b"6 NoIndex",
        Denial::IndexExists => b"7 IndexExists",
        Denial::NoProgram => b"8 NoProgram",
        Denial::ProgramExists => b"9 ProgramExists",
        Denial::WrongParams => b"10 WrongParams",
        Denial::SynonymExists => b"11 SynonymExists",
        Denial::NoSynonym => b"12 NoSynonym",
        Denial::NoSite => b"13 NoSite",
        Denial::Overflow => b"14 Overflow",
        Denial::TooManyRows => b"15 TooManyRows",
        Denial::TableFull => b"16 TableFull",
    }
}

fn resource(out: &mut Bytes, what: &Resource) -> Result<(), NoMemory>
    ensures ok { OnOk result (out.new ≡ out.old ++ spec.printed_resource what.now) }
    ensures err { OnErr result (Keeps out.old out.new) }
{
    match what {
        Resource::Table(name) => {
            out.extend(b"table ")?;
            swn(out, name)
        }
        Resource::Birth(name) => {
            out.extend(b"birth ")?;
            swn(out, name)
        }
        Resource::Program(user, program) => {
            out.extend(b"program ")?;
            out.extend(user.as_bytes())?;
            out.extend(b" ")?;
            out.extend(program.as_bytes())
        }
        Resource::Synonyms(user) => {
            out.extend(b"synonyms ")?;
            out.extend(user.as_bytes())
        }
    }
}

#[tactic(auto, unfolding(crate::specs::Replies::printed_holder))]
fn holder(out: &mut Bytes, holder: &Enlist) -> Result<(), NoMemory>
    ensures ok { OnOk result (out.new ≡ out.old ++ spec.printed_holder holder.now) }
    ensures err { OnErr result (Keeps out.old out.new) }
{
    out.extend(b" holder ")?;
    enlist(out, holder)
}

#[tactic(auto, unfolding(crate::specs::Replies::printed_wait))]
fn wait(out: &mut Bytes, at: SiteNo, what: &Resource, held_by: &Enlist) -> Result<(), NoMemory>
    ensures ok { OnOk result (out.new ≡ out.old ++ spec.printed_wait at what.now held_by.now) }
    ensures err { OnErr result (Keeps out.old out.new) }
{
    out.extend(b"site ")?;
    site(out, at)?;
    out.extend(b" ")?;
    resource(out, what)?;
    holder(out, held_by)
}

fn reason(out: &mut Bytes, reason: &Reason) -> Result<(), NoMemory>
    ensures ok { OnOk result (out.new ≡ out.old ++ spec.printed_reason reason.now) }
    ensures err { OnErr result (Keeps out.old out.new) }
{
    match reason {
        Reason::LockBudget {
            site: at,
            what,
            holder,
        } => {
            out.extend(b"1 LockBudget ")?;
            wait(out, *at, what, holder)
        }
        Reason::NoAnswer { site: at } => {
            out.extend(b"2 NoAnswer site ")?;
            site(out, *at)
        }
        Reason::SiteLost { site: at } => {
            out.extend(b"3 SiteLost site ")?;
            site(out, *at)
        }
    }
}

fn line(out: &mut Bytes, line: &[u8]) -> Result<(), NoMemory>
    ensures ok { OnOk result (out.new ≡ out.old ++ spec.printed_line line.now) }
    ensures err { OnErr result (Keeps out.old out.new) }
{
    out.extend(line)?;
    out.extend(b"\n")
}

fn lines(out: &mut Bytes, lines: &[Bytes]) -> Result<(), NoMemory>
    ensures ok { OnOk result (out.new ≡ out.old ++ flat_map spec.printed_line lines.now) }
    ensures err { OnErr result (Keeps out.old out.new) }
{
    for each in lines {
        line(out, each.as_slice())?;
    }
    Ok(())
}

#[tactic(auto, unfolding(crate::specs::Replies::printed_counted))]
fn counted(out: &mut Bytes, class: &[u8], n: u64) -> Result<(), NoMemory>
    ensures ok { OnOk result (out.new ≡ out.old ++ spec.printed_counted class.now n) }
    ensures err { OnErr result (Keeps out.old out.new) }
{
    out.extend(class)?;
    number(out, n)?;
    out.extend(b"\n")
}

fn class(out: &mut Bytes, reply: &Reply) -> Result<(), NoMemory>
    ensures ok { OnOk result (out.new ≡ out.old ++ spec.printed_class reply.now) }
    ensures err { OnErr result (Keeps out.old out.new) }
{
    match reply {
        Reply::Done(answered) => {
            counted(out, b"done ", answered.len() as u64)?;
            answers(out, answered.as_slice())
        }
        Reply::Denied(cause) => {
            out.extend(b"denied ")?;
            out.extend(denial_text(*cause))?;
            out.extend(b"\n")
        }
        Reply::Failed(cause) => {
            out.extend(b"failed ")?;
            reason(out, cause)?;
            out.extend(b"\n")
        }
        Reply::Shown(shown) => {
            counted(out, b"shown ", shown.len() as u64)?;
            lines(out, shown.as_slice())
        }
        Reply::Syntax(place) => counted(out, b"syntax ", u64::from(*place)),
        Reply::OldEpoch(epoch) => counted(out, b"oldepoch ", u64::from(*epoch)),
        Reply::OldRequest(last) => counted(out, b"oldrequest ", *last),
        Reply::Gap(last) => counted(out, b"gap ", *last),
    }
}

pub fn reply(out: &mut Bytes, to: &Origin, reply: &Reply) -> Result<(), NoMemory>
    ensures ok { OnOk result (out.new ≡ out.old ++ spec.printed_reply to.now reply.now) }
    ensures err { OnErr result (Keeps out.old out.new) }
{
    out.extend(b"reply ")?;
    origin(out, to)?;
    out.extend(b" ")?;
    class(out, reply)
}
