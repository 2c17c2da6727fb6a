//! A site of the world handles an input.

ghost use Rattle.std.specs.Prelude.{◌≡◌, ◌++◌, map, flat_map, Some, OnOk};
ghost use Rattle.rs_course.specs.Course as spec;
ghost use Rattle.rs_site.specs.Course.{stepped_by};

use crate::queue::reversed;
use crate::world::World;
use rs_base::{Bytes, Datagrams, NoMemory, Peer, SiteNo};
use rs_course::{Datagram, Input, Outs, ReplyList, ReportedReply};
use rs_session::Tolds;
use sqlite_items::Items;
use std::alloc::Global;

/// Appends one send of this site to the datagrams, unless it goes to a client.
fn send_one(
    sent: &mut Items<Datagram>,
    site: SiteNo,
    to: Peer,
    bytes: Bytes,
) -> Result<(), NoMemory>
    ensures { OnOk result (sent.new ≡ sent.old ++ spec.sent_by site (to, bytes)) }
{
    if let Peer::Site(to) = to {
        sent.push(Datagram {
            from: Peer::Site(site),
            to,
            bytes,
        })?;
    }
    Ok(())
}

fn send_all(
    alloc: Global,
    sent: &mut Items<Datagram>,
    site: SiteNo,
    sends: Datagrams,
) -> Result<(), NoMemory>
    ensures { OnOk result (sent.new ≡ sent.old ++ flat_map (spec.sent_by site) sends) }
{
    let mut left = reversed(alloc, sends)?;
    while let Some((to, bytes)) = left.pop() {
        send_one(sent, site, to, bytes)?;
    }
    Ok(())
}

fn give_all(alloc: Global, replies: &mut ReplyList, reported: Tolds) -> Result<(), NoMemory>
    ensures { OnOk result (replies.new ≡ replies.old ++ map spec.reported_reply reported) }
{
    let mut left = reversed(alloc, reported)?;
    while let Some(reported) = left.pop() {
        replies.push(ReportedReply {
            origin: reported.origin,
            reply: reported.reply,
        })?;
    }
    Ok(())
}

impl World {
    fn take_outs(&mut self, alloc: Global, site: SiteNo, outs: Outs) -> Result<(), NoMemory>
        ensures { OnOk result (self.new ≡ spec.after_outs self.old site outs) }
    {
        let Outs {
            sends,
            replies,
            decided,
            runs,
        } = outs;
        send_all(alloc, &mut self.sent, site, sends)?;
        give_all(alloc, &mut self.replies, replies)?;
        self.history.append_new(alloc, decided)?;
        self.runs.append(runs)?;
        Ok(())
    }

    /// Gives the site of this number an input, if there is such a site.
    pub(crate) fn take_input(
        &mut self,
        alloc: Global,
        site: SiteNo,
        input: &Input,
    ) -> Result<(), NoMemory>
        ensures { OnOk result (self.new ≡ stepped_by self.old (Some (site, input.now))) }
    {
        match self.sites.step(alloc, site, input)? {
            Some(outs) => self.take_outs(alloc, site, outs),
            None => Ok(()),
        }
    }
}
