//! The actions of a world, one at a time.

ghost use Rattle.std.specs.Prelude.{◌≡◌, replicate, fold, None, IfOk, OnOk, IsTrue, ◌↔◌};
ghost use Rattle.rs_msg.specs.declared.message.Message.TheVariants as messages;
ghost use Rattle.rs_course.specs.declared.input.Input.TheVariants as inputs;
ghost use Rattle.rs_course.specs.Course.{GiveNext, Noise, Open, Post, ask_datagram, deliveries, lowest_pending};
ghost use Rattle.rs_site.specs.Course as spec;

use crate::sites::Sites;
use crate::world::World;
use rs_base::{Bytes, NoMemory, Origin, Peer, ReadFault, SiteNo};
use rs_course::{Datagram, Input};
use rs_msg::{Ask, Message, decode, encode};
use std::alloc::Global;

/// The largest number of deliveries of a settle without a count.
const MOST_DELIVERIES: usize = 16_777_216;

/// Makes the datagram of a client's ask of a first part.
fn ask_datagram(alloc: Global, origin: &Origin, text: &Bytes) -> Result<Datagram, NoMemory>
    ensures { IfOk result (λ datagram. datagram ≡ ask_datagram origin.now text.now) }
{
    let ask = Ask {
        user: origin.user,
        epoch: origin.epoch,
        number: origin.number,
        part: 0,
        text: text.copy(alloc)?,
    };
    let mut bytes = Bytes::new(alloc);
    encode(alloc, &Message::Ask(ask), &mut bytes)?;
    Ok(Datagram {
        from: Peer::Client(0),
        to: origin.site,
        bytes,
    })
}

/// Makes the input of a copied datagram.
fn input_of(alloc: Global, from: Peer, bytes: &Bytes) -> Result<Input, NoMemory>
    ensures { IfOk result (λ input. input ≡ inputs.Datagram from bytes.now) }
{
    Ok(Input::Datagram(from, bytes.copy(alloc)?))
}

impl World {
    pub(crate) fn open_sites(&mut self, alloc: Global, last: SiteNo) -> Result<(), NoMemory>
        ensures { OnOk result (self.new ≡ spec.act self.old (Open last)) }
    {
        self.sites = Sites::open(alloc, last)?;
        Ok(())
    }

    pub(crate) fn post(
        &mut self,
        alloc: Global,
        origin: &Origin,
        text: &Bytes,
    ) -> Result<(), NoMemory>
        ensures { OnOk result (self.new ≡ spec.act self.old (Post origin.now text.now)) }
    {
        self.sent.push(ask_datagram(alloc, origin, text)?)?;
        Ok(())
    }

    /// Gives a site bytes, if they are no message.
    pub(crate) fn receive_noise(
        &mut self,
        alloc: Global,
        site: SiteNo,
        bytes: &Bytes,
    ) -> Result<(), NoMemory>
        ensures { OnOk result (self.new ≡ spec.act self.old (Noise site bytes.now)) }
    {
        match decode(alloc, bytes.as_slice()) {
            Ok(_) => Ok(()),
            Err(ReadFault::Malformed) => {
                let input = input_of(alloc, Peer::Client(0), bytes)?;
                self.take_input(alloc, site, &input)
            }
            Err(ReadFault::NoMemory) => Err(NoMemory),
        }
    }

    /// Returns whether no datagram is pending.
    fn is_settled(&self) -> bool
        ensures { IsTrue result ↔ (lowest_pending self.now ≡ None) }
    {
        self.sent.len() <= self.delivered
    }

    /// Delivers the first datagram that wasn't delivered yet, if there is one.
    fn deliver_next(&mut self, alloc: Global) -> Result<(), NoMemory>
        ensures { OnOk result (self.new ≡ spec.act self.old GiveNext) }
    {
        let Some(datagram) = self.sent.as_slice().get(self.delivered) else {
            return Ok(());
        };
        let site = datagram.to;
        let input = input_of(alloc, datagram.from, &datagram.bytes)?;
        self.delivered += 1;
        self.take_input(alloc, site, &input)
    }

    /// Delivers at most `most` datagrams, and no more than are left.
    #[tactic(auto, using(crate::proofs::Deliveries::none_left, crate::proofs::Deliveries::one_of))]
    fn deliver_most(&mut self, alloc: Global, most: usize) -> Result<(), NoMemory>
        ensures { OnOk result (self.new ≡ fold spec.act self.old (replicate most GiveNext)) }
    {
        for _ in 0..most {
            if self.is_settled() {
                return Ok(());
            }
            self.deliver_next(alloc)?;
        }
        Ok(())
    }

    pub(crate) fn settle(&mut self, alloc: Global) -> Result<(), NoMemory>
        ensures { OnOk result (self.new ≡ fold spec.act self.old deliveries) }
    {
        self.deliver_most(alloc, MOST_DELIVERIES)
    }
}
