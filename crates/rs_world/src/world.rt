//! A world of sites, and the events that it plays.

ghost use Rattle.std.specs.Prelude.{◌≡◌, OnOk, IfOk};
ghost use Rattle.rs_course.specs.World.{start};
ghost use Rattle.rs_site.specs.Course as spec;
ghost use Rattle.rs_site.specs.Report.{report_of};

use crate::history::History;
use crate::sites::Sites;
use rs_base::NoMemory;
use rs_course::{Datagram, ReplyList, Report, Runs};
use rs_sched::Event;
use sqlite_items::Items;
use std::alloc::Global;
use std::marker::Model;

/// A world of sites. It changes by `step` alone.
#[derive(Drop)]
pub struct World {
    pub(crate) sites: Sites,
    /// The datagrams in the order in which they were sent.
    pub(crate) sent: Items<Datagram>,
    /// The number of them that were delivered, from the first on.
    pub(crate) delivered: usize,
    pub(crate) replies: ReplyList,
    pub(crate) history: History,
    pub(crate) runs: Runs,
}

impl Model for World {
    ghost use Rattle.rs_site.specs.World.{World};
    ghost use Rattle.rs_world.specs.Inside.{world_of};

    ghost Value = { World };

    ghost view = { world_of };
}

impl World {
    /// Makes the world before the first event.
    pub fn new(alloc: Global) -> World
        ensures { result ≡ start }
    {
        World {
            sites: Sites::new(alloc),
            sent: Items::new(alloc),
            delivered: 0,
            replies: ReplyList::new(alloc),
            history: History::new(alloc),
            runs: Runs::new(alloc),
        }
    }

    /// Plays one event. Linear in the bytes of the event and of the datagrams that it delivers, and in the rows that their
    /// statements look at. After `NoMemory` the world is used no more.
    pub fn step(&mut self, alloc: Global, event: &Event) -> Result<(), NoMemory>
        ensures { OnOk result (self.new ≡ spec.world_step self.old event.now) }
    {
        match event {
            Event::Sites(last) => self.open_sites(alloc, *last),
            Event::Ask { origin, text } => self.post(alloc, origin, text),
            Event::Settle(None) => self.settle(alloc),
            Event::Noise(site, bytes) => self.receive_noise(alloc, *site, bytes),
            Event::Settle(Some(_)) => Ok(()),
            Event::Deliver(_) | Event::Lose(_) => Ok(()),
            Event::Tick(_, _) | Event::Stop(_, _, _) => Ok(()),
            Event::Arm(_, _, _, _) | Event::Restart(_) => Ok(()),
        }
    }

    /// Plays these events.
    pub fn play(alloc: Global, events: &[Event]) -> Result<World, NoMemory>
        ensures { IfOk result (λ world. world ≡ spec.course events.now) }
    {
        let mut world = World::new(alloc);
        for event in events {
            world.step(alloc, event)?;
        }
        Ok(world)
    }

    /// Returns the report of a world that is no longer used.
    pub fn into_report(self, alloc: Global) -> Result<Report, NoMemory>
        ensures { IfOk result (λ report. report ≡ report_of self) }
    {
        let World {
            sites,
            replies,
            history,
            runs,
            ..
        } = self;
        Ok(Report {
            replies,
            history: history.into_entries(),
            runs,
            sites: sites.into_views(alloc)?,
        })
    }
}
