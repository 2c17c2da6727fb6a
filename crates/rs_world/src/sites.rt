//! The sites of a world.

ghost use Rattle.std.specs.Prelude.{◌≡◌, ◌-◌, [], map, IfOk, OnErr, slice_get};
ghost use Rattle.std.specs.List.{enumerate_from, range_with_len};
ghost use Rattle.rs_site.specs.State.{opened};
ghost use Rattle.rs_site.specs.Report.{view_of};
ghost use Rattle.rs_world.specs.Sites as spec;

use crate::report::site_view;
use rs_base::{NoMemory, SiteNo};
use rs_course::{Input, Outs, SiteViews};
use rs_site::Site;
use std::alloc::Global;
use std::marker::Model;

/// Sites 1 and up, at most 16. Contracts see the list of their states.
#[derive(Drop)]
pub struct Sites {
    sites: Vec<Site>,
}

impl Model for Sites {
    ghost use Rattle.std.specs.Prelude.{List, ◌≤◌, length};
    ghost use Rattle.rs_site.specs.State.{SiteState};

    ghost Value = { List SiteState };

    ghost view = { λ it. it.sites.items };

    ghost invariant = { λ it. length it.sites.items ≤ 16 };
}

impl Sites {
    /// Makes an empty list of sites.
    pub fn new(alloc: Global) -> Sites
        ensures { result ≡ [] }
    {
        Sites {
            sites: Vec::new(alloc),
        }
    }

    /// Opens sites 1 to the last.
    pub fn open(alloc: Global, last: SiteNo) -> Result<Sites, NoMemory>
        ensures { IfOk result (λ sites. sites ≡ map (λ me. opened me last) (range_with_len 1 last)) }
    {
        let mut sites = Vec::new(alloc);
        for before in 0..last.number() {
            let Some(me) = SiteNo::new(before + 1) else {
                unreachable!();
            };
            sites.push(Site::open(alloc, me, last)?)?;
        }
        Ok(Sites { sites })
    }

    /// Gives the site of this number an input, if there is such a site, and returns the output. On out of memory the sites
    /// stay as they were.
    pub fn step(
        &mut self,
        alloc: Global,
        number: SiteNo,
        input: &Input,
    ) -> Result<Option<Outs>, NoMemory>
        ensures sites { IfOk result (λ _. self.new
            ≡ spec.sites_after self.old (number - 1) input.now (slice_get self.old (number - 1))) }
        ensures outs { IfOk result (λ outs. outs ≡ spec.outs_of input.now (slice_get self.old (number - 1))) }
        ensures err { OnErr result (self.new ≡ self.old) }
    {
        match self.sites.get_mut(usize::from(number.number() - 1)) {
            Some(site) => Ok(Some(site.step(alloc, input)?)),
            None => Ok(None),
        }
    }

    /// Returns the view of each site.
    pub fn into_views(self, alloc: Global) -> Result<SiteViews, NoMemory>
        ensures { IfOk result (λ views. views ≡ map view_of (enumerate_from 1 (spec.places_of self))) }
    {
        let Sites { sites } = self;
        let mut views = SiteViews::new(alloc);
        let mut before = 0u16;
        for site in sites {
            let Some(number) = SiteNo::new(before + 1) else {
                unreachable!();
            };
            views.push(site_view(alloc, number, site)?)?;
            before += 1;
        }
        Ok(views)
    }
}
