//! Reading of an event's fields, after its keyword.

ghost use Rattle.rs_base.specs.Reading.{Gives};
ghost use Rattle.rs_sched.specs.Reader as spec;

use crate::event::Event;
use crate::fields::Fields;
use rs_base::{ReadFault, SiteNo};
use std::alloc::Global;

#[tactic(auto, unfolding(crate::specs::Reader::sites_at))]
pub fn sites(fields: &mut Fields<'_>) -> Result<Event, ReadFault>
    ensures { Gives (λ event. event) result (spec.sites_at fields.old) }
{
    let number = fields.number(1, 16)?;
    let Some(last) = SiteNo::new(number as u16) else {
        return Err(ReadFault::Malformed);
    };
    fields.end()?;
    Ok(Event::Sites(last))
}

#[tactic(auto, unfolding(crate::specs::Reader::deliver_at))]
pub fn deliver(fields: &mut Fields<'_>) -> Result<Event, ReadFault>
    ensures { Gives (λ event. event) result (spec.deliver_at fields.old) }
{
    let datagram = fields.number(0, u64::MAX)?;
    fields.end()?;
    Ok(Event::Deliver(datagram))
}

#[tactic(auto, unfolding(crate::specs::Reader::lose_at))]
pub fn lose(fields: &mut Fields<'_>) -> Result<Event, ReadFault>
    ensures { Gives (λ event. event) result (spec.lose_at fields.old) }
{
    let datagram = fields.number(0, u64::MAX)?;
    fields.end()?;
    Ok(Event::Lose(datagram))
}

#[tactic(auto, unfolding(crate::specs::Reader::tick_at))]
pub fn tick(sites: SiteNo, fields: &mut Fields<'_>) -> Result<Event, ReadFault>
    ensures { Gives (λ event. event) result (spec.tick_at sites fields.old) }
{
    let site = fields.site(sites)?;
    let ticks = fields.number(1, 1000)? as u32;
    fields.end()?;
    Ok(Event::Tick(site, ticks))
}

#[tactic(auto, unfolding(crate::specs::Reader::stop_at))]
pub fn stop(sites: SiteNo, fields: &mut Fields<'_>) -> Result<Event, ReadFault>
    ensures { Gives (λ event. event) result (spec.stop_at sites fields.old) }
{
    let site = fields.site(sites)?;
    let writes = fields.number(0, u64::MAX)?;
    let bytes = fields.number(0, u64::MAX)?;
    fields.end()?;
    Ok(Event::Stop(site, writes, bytes))
}

#[tactic(auto, unfolding(crate::specs::Reader::arm_at))]
pub fn arm(sites: SiteNo, fields: &mut Fields<'_>) -> Result<Event, ReadFault>
    ensures { Gives (λ event. event) result (spec.arm_at sites fields.old) }
{
    let site = fields.site(sites)?;
    let call = fields.number(1, u64::MAX)?;
    let writes = fields.number(0, u64::MAX)?;
    let bytes = fields.number(0, u64::MAX)?;
    fields.end()?;
    Ok(Event::Arm(site, call, writes, bytes))
}

#[tactic(auto, unfolding(crate::specs::Reader::restart_at))]
pub fn restart(sites: SiteNo, fields: &mut Fields<'_>) -> Result<Event, ReadFault>
    ensures { Gives (λ event. event) result (spec.restart_at sites fields.old) }
{
    let site = fields.site(sites)?;
    fields.end()?;
    Ok(Event::Restart(site))
}

#[tactic(auto, unfolding(crate::specs::Reader::settle_at))]
pub fn settle(fields: &mut Fields<'_>) -> Result<Event, ReadFault>
    ensures { Gives (λ event. event) result (spec.settle_at fields.old) }
{
    if fields.is_empty() {
        return Ok(Event::Settle(None));
    }
    let count = fields.number(0, u64::MAX)?;
    fields.end()?;
    Ok(Event::Settle(Some(count)))
}

#[tactic(auto, unfolding(crate::specs::Reader::noise_at))]
pub fn noise(alloc: Global, sites: SiteNo, fields: &mut Fields<'_>) -> Result<Event, ReadFault>
    ensures { Gives (λ event. event) result (spec.noise_at sites fields.old) }
{
    let site = fields.site(sites)?;
    let bytes = fields.noise(alloc)?;
    fields.end()?;
    Ok(Event::Noise(site, bytes))
}
