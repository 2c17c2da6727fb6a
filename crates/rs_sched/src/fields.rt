//! A cursor over the fields of a line, each after one space.

ghost use Rattle.std.specs.Prelude.{◌≡◌, ◌≤◌, [], length, IfOk};
ghost use Rattle.std.specs.List.{prefix_len};
ghost use Rattle.rs_base.specs.Reading.{Reads, Passes};
ghost use Rattle.rs_sched.specs.Reader as spec;

use crate::hex::noise_of;
use crate::number::number_of;
use rs_base::{Bytes, Ident, Origin, ReadFault, SiteNo};
use std::alloc::Global;
use std::marker::Model;

/// The bytes of a line that are still to be read.
#[derive(Drop)]
pub struct Fields<'a> {
    left: &'a [u8],
}

impl<'a> Model for Fields<'a> {
    ghost use Rattle.std.specs.Prelude.{List, ℕ};

    ghost Value = { List ℕ };

    ghost view = { λ fields. fields.left.now };
}

/// Returns the number of bytes before the first space.
pub fn field_len(bytes: &[u8]) -> usize
    ensures value { result ≡ spec.field_len bytes.now }
    ensures within { result ≤ length bytes.now }
{
    bytes.iter().take_while(|byte| **byte != b' ').count()
}

impl<'a> Fields<'a> {
    pub fn new(bytes: &'a [u8]) -> Fields<'a>
        ensures { result ≡ bytes.now }
    {
        Fields { left: bytes }
    }

    /// Returns whether no byte is left.
    pub fn is_empty(&self) -> bool
        ensures { result ≡ spec.is_end self.now }
    {
        match self.left {
            [] => true,
            [_, ..] => false,
        }
    }

    /// Skips the space before a field.
    pub fn space(&mut self) -> Result<(), ReadFault>
        ensures { Passes (spec.space_at self.old) result self.new }
    {
        let [first, rest @ ..] = self.left else {
            return Err(ReadFault::Malformed);
        };
        if *first != b' ' {
            return Err(ReadFault::Malformed);
        }
        self.left = rest;
        Ok(())
    }

    /// Checks that the line ends here.
    pub fn end(&mut self) -> Result<(), ReadFault>
        ensures { Passes (spec.end_at self.old) result self.new }
    {
        match self.left {
            [] => Ok(()),
            [_, ..] => Err(ReadFault::Malformed),
        }
    }

    /// Reads a decimal number from `low` to `high`.
    #[tactic(auto, unfolding(crate::specs::Reader::number_at))]
    pub fn number(&mut self, low: u64, high: u64) -> Result<u64, ReadFault>
        ensures number { Reads (spec.number_at low high self.old) result self.new }
        ensures within { IfOk result (λ number. (low ≤ number) × (number ≤ high)) }
    {
        self.space()?;
        let (field, rest) = self.left.split_at(field_len(self.left));
        let Some(number) = number_of(field) else {
            return Err(ReadFault::Malformed);
        };
        if low <= number && number <= high {
            self.left = rest;
            Ok(number)
        } else {
            Err(ReadFault::Malformed)
        }
    }

    /// Reads a site number, from 1 to `sites`.
    pub fn site(&mut self, sites: SiteNo) -> Result<SiteNo, ReadFault>
        ensures { Reads (spec.number_at 1 sites self.old) result self.new }
    {
        let number = self.number(1, u64::from(sites.number()))?;
        match SiteNo::new(number as u16) {
            Some(site) => Ok(site),
            None => Err(ReadFault::Malformed),
        }
    }

    #[tactic(auto, unfolding(crate::specs::Reader::user_at))]
    fn user(&mut self) -> Result<Ident, ReadFault>
        ensures { Reads (spec.user_at self.old) result self.new }
    {
        self.space()?;
        let (field, rest) = self.left.split_at(field_len(self.left));
        let Some(user) = Ident::new(field) else {
            return Err(ReadFault::Malformed);
        };
        self.left = rest;
        Ok(user)
    }

    /// Reads bytes in hexadecimal.
    #[tactic(auto, unfolding(crate::specs::Reader::noise_bytes_at))]
    pub fn noise(&mut self, alloc: Global) -> Result<Bytes, ReadFault>
        ensures { Reads (spec.noise_bytes_at self.old) result self.new }
    {
        self.space()?;
        let (field, rest) = self.left.split_at(field_len(self.left));
        let noise = noise_of(alloc, field)?;
        self.left = rest;
        Ok(noise)
    }

    /// Reads the origin of an ask, and the space before its text.
    #[tactic(auto, unfolding(crate::specs::Reader::origin_at))]
    pub fn origin(&mut self, sites: SiteNo) -> Result<Origin, ReadFault>
        ensures { Reads (spec.origin_at sites self.old) result self.new }
    {
        let site = self.site(sites)?;
        let user = self.user()?;
        let epoch = self.number(0, 4294967295)? as u32;
        let number = self.number(0, u64::MAX)?;
        self.space()?;
        Ok(Origin {
            site,
            user,
            epoch,
            number,
        })
    }

    /// Returns the rest of the line.
    pub fn rest(&self) -> &'a [u8]
        ensures { result.now ≡ self.now }
    {
        self.left
    }
}
