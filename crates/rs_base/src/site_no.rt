//! Site numbers.

ghost use Rattle.std.specs.Prelude.{◌≡◌, ◌≤◌, ◌==◌, SomeIff};

use std::marker::Model;

/// A site number, from 1 to 16.
#[derive(Clone, Copy, PartialEq, Eq, PartialOrd, Ord)]
pub struct SiteNo {
    number: u16,
}

impl Model for SiteNo {
    ghost use Rattle.std.specs.Prelude.{ℕ, ◌≤◌};

    ghost Value = { ℕ };

    ghost view = { λ site. site.number };

    ghost invariant = { λ site. (1 ≤ site.number) × (site.number ≤ 16) };

    ghost inverse = { λ n. record { number = n } };
}

impl SiteNo {
    /// Returns the site of this number; `None` exactly if it is 0 or above 16.
    pub fn new(n: u16) -> Option<SiteNo>
        ensures { SomeIff result ((1 ≤ n) × (n ≤ 16)) n }
    {
        if n < 1 || 16 < n {
            return None;
        }
        Some(SiteNo { number: n })
    }

    /// Site 1.
    pub fn first() -> SiteNo
        ensures { result ≡ 1 }
    {
        SiteNo { number: 1 }
    }

    pub fn number(self) -> u16
        ensures value { result ≡ self }
        ensures range { (1 ≤ result) × (result ≤ 16) }
    {
        self.number
    }
}
