//! The words of a line, read one after the other.

use rs_base::{Enlist, Ident, Origin, SiteNo, Swn, Txn};
use rs_name::parse_swn;

/// The words that are left, separated by one separator each, and whether one of those before was not of its kind.
#[derive(Drop)]
pub struct Words<'a> {
    left: &'a str,
    separator: char,
    malformed: bool,
}

/// Gives the identifier that stands for a word that is none.
fn any() -> Ident {
    match Ident::new(b"any") {
        Some(ident) => ident,
        None => unreachable!(),
    }
}

impl<'a> Words<'a> {
    /// Returns the words of a line, which blanks separate.
    pub fn new(line: &'a str) -> Words<'a> {
        Words::separated(line, ' ')
    }

    /// Returns the words of a line.
    pub fn separated(line: &'a str, separator: char) -> Words<'a> {
        Words {
            left: line,
            separator,
            malformed: false,
        }
    }

    /// Gives what is left of the line.
    pub fn rest(&self) -> &'a str {
        self.left
    }

    /// Keeps that the line is not of its form.
    pub fn refuse(&mut self) {
        self.malformed = true;
    }

    /// Keeps whether the words of a part of the line were of their kinds.
    pub fn include(&mut self, part: &Words<'_>) {
        self.malformed = self.malformed || part.malformed;
    }

    /// Reports whether the line is not of its form.
    pub fn is_refused(&self) -> bool {
        self.malformed
    }

    /// Gives a note that the line is not of its form, or nothing.
    pub fn note(&self) -> &'static str {
        if self.malformed {
            "(a line that is not read)"
        } else {
            ""
        }
    }

    /// Reads the next word, which is empty at the end.
    pub fn next(&mut self) -> &'a str {
        let (word, rest) = self
            .left
            .split_once(self.separator)
            .unwrap_or((self.left, ""));
        self.left = rest;
        word
    }

    /// Reads a number.
    pub fn number(&mut self) -> u64 {
        let number = self.next().parse().ok();
        self.malformed = self.malformed || number.is_none();
        number.unwrap_or(0)
    }

    /// Reads a number of 32 bits.
    pub fn small(&mut self) -> u32 {
        let number = self.next().parse().ok();
        self.malformed = self.malformed || number.is_none();
        number.unwrap_or(0)
    }

    /// Reads a number of 16 bits.
    pub fn short(&mut self) -> u16 {
        let number = self.next().parse().ok();
        self.malformed = self.malformed || number.is_none();
        number.unwrap_or(0)
    }

    /// Reads a number of 8 bits.
    pub fn byte(&mut self) -> u8 {
        let number = self.next().parse().ok();
        self.malformed = self.malformed || number.is_none();
        number.unwrap_or(0)
    }

    /// Reads an integer.
    pub fn integer(&mut self) -> i64 {
        let integer = self.next().parse().ok();
        self.malformed = self.malformed || integer.is_none();
        integer.unwrap_or(0)
    }

    /// Reads a site, or `None` for a word that is none.
    pub fn any_site(&mut self) -> Option<SiteNo> {
        SiteNo::new(self.next().parse().unwrap_or(0))
    }

    /// Reads a site.
    pub fn site(&mut self) -> SiteNo {
        let site = self.any_site();
        self.malformed = self.malformed || site.is_none();
        site.unwrap_or(SiteNo::first())
    }

    /// Reads an identifier, or `None` for a word that is none.
    pub fn any_ident(&mut self) -> Option<Ident> {
        Ident::new(self.next().as_bytes())
    }

    /// Reads an identifier.
    pub fn ident(&mut self) -> Ident {
        let ident = self.any_ident();
        self.malformed = self.malformed || ident.is_none();
        ident.unwrap_or(any())
    }

    /// Reads `SITE USER EPOCH NUMBER`.
    pub fn origin(&mut self) -> Origin {
        Origin {
            site: self.site(),
            user: self.ident(),
            epoch: self.small(),
            number: self.number(),
        }
    }

    /// Reads `SITE EPOCH NUMBER`.
    pub fn txn(&mut self) -> Txn {
        Txn {
            site: self.site(),
            epoch: self.small(),
            number: self.number(),
        }
    }

    /// Reads `SITE EPOCH NUMBER`.
    pub fn enlist(&mut self) -> Enlist {
        Enlist {
            site: self.site(),
            epoch: self.small(),
            number: self.number(),
        }
    }

    /// Reads a system-wide name as it is printed.
    pub fn name(&mut self) -> Swn {
        let name = parse_swn(self.next().as_bytes());
        self.malformed = self.malformed || name.is_none();
        name.unwrap_or(Swn {
            creator: any(),
            creator_site: SiteNo::first(),
            object: any(),
            birth: SiteNo::first(),
        })
    }

    /// Reads `CREATOR SITE OBJECT SITE`.
    pub fn swn(&mut self) -> Swn {
        Swn {
            creator: self.ident(),
            creator_site: self.site(),
            object: self.ident(),
            birth: self.site(),
        }
    }
}
