//! Identifiers.

ghost use Rattle.std.specs.Prelude.{◌≡◌, ◌-◌, ◌++◌, ◌≤◌, ◌==◌, length, replicate, map, SomeIff, IsTrue};
ghost use Rattle.std.specs.Char.{to_ascii_lowercase};
ghost use Rattle.std.specs.Cmp.{partial_order_from_own_ties};
ghost use Rattle.std.specs.Cmp.Lexicographic.{pointwise, slice_cmp};
ghost use Rattle.std.specs.Cmp.Rules.{comparing};
ghost use Rattle.std.specs.Ordering.{nat_cmp, as_partial_cmp};
ghost use Rattle.std.proofs.Common.{rules};
ghost use Rattle.rs_base.specs.Ident as spec;

use std::cmp::Ordering;
use std::marker::Model;

/// An identifier: a lower-case ASCII letter and at most 23 lower-case letters, digits or `_`.
///
/// It is a fixed array, so a name takes no heap memory.
#[derive(Clone, Copy)]
pub struct Ident {
    bytes: [u8; 24],
    len: usize,
}

impl Model for Ident {
    ghost use Rattle.std.specs.Prelude.{List, ℕ};
    ghost use Rattle.rs_base.specs.IdentInside.{name_of, IsPadded, inside_of, inside_of-name_of};

    ghost Value = { List ℕ };

    ghost view = { name_of };

    ghost invariant = { IsPadded };

    ghost inverse = { inside_of };

    ghost inverse_ok = { inside_of-name_of };
}

fn is_letter(byte: u8) -> bool
    ensures { result ≡ spec.is_letter byte }
{
    b'a' <= byte && byte <= b'z'
}

/// A lower-case ASCII letter, a digit or `_`.
pub fn is_name_byte(byte: u8) -> bool
    ensures { result ≡ spec.is_name_byte byte }
{
    is_letter(byte) || (b'0' <= byte && byte <= b'9') || byte == b'_'
}

fn are_name_bytes(bytes: &[u8]) -> bool
    ensures { result ≡ spec.are_name_bytes bytes.now }
{
    bytes.iter().all(|byte| is_name_byte(*byte))
}

fn begins_with_letter(bytes: &[u8]) -> bool
    ensures { result ≡ spec.begins_with_letter bytes.now }
{
    match bytes {
        [] => false,
        [first, ..] => is_letter(*first),
    }
}

fn is_ident(bytes: &[u8]) -> bool
    ensures { result ≡ spec.is_ident bytes.now }
{
    bytes.len() <= 24 && begins_with_letter(bytes) && are_name_bytes(bytes)
}

fn padded(text: &[u8]) -> [u8; 24]
    requires { length text.now ≤ 24 }
    ensures { result ≡ text.now ++ replicate (24 - length text.now) 0 }
{
    let mut bytes = [0u8; 24];
    let (prefix, _) = bytes.split_at_mut(text.len());
    prefix.copy_from_slice(text);
    bytes
}

impl Ident {
    /// Returns the identifier of these bytes; `None` exactly if they aren't one.
    pub fn new(bytes: &[u8]) -> Option<Ident>
        ensures { SomeIff result (IsTrue (spec.is_ident bytes.now)) bytes.now }
    {
        if !is_ident(bytes) {
            return None;
        }
        Some(Ident {
            bytes: padded(bytes),
            len: bytes.len(),
        })
    }

    /// Returns the identifier of these bytes in lower case; `None` exactly if they aren't one.
    pub fn lowered(bytes: &[u8]) -> Option<Ident>
        ensures { SomeIff result (IsTrue (spec.is_ident (map to_ascii_lowercase bytes.now))) (map to_ascii_lowercase bytes.now) }
    {
        if 24 < bytes.len() {
            return None;
        }
        let mut lower = padded(bytes);
        let (prefix, _) = lower.split_at_mut(bytes.len());
        prefix.make_ascii_lowercase();
        Ident::new(prefix)
    }

    pub fn as_bytes(&self) -> &[u8]
        ensures bytes { result.now ≡ self.now }
        ensures ident { IsTrue (spec.is_ident self.now) }
    {
        &self.bytes[..self.len]
    }
}

impl PartialEq for Ident {
    ghost eq = { pointwise ◌==◌ };

    ghost laws = { Prim.search (comparing, rules) };

    fn eq(&self, other: &Ident) -> bool {
        self.as_bytes() == other.as_bytes()
    }
}

impl Eq for Ident {
    ghost laws = { Prim.search (comparing, rules) };
}

impl Ord for Ident {
    ghost cmp = { slice_cmp nat_cmp };

    ghost total = { Prim.search (comparing, rules) };

    ghost matches_partial_cmp = { Prim.search (comparing, rules) };

    ghost matches_eq = { Prim.search (comparing, rules) };

    fn cmp(&self, other: &Ident) -> Ordering {
        self.as_bytes().cmp(other.as_bytes())
    }
}

impl PartialOrd for Ident {
    ghost partial_cmp = { as_partial_cmp (slice_cmp nat_cmp) };

    ghost laws = { partial_order_from_own_ties (Prim.search (comparing, rules)) (Prim.search (comparing, rules)) };

    fn partial_cmp(&self, other: &Ident) -> Option<Ordering> {
        Some(self.cmp(other))
    }
}
