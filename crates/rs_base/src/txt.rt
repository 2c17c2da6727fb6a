//! Text values.

ghost use Rattle.std.specs.Prelude.{◌≡◌, ◌↔◌, ◌==◌, IsTrue, IsFalse, IfOk, IsErrOf};
ghost use Rattle.std.specs.Cmp.{partial_order_from_own_ties};
ghost use Rattle.std.specs.Cmp.Lexicographic.{pointwise, slice_cmp};
ghost use Rattle.std.specs.Cmp.Rules.{comparing};
ghost use Rattle.std.specs.Ordering.{nat_cmp, as_partial_cmp};
ghost use Rattle.std.proofs.Common.{rules};
ghost use Rattle.rs_base.specs.Txt as spec;

use crate::fault::NoMemory;
use std::alloc::Global;
use std::cmp::Ordering;
use std::marker::Model;
use thiserror::Error;

/// A text value: at most 255 bytes of UTF-8 without control characters (bytes below 0x20, and 0x7F). It is one pointer
/// to the heap, so that a value, an integer or a text, takes two machine words and not four: tables hold many integers.
#[derive(Drop)]
pub struct Txt {
    bytes: Box<Vec<u8>>,
}

impl Model for Txt {
    ghost use Rattle.std.specs.Prelude.{List, ℕ, IsTrue};
    ghost use Rattle.rs_base.specs.Txt.{is_txt};

    ghost Value = { List ℕ };

    ghost view = { λ text. text.bytes.value.items };

    ghost invariant = { λ text. IsTrue (is_txt text.bytes.value.items) };
}

/// Why bytes aren't a text value.
#[derive(Clone, Copy, Debug, PartialEq, Eq, Error)]
pub enum TxtFault {
    #[error("no text value has these bytes")]
    Bad,
    #[error("out of memory")]
    NoMemory,
}

fn is_text_byte(byte: u8) -> bool
    ensures { result ≡ spec.is_text_byte byte }
{
    0x20 <= byte && byte != 0x7F
}

fn are_text_bytes(bytes: &[u8]) -> bool
    ensures { result ≡ spec.are_text_bytes bytes.now }
{
    bytes.iter().all(|byte| is_text_byte(*byte))
}

/// Returns whether these bytes are UTF-8.
pub fn is_utf8(bytes: &[u8]) -> bool
    ensures { result ≡ spec.is_utf8 bytes.now }
{
    match std::str::from_utf8(bytes) {
        Ok(_) => true,
        Err(_) => false,
    }
}

fn is_txt(bytes: &[u8]) -> bool
    ensures { result ≡ spec.is_txt bytes.now }
{
    bytes.len() <= 255 && is_utf8(bytes) && are_text_bytes(bytes)
}

/// Copies these bytes to the heap.
fn boxed(alloc: Global, bytes: &[u8]) -> Result<Box<Vec<u8>>, NoMemory>
    ensures { IfOk result (λ held. held.value.items ≡ bytes.now) }
{
    let bytes = Vec::from_slice(alloc, bytes)?;
    Ok(Box::new(alloc, bytes)?)
}

impl Txt {
    /// Makes a text value of these bytes.
    pub fn new(alloc: Global, bytes: &[u8]) -> Result<Txt, TxtFault>
        ensures text { IfOk result (λ text. text ≡ bytes.now) }
        ensures bad { IsErrOf result TxtFault.Bad ↔ IsFalse (spec.is_txt bytes.now) }
    {
        if !is_txt(bytes) {
            return Err(TxtFault::Bad);
        }
        match boxed(alloc, bytes) {
            Ok(bytes) => Ok(Txt { bytes }),
            Err(_) => Err(TxtFault::NoMemory),
        }
    }

    pub fn as_bytes(&self) -> &[u8]
        ensures value { result.now ≡ self.now }
        ensures text { IsTrue (spec.is_txt result.now) }
    {
        self.bytes.as_slice()
    }

    pub fn copy(&self, alloc: Global) -> Result<Txt, NoMemory>
        ensures { IfOk result (λ text. text ≡ self.now) }
    {
        let bytes = boxed(alloc, self.as_bytes())?;
        Ok(Txt { bytes })
    }
}

impl PartialEq for Txt {
    ghost eq = { pointwise ◌==◌ };

    ghost laws = { Prim.search (comparing, rules) };

    fn eq(&self, other: &Txt) -> bool {
        self.as_bytes() == other.as_bytes()
    }
}

impl Eq for Txt {
    ghost laws = { Prim.search (comparing, rules) };
}

impl Ord for Txt {
    ghost cmp = { slice_cmp nat_cmp };

    ghost total = { Prim.search (comparing, rules) };

    ghost matches_partial_cmp = { Prim.search (comparing, rules) };

    ghost matches_eq = { Prim.search (comparing, rules) };

    fn cmp(&self, other: &Txt) -> Ordering {
        self.as_bytes().cmp(other.as_bytes())
    }
}

impl PartialOrd for Txt {
    ghost partial_cmp = { as_partial_cmp (slice_cmp nat_cmp) };

    ghost laws = { partial_order_from_own_ties (Prim.search (comparing, rules)) (Prim.search (comparing, rules)) };

    fn partial_cmp(&self, other: &Txt) -> Option<Ordering> {
        Some(self.cmp(other))
    }
}
