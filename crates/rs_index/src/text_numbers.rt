//! The row numbers of texts.

ghost use Rattle.std.specs.Prelude.{◌≡◌, [], ◌∷◌, None, IfOk, OnOk, OnErr, ◌≢◌};
ghost use Rattle.std.specs.List.{list_any};
ghost use Rattle.std.specs.BTreeMap.{get, is_at};
ghost use Rattle.std.specs.BTreeSet.{insert_key};
ghost use Rattle.std.specs.Set.{remove_key};
ghost use Rattle.rs_index.specs.TextPairs.{pair_numbers, text_cmp, text_pair_cmp, text_pairs, text_range};

use crate::bounds::bounds_of;
use crate::text_iter::TextIter;
use rs_ast::Op;
use rs_base::{NoMemory, Txt};
use std::alloc::Global;
use std::collections::{BTreeMap, BTreeSet};
use std::marker::Model;

/// The row numbers of each text. Seen as the pairs of a text and a number, rising by text and then by number.
#[derive(Drop)]
pub(crate) struct TextNumbers {
    alloc: Global,
    sets: BTreeMap<Txt, BTreeSet<u64>>,
}

impl Model for TextNumbers {
    ghost use Rattle.std.specs.Prelude.{List, ℕ};
    ghost use Rattle.rs_index.specs.TextPairs.{text_pairs};

    ghost Value = { List (List ℕ × ℕ) };

    ghost view = { λ it. text_pairs it.sets.entries };
}

/// Makes the set of this number alone.
fn one_number(alloc: Global, number: u64) -> Result<BTreeSet<u64>, NoMemory>
    ensures { IfOk result (λ set. set.keys ≡ number ∷ []) }
{
    let mut set = BTreeSet::new(alloc);
    set.insert(number)?;
    Ok(set)
}

/// Adds a text that isn't there, with this number.
fn add_text(
    alloc: Global,
    sets: &mut BTreeMap<Txt, BTreeSet<u64>>,
    text: &Txt,
    number: u64,
) -> Result<(), NoMemory>
    requires { get text_cmp sets.old text.now ≡ None }
    ensures ok { OnOk result (text_pairs sets.new.entries
        ≡ insert_key text_pair_cmp (text_pairs sets.old.entries) (text.now, number)) }
    ensures err { OnErr result (sets.new.entries ≡ sets.old.entries) }
{
    let set = one_number(alloc, number)?;
    sets.insert(text.copy(alloc)?, set)?;
    Ok(())
}

fn add_number(
    alloc: Global,
    sets: &mut BTreeMap<Txt, BTreeSet<u64>>,
    text: &Txt,
    number: u64,
) -> Result<(), NoMemory>
    ensures ok { OnOk result (text_pairs sets.new.entries
        ≡ insert_key text_pair_cmp (text_pairs sets.old.entries) (text.now, number)) }
    ensures err { OnErr result (text_pairs sets.new.entries ≡ text_pairs sets.old.entries) }
{
    match sets.get_mut(text) {
        Some(set) => {
            set.insert(number)?;
            Ok(())
        }
        None => add_text(alloc, sets, text, number),
    }
}

fn drop_number(sets: &mut BTreeMap<Txt, BTreeSet<u64>>, text: &Txt, number: u64) -> bool
    ensures test { result
        ≡ list_any (is_at (text_pair_cmp (text.now, number))) (text_pairs sets.old.entries) }
    ensures pairs { text_pairs sets.new.entries
        ≡ remove_key (is_at (text_pair_cmp (text.now, number))) (text_pairs sets.old.entries) }
{
    match sets.get_mut(text) {
        Some(set) => {
            let was_there = set.remove(&number);
            if set.is_empty() {
                let _ = sets.remove(text);
            }
            was_there
        }
        None => false,
    }
}

impl TextNumbers {
    pub(crate) fn new(alloc: Global) -> TextNumbers
        ensures { result ≡ [] }
    {
        TextNumbers {
            alloc,
            sets: BTreeMap::new(alloc),
        }
    }

    /// Adds the number to those of the text. On out of memory nothing changes.
    pub(crate) fn add(&mut self, text: &Txt, number: u64) -> Result<(), NoMemory>
        ensures ok { OnOk result (self.new ≡ insert_key text_pair_cmp self.old (text.now, number)) }
        ensures err { OnErr result (self.new ≡ self.old) }
    {
        add_number(self.alloc, &mut self.sets, text, number)
    }

    /// Takes the number from those of the text. Returns whether it was there.
    pub(crate) fn drop_row(&mut self, text: &Txt, number: u64) -> bool
        ensures test { result ≡ list_any (is_at (text_pair_cmp (text.now, number))) self.old }
        ensures pairs { self.new ≡ remove_key (is_at (text_pair_cmp (text.now, number))) self.old }
    {
        drop_number(&mut self.sets, text, number)
    }

    /// Returns the numbers of all texts.
    pub(crate) fn all(&self) -> TextIter<'_>
        ensures { result ≡ pair_numbers self.now }
    {
        TextIter::new(self.sets.range(..))
    }

    /// Returns the numbers whose text satisfies the comparison. The operator isn't `<>`.
    pub(crate) fn range(&self, op: Op, text: &Txt) -> TextIter<'_>
        requires { op ≢ Op.Ne }
        ensures { result ≡ text_range op text.now self.now }
    {
        TextIter::new(self.sets.range(bounds_of(op, text, text)))
    }
}
