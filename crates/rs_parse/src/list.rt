//! Parsing of lists.

ghost use Rattle.std.specs.Prelude.{◌≡◌};
ghost use Rattle.rs_parse.specs.Read.{Reads, begins, pass_at, suffix_at, separated_at, all_at};
ghost use Rattle.rs_parse.specs.Separator as spec;

use crate::cursor::Cursor;
use rs_base::ReadFault;
use rs_token::Symbol;
use sqlite_items::Items;
use std::alloc::Global;

/// The separator of a list's items.
#[derive(Clone, Copy)]
pub enum Separator {
    Comma,
    And,
    Or,
}

/// An item of a list, with its reader.
pub trait ListItem: Drop {
    ghost use Rattle.std.specs.Prelude.{List};
    ghost use Rattle.rs_token.specs.declared.token.Token.{Token};
    ghost use Rattle.rs_parse.specs.Read.{Read, Reads};

    ghost item_at: { List Token → Read Self };

    fn item(alloc: Global, tokens: &mut Cursor<'_>) -> Result<Self, ReadFault>
        ensures { Reads (item_at tokens.old) result tokens.new };
}

fn begins_with_separator(tokens: &Cursor<'_>, separator: Separator) -> bool
    ensures { result ≡ begins (spec.is_separator separator) tokens.now }
{
    match separator {
        Separator::Comma => tokens.begins_with_symbol(Symbol::Comma),
        Separator::And => tokens.begins_with_word(b"and"),
        Separator::Or => tokens.begins_with_word(b"or"),
    }
}

fn pass(tokens: &mut Cursor<'_>, separator: Separator) -> Result<(), ReadFault>
    ensures { Reads (pass_at (spec.is_separator separator) tokens.old) result tokens.new }
{
    match separator {
        Separator::Comma => tokens.expect_symbol(Symbol::Comma),
        Separator::And => tokens.expect_keyword(b"and"),
        Separator::Or => tokens.expect_keyword(b"or"),
    }
}

fn next_item<T: ListItem>(
    alloc: Global,
    tokens: &mut Cursor<'_>,
    separator: Separator,
) -> Result<T, ReadFault>
    ensures { Reads (suffix_at (spec.is_separator separator) T.item_at tokens.old) result tokens.new }
{
    pass(tokens, separator)?;
    T::item(alloc, tokens)
}

/// Parses one item, and at most `most` others, each after a separator.
pub fn separated_list<T: ListItem>(
    alloc: Global,
    tokens: &mut Cursor<'_>,
    separator: Separator,
    most: usize,
) -> Result<Items<T>, ReadFault>
    ensures { Reads (separated_at (spec.is_separator separator) T.item_at most tokens.old) result tokens.new }
{
    let mut found = Items::new(alloc);
    found.push(T::item(alloc, tokens)?)?;
    for _ in 0..most {
        if !begins_with_separator(tokens, separator) {
            return Ok(found);
        }
        found.push(next_item::<T>(alloc, tokens, separator)?)?;
    }
    Ok(found)
}

/// Parses one item, and any number of others, each after a separator.
pub fn all<T: ListItem>(
    alloc: Global,
    tokens: &mut Cursor<'_>,
    separator: Separator,
) -> Result<Items<T>, ReadFault>
    ensures { Reads (all_at (spec.is_separator separator) T.item_at tokens.old) result tokens.new }
{
    let most = tokens.len();
    separated_list(alloc, tokens, separator, most)
}
