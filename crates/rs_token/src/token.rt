//! The tokens of statements.

ghost use Rattle.std.specs.Prelude.{◌≡◌, IfOk};
ghost use Rattle.rs_token.specs.Token as spec;

use rs_base::{Ident, NoMemory, Txt};
use sqlite_items::Items;
use std::alloc::Global;

/// A symbol of one or two characters.
#[derive(Clone, Copy)]
pub enum Symbol {
    Open,
    Close,
    Comma,
    Dot,
    Semicolon,
    At,
    Star,
    Colon,
    Plus,
    Minus,
    Equal,
    NotEqual,
    Less,
    LessOrEqual,
    Greater,
    GreaterOrEqual,
}

/// A token: a word in lower case, a number, a text literal without its quotes, or a symbol.
#[derive(Drop)]
pub enum Token {
    Word(Ident),
    Number(u64),
    Text(Txt),
    Symbol(Symbol),
}

/// A list of tokens.
pub type Tokens = Items<Token>;

#[tactic(auto, unfolding(crate::specs::Token::same_symbol))]
fn same_symbol(symbol: Symbol, other: Symbol) -> bool
    ensures { result ≡ spec.same_symbol symbol other }
{
    symbol == other
}

impl Token {
    /// Returns whether the token is this symbol.
    pub fn is_symbol(&self, symbol: Symbol) -> bool
        ensures { result ≡ spec.is_symbol symbol self.now }
    {
        match self {
            Token::Word(_) => false,
            Token::Number(_) => false,
            Token::Text(_) => false,
            Token::Symbol(other) => same_symbol(*other, symbol),
        }
    }

    /// Returns whether the token is this word, which is given in lower case.
    pub fn is_word(&self, word: &[u8]) -> bool
        ensures { result ≡ spec.is_word word.now self.now }
    {
        match self {
            Token::Word(other) => other.as_bytes() == word,
            Token::Number(_) => false,
            Token::Text(_) => false,
            Token::Symbol(_) => false,
        }
    }

    /// Copies the token. Fails if an allocation fails.
    pub fn copy(&self, alloc: Global) -> Result<Token, NoMemory>
        ensures { IfOk result (λ token. token ≡ self.now) }
    {
        match self {
            Token::Word(word) => Ok(Token::Word(*word)),
            Token::Number(n) => Ok(Token::Number(*n)),
            Token::Text(text) => Ok(Token::Text(text.copy(alloc)?)),
            Token::Symbol(symbol) => Ok(Token::Symbol(*symbol)),
        }
    }
}
