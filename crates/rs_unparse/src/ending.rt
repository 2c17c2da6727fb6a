//! Spacing of printed tokens: which ones follow the text before them without a space.

ghost use Rattle.std.specs.Prelude.{◌≡◌};
ghost use Rattle.rs_unparse.specs.Printed as spec;

use rs_token::{Symbol, Token};

/// What a text ends with, as far as it decides the space before the next token.
#[derive(Clone, Copy)]
pub enum Ending {
    /// The text is empty.
    Start,
    /// A symbol that is followed by no space, or a sign.
    Tight,
    /// The name of an aggregate function.
    Function,
    /// Another symbol.
    Symbol,
    /// Another token.
    Other,
}

#[tactic(auto, unfolding(crate::specs::Printed::is_function))]
fn is_function(word: &[u8]) -> bool
    ensures { result ≡ spec.is_function word.now }
{
    word == b"count".as_slice()
        || word == b"sum".as_slice()
        || word == b"min".as_slice()
        || word == b"max".as_slice()
}

#[tactic(auto, unfolding(crate::specs::Printed::closes_up))]
fn closes_up(symbol: Symbol) -> bool
    ensures { result ≡ spec.closes_up symbol }
{
    match symbol {
        Symbol::Close | Symbol::Comma | Symbol::Dot | Symbol::Semicolon | Symbol::At => true,
        _ => false,
    }
}

#[tactic(auto, unfolding(crate::specs::Printed::token_closes_up))]
fn token_closes_up(token: &Token) -> bool
    ensures { result ≡ spec.token_closes_up token.now }
{
    match token {
        Token::Word(_) => false,
        Token::Number(_) => false,
        Token::Text(_) => false,
        Token::Symbol(symbol) => closes_up(*symbol),
    }
}

impl Ending {
    #[tactic(auto, unfolding(crate::specs::Printed::ending_minus))]
    fn minus(self) -> Ending
        ensures { result ≡ spec.ending_minus self }
    {
        match self {
            Ending::Start => Ending::Tight,
            Ending::Tight => Ending::Tight,
            Ending::Function => Ending::Symbol,
            Ending::Symbol => Ending::Tight,
            Ending::Other => Ending::Symbol,
        }
    }

    #[tactic(auto, unfolding(crate::specs::Printed::ending_symbol))]
    fn symbol(self, symbol: Symbol) -> Ending
        ensures { result ≡ spec.ending_symbol self symbol }
    {
        match symbol {
            Symbol::Open | Symbol::Dot | Symbol::At | Symbol::Colon => Ending::Tight,
            Symbol::Minus => self.minus(),
            _ => Ending::Symbol,
        }
    }

    /// Returns what the text ends with after `token` is appended.
    #[tactic(auto, unfolding(crate::specs::Printed::ending_after))]
    pub fn after(self, token: &Token) -> Ending
        ensures { result ≡ spec.ending_after self token.now }
    {
        match token {
            Token::Word(word) => {
                if is_function(word.as_bytes()) {
                    Ending::Function
                } else {
                    Ending::Other
                }
            }
            Token::Number(_) => Ending::Other,
            Token::Text(_) => Ending::Other,
            Token::Symbol(symbol) => self.symbol(*symbol),
        }
    }

    /// Returns whether `token` follows without a space.
    #[tactic(auto, unfolding(crate::specs::Printed::touches))]
    pub fn touches(self, token: &Token) -> bool
        ensures { result ≡ spec.touches self token.now }
    {
        match self {
            Ending::Start => true,
            Ending::Tight => true,
            Ending::Function => token.is_symbol(Symbol::Open) || token_closes_up(token),
            Ending::Symbol => token_closes_up(token),
            Ending::Other => token_closes_up(token),
        }
    }
}
