//! A cursor over a text, and the readers of tokens.

ghost use Rattle.std.specs.Prelude.{◌≡◌, ◌≤◌, length, drop, if◌then◌else◌};
ghost use Rattle.std.specs.List.{prefix_len};
ghost use Rattle.rs_base.specs.Reading.{Reads};
ghost use Rattle.rs_token.specs.Tokens as spec;
ghost use Rattle.rs_token.specs.Scanning.{token_here, Steps};

use crate::span::{blanks, is_digit, is_letter, number_len, word_len};
use crate::token::{Symbol, Token};
use rs_base::{Bytes, Ident, NoMemory, ReadFault, Txt, TxtFault};
use std::alloc::Global;
use std::marker::Model;

/// A cursor over a text: the bytes that are still to be read.
#[derive(Drop)]
pub struct Scanner<'a> {
    left: &'a [u8],
}

impl<'a> Model for Scanner<'a> {
    ghost use Rattle.std.specs.Prelude.{List, ℕ};

    ghost Value = { List ℕ };

    ghost view = { λ scanner. scanner.left.now };
}

fn digits_value(digits: &[u8]) -> u128
    requires { length digits.now ≤ 19 }
    ensures { result ≡ spec.digits_value digits.now }
{
    let mut value = 0u128;
    for digit in digits {
        value = 10 * value + u128::from(digit.saturating_sub(b'0'));
    }
    value
}

impl<'a> Scanner<'a> {
    pub fn new(text: &'a [u8]) -> Scanner<'a>
        ensures { result ≡ text.now }
    {
        Scanner { left: text }
    }

    /// Returns the number of bytes that are still to be read.
    pub fn len(&self) -> usize
        ensures { result ≡ length self.now }
    {
        self.left.len()
    }

    pub fn skip_blanks(&mut self)
        ensures { self.new ≡ drop (prefix_len spec.is_blank self.old) self.old }
    {
        let (_, rest) = self.left.split_at(blanks(self.left));
        self.left = rest;
    }

    #[tactic(auto, unfolding(crate::specs::Tokens::word_at))]
    fn word(&mut self) -> Result<Token, ReadFault>
        ensures { Reads (spec.word_at self.old) result self.new }
    {
        let (word, rest) = self.left.split_at(word_len(self.left));
        let Some(word) = Ident::lowered(word) else {
            return Err(ReadFault::Malformed);
        };
        self.left = rest;
        Ok(Token::Word(word))
    }

    #[tactic(auto, unfolding(crate::specs::Tokens::number_at))]
    fn number(&mut self) -> Result<Token, ReadFault>
        ensures { Reads (spec.number_at self.old) result self.new }
    {
        let len = number_len(self.left);
        if 19 < len {
            return Err(ReadFault::Malformed);
        }
        let (digits, rest) = self.left.split_at(len);
        let value = digits_value(digits);
        if 9223372036854775807 < value {
            return Err(ReadFault::Malformed);
        }
        self.left = rest;
        Ok(Token::Number(value as u64))
    }

    /// Reads the bytes up to the closing quote, with each doubled quote as one.
    fn quoted(&mut self, alloc: Global) -> Result<Bytes, ReadFault>
        ensures { Reads (spec.quoted_at self.old) result self.new }
    {
        let mut found = Bytes::new(alloc);
        loop {
            match self.left {
                [] => return Err(ReadFault::Malformed),
                [b'\'', b'\'', rest @ ..] => {
                    self.left = rest;
                    found.push(b'\'')?;
                }
                [b'\'', rest @ ..] => {
                    self.left = rest;
                    return Ok(found);
                }
                [byte, rest @ ..] => {
                    self.left = rest;
                    found.push(*byte)?;
                }
            }
        }
    }

    /// Reads a text literal, after its opening quote.
    #[tactic(auto, unfolding(crate::specs::Tokens::text_at))]
    fn text(&mut self, alloc: Global) -> Result<Token, ReadFault>
        ensures { Reads (spec.text_at self.old) result self.new }
    {
        let quoted = self.quoted(alloc)?;
        match Txt::new(alloc, quoted.as_slice()) {
            Ok(text) => Ok(Token::Text(text)),
            Err(TxtFault::Bad) => Err(ReadFault::Malformed),
            Err(TxtFault::NoMemory) => Err(ReadFault::NoMemory),
        }
    }

    /// Consumes this byte if it is next, and returns whether it was.
    fn eat(&mut self, byte: u8) -> bool
        ensures eaten { result ≡ spec.begins_with byte self.old }
        ensures left { self.new ≡ (if result then drop 1 self.old else self.old) }
    {
        if let [first, rest @ ..] = self.left {
            if *first == byte {
                self.left = rest;
                return true;
            }
        }
        false
    }

    /// Reads a symbol, after its first byte.
    #[tactic(auto, unfolding(crate::specs::Tokens::symbol_at))]
    fn symbol(&mut self, first: u8) -> Result<Symbol, ReadFault>
        ensures { Reads (spec.symbol_at first self.old) result self.new }
    {
        match first {
            b'(' => Ok(Symbol::Open),
            b')' => Ok(Symbol::Close),
            b',' => Ok(Symbol::Comma),
            b'.' => Ok(Symbol::Dot),
            b';' => Ok(Symbol::Semicolon),
            b'@' => Ok(Symbol::At),
            b'*' => Ok(Symbol::Star),
            b':' => Ok(Symbol::Colon),
            b'+' => Ok(Symbol::Plus),
            b'-' => Ok(Symbol::Minus),
            b'=' => Ok(Symbol::Equal),
            b'<' if self.eat(b'>') => Ok(Symbol::NotEqual),
            b'<' if self.eat(b'=') => Ok(Symbol::LessOrEqual),
            b'<' => Ok(Symbol::Less),
            b'>' if self.eat(b'=') => Ok(Symbol::GreaterOrEqual),
            b'>' => Ok(Symbol::Greater),
            _ => Err(ReadFault::Malformed),
        }
    }

    #[tactic(auto, unfolding(crate::specs::Scanning::token_here, crate::specs::Tokens::token_at))]
    fn token(&mut self, alloc: Global) -> Result<Token, ReadFault>
        ensures { Reads (token_here self.old) result self.new }
    {
        let [first, rest @ ..] = self.left else {
            return Err(ReadFault::Malformed);
        };
        let first = *first;
        if is_letter(first) {
            return self.word();
        }
        if is_digit(first) {
            return self.number();
        }
        self.left = rest;
        if first == b'\'' {
            return self.text(alloc);
        }
        Ok(Token::Symbol(self.symbol(first)?))
    }

    /// Reads the next token, or returns `None` if no token begins here.
    pub fn next(&mut self, alloc: Global) -> Result<Option<Token>, NoMemory>
        ensures { Steps result self.old self.new }
    {
        match self.token(alloc) {
            Ok(token) => Ok(Some(token)),
            Err(ReadFault::Malformed) => Ok(None),
            Err(ReadFault::NoMemory) => Err(NoMemory),
        }
    }
}
