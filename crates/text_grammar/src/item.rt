//! The items of a text: its tokens, with their places.
//!
//! Both languages have the same items. Each lexer makes those of its language; a reader takes them one by one.

ghost use Rattle.std.specs.Prelude.{◌≡◌};
ghost use Rattle.text_grammar.specs.Part.{kind_of_token};
ghost use Rattle.text_grammar.specs.Terminals as t;

use crate::fault::{Form, Kind};
use crate::tokens::same;
use tb_base::{Name, Place};

/// The symbols of both languages. Each language takes some of them.
#[derive(Clone, Copy, Debug, PartialEq, Eq)]
pub enum Symbol {
    /// `<=`
    LessEqual,
    /// `=>`
    Arrow,
    /// `<-`
    LeftArrow,
    /// `<`
    Less,
    /// `>`
    Greater,
    /// `(`
    OpenParen,
    /// `)`
    CloseParen,
    /// `[`
    OpenBracket,
    /// `]`
    CloseBracket,
    /// `{`
    OpenBrace,
    /// `{|`, which begins the type of an enumeration.
    OpenEnumeration,
    /// `}`
    CloseBrace,
    /// `:`
    Colon,
    /// `,`
    Comma,
    /// `.`
    Dot,
    /// `=`
    Equal,
    /// `-`
    Minus,
    /// `%`
    Percent,
    /// The end of a logical line.
    LineEnd,
    /// `==`
    EqualEqual,
    /// `!=`
    NotEqual,
    /// `>=`
    GreaterEqual,
    /// `<<`
    ShiftLeft,
    /// `>>`
    ShiftRight,
    /// `+`
    Plus,
    /// `*`
    Star,
    /// `&`
    And,
    /// `|`
    Or,
    /// `^`
    Xor,
    /// `;`
    Semicolon,
}

/// A token of a text, or what stands in a token's place.
#[derive(Debug, Drop)]
pub enum Token {
    /// A word, with its bytes. No word is reserved.
    Word(Name),
    /// A number below 2^128, by its value, however it is written.
    Number(u128),
    /// A number of 2^128 or more.
    TooWide,
    /// A symbol, or the end of a logical line.
    Symbol(Symbol),
    /// A string, with the bytes between its quotes.
    Text(Name),
    /// An unsupported form begins here, wherever it stands.
    Unsupported(Form),
    /// This opening bracket passes the limit of those that are open at once.
    TooDeep(Symbol),
    /// A byte that begins no token.
    Other,
}

/// A token with the place of its first byte.
#[derive(Debug, Drop)]
pub struct Item {
    pub place: Place,
    pub token: Token,
}

impl Item {
    /// Whether it is this very word.
    pub fn is_word(&self, text: &[u8]) -> bool
        ensures { result ≡ t.is_word text.now self.now }
    {
        match &self.token {
            Token::Word(name) => name.bytes() == text,
            _ => false,
        }
    }

    /// Whether it is this symbol.
    pub fn is_symbol(&self, symbol: Symbol) -> bool
        ensures { result ≡ t.is_symbol symbol self.now }
    {
        match &self.token {
            Token::Symbol(found) => same(*found, symbol),
            _ => false,
        }
    }

    /// Whether it is a word, whichever.
    pub fn is_name(&self) -> bool
        ensures { result ≡ t.is_name self.now }
    {
        matches!(&self.token, Token::Word(_))
    }

    /// Whether it is a number below 2^128.
    pub fn is_number(&self) -> bool
        ensures { result ≡ t.is_number self.now }
    {
        matches!(&self.token, Token::Number(_))
    }

    /// Whether it is this number, however it is written.
    pub fn is_the_number(&self, number: u128) -> bool
        ensures { result ≡ t.is_the_number number self.now }
    {
        match &self.token {
            Token::Number(found) => *found == number,
            _ => false,
        }
    }

    /// Why it is refused, where nothing is said of its place.
    pub fn refused(&self) -> Kind
        ensures { result ≡ kind_of_token self.now.token }
    {
        match &self.token {
            Token::TooWide => Kind::NumberTooWide,
            Token::TooDeep(_) => Kind::TooDeep,
            Token::Unsupported(form) => Kind::Unsupported(*form),
            _ => Kind::Syntax,
        }
    }
}
