//! What the lexers of both languages share. A lexer cuts a text into pieces, from its head on: a token, or bytes that
//! are no token. Words and numbers are the same in both languages, and so are places, from 1, with columns in bytes.

ghost use Rattle.std.specs.Prelude.{◌≡◌, ◌<◌, ◌≤◌, ◌+◌, ◌^◌, length, slice_index, IfOk, true};
ghost use Rattle.std.specs.Str.Parse.{digits_value, AllDigits};
ghost use Rattle.text_grammar.specs.Lex as l;

use crate::item::Token;
use std::alloc::Global;
use tb_base::{Memory, Name, Place, read_number};

/// Bytes that run on.
#[derive(Clone, Copy, Debug, PartialEq, Eq)]
pub enum Class {
    /// The space.
    Space,
    /// The decimal digits.
    Digit,
    /// What a word goes on with: letters, digits, `_` and `$`.
    Word,
}

/// What begins at a byte of a text: a token or none, and how many bytes it has.
#[derive(Debug, Drop)]
pub struct Piece {
    pub token: Option<Token>,
    pub len: usize,
}

/// Whether a byte is in a class.
pub fn is_in(class: Class, byte: u8) -> bool
    ensures { result ≡ l.is_in class byte }
{
    match class {
        Class::Space => byte == b' ',
        Class::Digit => byte.is_ascii_digit(),
        Class::Word => byte.is_ascii_alphanumeric() || byte == b'_' || byte == b'$',
    }
}

/// Whether a byte begins a word: a letter or `_`.
pub fn begins_word(byte: u8) -> bool
    ensures { result ≡ l.begins_word byte }
{
    byte.is_ascii_alphabetic() || byte == b'_'
}

/// How many bytes at the head are in the class. The cost is that number.
pub fn run(class: Class, text: &[u8]) -> usize
    ensures value { result ≡ l.run class text.now }
    ensures within { result ≤ length text.now }
{
    for (at, byte) in text.iter().enumerate() {
        if !is_in(class, *byte) {
            return at;
        }
    }
    text.len()
}

/// The word at the head of the text. The cost is its length, in memory too.
pub fn word(alloc: Global, text: &[u8]) -> Result<Piece, Memory>
    ensures value { IfOk result (λ p. p ≡ l.word text.now) }
    ensures within { IfOk result (λ p. p.len ≤ length text.now) }
{
    let len = run(Class::Word, text);
    let bytes = Vec::from_slice(alloc, &text[..len])?;
    let token = Some(Token::Word(Name::of(bytes)));
    Ok(Piece { token, len })
}

/// The token of the number that decimal digits spell.
#[tactic(auto, using(crate::proofs::Digits::digits_spell))]
fn number_token(digits: &[u8]) -> Token
    requires some { 0 < length digits.now }
    requires all { AllDigits 10 digits.now }
    ensures { result ≡ l.number_token (digits_value 10 digits.now) }
{
    match read_number(digits) {
        Some(number) => Token::Number(number),
        None => Token::TooWide,
    }
}

/// The decimal number at the head of the text, which begins with a digit. The cost is its length.
#[tactic(auto, using(crate::proofs::Digits::front_digits, crate::proofs::Digits::front_some))]
pub fn decimal(text: &[u8]) -> Piece
    requires { l.is_in Class.Digit (slice_index text.now 0) ≡ true }
    ensures value { result ≡ l.decimal text.now }
    ensures within { (1 ≤ result.len) × (result.len ≤ length text.now) }
{
    let len = run(Class::Digit, text);
    let token = Some(number_token(&text[..len]));
    Piece { token, len }
}

/// The place after a piece that begins with this byte and has so many bytes.
pub fn place_past(place: Place, first: u8, len: usize) -> Place
    requires line { place.line + 1 < 2 ^ 32 }
    requires column { place.column + len < 2 ^ 32 }
    ensures { result ≡ l.place_past place first len }
{
    if first == b'\n' {
        Place {
            line: place.line + 1,
            column: 1,
        }
    } else {
        Place {
            line: place.line,
            column: place.column + len as u32,
        }
    }
}
