//! The symbol at the head of a text.

ghost use Rattle.std.specs.Prelude.{◌≡◌, ◌<◌, ◌≤◌, ◌∷◌, [], length};
ghost use Rattle.tl_lex.specs.Pieces as spec;

use text_grammar::lex::Piece;
use text_grammar::{Symbol, Token};

/// The symbol of these two bytes.
fn double(first: u8, second: u8) -> Option<Symbol>
    ensures { result ≡ spec.spelled spec.doubles (first ∷ second ∷ []) }
{
    match (first, second) {
        (b'=', b'=') => Some(Symbol::EqualEqual),
        (b'!', b'=') => Some(Symbol::NotEqual),
        (b'<', b'=') => Some(Symbol::LessEqual),
        (b'>', b'=') => Some(Symbol::GreaterEqual),
        (b'<', b'<') => Some(Symbol::ShiftLeft),
        (b'>', b'>') => Some(Symbol::ShiftRight),
        _ => None,
    }
}

/// The symbol of this byte alone.
fn single(first: u8) -> Option<Symbol>
    ensures { result ≡ spec.spelled spec.singles (first ∷ []) }
{
    match first {
        b'<' => Some(Symbol::Less),
        b'>' => Some(Symbol::Greater),
        b'=' => Some(Symbol::Equal),
        b'+' => Some(Symbol::Plus),
        b'-' => Some(Symbol::Minus),
        b'*' => Some(Symbol::Star),
        b'&' => Some(Symbol::And),
        b'|' => Some(Symbol::Or),
        b'^' => Some(Symbol::Xor),
        b'(' => Some(Symbol::OpenParen),
        b')' => Some(Symbol::CloseParen),
        b'{' => Some(Symbol::OpenBrace),
        b'}' => Some(Symbol::CloseBrace),
        b'[' => Some(Symbol::OpenBracket),
        b']' => Some(Symbol::CloseBracket),
        b'.' => Some(Symbol::Dot),
        b',' => Some(Symbol::Comma),
        b';' => Some(Symbol::Semicolon),
        _ => None,
    }
}

/// The longest symbol at the head of the text, or a byte that begins no token.
pub fn symbol(text: &[u8]) -> Piece
    requires { 0 < length text.now }
    ensures value { result ≡ spec.symbol text.now }
    ensures within { (1 ≤ result.len) × (result.len ≤ length text.now) }
{
    if let [first, second, ..] = text {
        if let Some(symbol) = double(*first, *second) {
            return Piece {
                token: Some(Token::Symbol(symbol)),
                len: 2,
            };
        }
    }
    let token = match single(text[0]) {
        Some(symbol) => Token::Symbol(symbol),
        None => Token::Other,
    };
    Piece {
        token: Some(token),
        len: 1,
    }
}
