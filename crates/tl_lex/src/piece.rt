//! The pieces of a text: what begins at a byte, as long as can be.

ghost use Rattle.std.specs.Prelude.{◌≡◌, ◌<◌, ◌≤◌, length, IfOk, true};
ghost use Rattle.std.specs.List.{position_or_len};
ghost use Rattle.tl_lex.specs.Pieces as spec;

use crate::number::number;
use crate::symbol::symbol;
use std::alloc::Global;
use tb_base::Memory;
use text_grammar::lex::{self, Piece};

/// Whether a byte is white space.
fn is_blank(byte: u8) -> bool
    ensures { result ≡ spec.is_blank byte }
{
    byte == b' ' || byte == b'\t' || byte == b'\n' || byte == b'\r'
}

/// Whether a comment begins here.
fn begins_comment(text: &[u8]) -> bool
    ensures value { result ≡ spec.begins_comment text.now }
    ensures long { result ≡ true → 2 ≤ length text.now }
{
    text.len() >= 2 && text[0] == b'/' && text[1] == b'/'
}

/// How many bytes stand before the first line feed. The cost is that number.
fn line_len(text: &[u8]) -> usize
    ensures value { result ≡ position_or_len spec.is_feed text.now }
    ensures within { result ≤ length text.now }
{
    for (at, byte) in text.iter().enumerate() {
        if *byte == b'\n' {
            return at;
        }
    }
    text.len()
}

/// The comment at the head of the text, up to the end of its line. The cost is its length.
fn comment(text: &[u8]) -> Piece
    requires { 2 ≤ length text.now }
    ensures value { result ≡ spec.comment text.now }
    ensures within { (1 ≤ result.len) × (result.len ≤ length text.now) }
{
    Piece {
        token: None,
        len: 2 + line_len(&text[2..]),
    }
}

/// What begins at the head of the text. The cost is its length, of a word in memory too.
#[tactic(auto, unfolding(crate::specs::Pieces::piece))]
pub fn piece(alloc: Global, text: &[u8]) -> Result<Piece, Memory>
    requires { 0 < length text.now }
    ensures value { IfOk result (λ p. p ≡ spec.piece text.now) }
    ensures within { IfOk result (λ p. (1 ≤ p.len) × (p.len ≤ length text.now)) }
{
    let first = text[0];
    if is_blank(first) {
        return Ok(Piece {
            token: None,
            len: 1,
        });
    }
    if begins_comment(text) {
        return Ok(comment(text));
    }
    if lex::begins_word(first) {
        return lex::word(alloc, text);
    }
    if first.is_ascii_digit() {
        return Ok(number(text));
    }
    Ok(symbol(text))
}
