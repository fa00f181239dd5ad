//! The items of a text, piece by piece.

ghost use Rattle.std.specs.Prelude.{◌≡◌, ◌<◌, ◌≤◌, ◌+◌, ◌-◌, ◌^◌, ◌++◌, [], length, IfOk};
ghost use Rattle.tl_lex.specs.Lex as spec;

use crate::piece::piece;
use std::alloc::Global;
use tb_base::{Memory, Place};
use text_grammar::lex::Piece;
use text_grammar::{Item, Token};

/// The place of the byte after this one, which stands at `place`.
fn place_after(place: Place, byte: u8) -> Place
    requires line { place.line + 1 < 2 ^ 32 }
    requires column { place.column + 1 < 2 ^ 32 }
    ensures { result ≡ spec.place_after place byte }
{
    if byte == b'\n' {
        Place {
            line: place.line + 1,
            column: 1,
        }
    } else {
        Place {
            line: place.line,
            column: place.column + 1,
        }
    }
}

/// The place behind these bytes, the first of which stands at `place`. The cost is their number.
fn place_behind(place: Place, bytes: &[u8]) -> Place
    requires line { place.line + length bytes.now < 2 ^ 32 }
    requires column { place.column + length bytes.now < 2 ^ 32 }
    ensures value { result ≡ spec.place_behind place bytes.now }
    ensures line { result.line ≤ place.line + length bytes.now }
    ensures column { result.column ≤ place.column + length bytes.now }
{
    let mut behind = place;
    for byte in bytes {
        behind = place_after(behind, *byte);
    }
    behind
}

/// Puts a token, if there is one, behind the items.
fn put(items: &mut Vec<Item>, place: Place, token: Option<Token>) -> Result<(), Memory>
    ensures { IfOk result (λ _. items.new.items ≡ items.old.items ++ spec.placed token place []) }
{
    match token {
        None => Ok(()),
        Some(token) => {
            items.push(Item { place, token })?;
            Ok(())
        }
    }
}

/// The items of a test text: its tokens, each with the place of its first byte. White space and comments are no items, and a byte
/// that begins no token is the item `Other`. No text is refused here, and the one error is want of memory. A text has at most as
/// many items as bytes.
///
/// The time and the memory are linear in the text's length: each byte is looked at a fixed number of times, and the bytes of each
/// word are copied once.
pub fn items(alloc: Global, text: &[u8]) -> Result<Vec<Item>, Memory>
    requires { length text.now < 2 ^ 32 - 1 }
    ensures value { IfOk result (λ v. v.items ≡ spec.items_of text.now) }
    ensures few { IfOk result (λ v. length v.items ≤ length text.now) }
{
    let mut found = Vec::new(alloc);
    let mut place = Place { line: 1, column: 1 };
    let mut rest = text;
    while !rest.is_empty() {
        let Piece { token, len } = piece(alloc, rest)?;
        put(&mut found, place, token)?;
        place = place_behind(place, &rest[..len]);
        rest = &rest[len..];
    }
    Ok(found)
}

/// The place behind the last byte of a text, where a fault at the end of its items stands. The time is linear.
#[tactic(auto, using(crate::proofs::Places::behind_start))]
pub fn end_place(text: &[u8]) -> Place
    requires { length text.now < 2 ^ 32 - 1 }
    ensures { result ≡ spec.end_of text.now }
{
    place_behind(Place { line: 1, column: 1 }, text)
}
