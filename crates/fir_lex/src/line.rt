//! The items of a line, before any of them is marked.

ghost use Rattle.std.specs.Prelude.{◌≡◌, ◌<◌, ◌≤◌, ◌+◌, ◌-◌, ◌^◌, ◌++◌, ◌∷◌, ◌&&◌, ◌||◌, not, [], length, take, drop, IfOk};
ghost use Rattle.fir_lex.specs.Pieces as pieces;
ghost use Rattle.fir_lex.specs.Lines as spec;

use crate::piece::{Class, Cut, Unclosed, first_piece, is_locator, is_token, token_of};
use std::alloc::Global;
use tb_base::{Memory, Place};
use text_grammar::{Item, Symbol, Token};

/// What stands before a piece on its line.
#[derive(Clone, Copy, Debug, PartialEq, Eq)]
pub struct Before {
    /// No token yet, and one is still to come.
    pub at_front: bool,
    /// A locator.
    pub located: bool,
}

/// Whether a piece does not hide what stands behind it.
fn is_looked_past(anywhere: bool, class: Class) -> bool
    ensures { result ≡ spec.is_looked_past anywhere class }
{
    anywhere || !is_locator(class)
}

/// Whether a token is among the bytes: anywhere, or in front of a locator. The cost is linear in the bytes up to that token.
fn sees_token(anywhere: bool, bytes: &[u8], unclosed: Unclosed) -> bool
    requires { pieces.Known unclosed bytes.now }
    ensures { result ≡ spec.sees_token anywhere (pieces.pieces bytes.now) }
{
    let mut unclosed = unclosed;
    let mut rest = bytes;
    while !rest.is_empty() {
        let Cut { class, len } = first_piece(rest, &mut unclosed);
        if is_token(class) {
            return true;
        }
        if !is_looked_past(anywhere, class) {
            return false;
        }
        rest = &rest[len..];
    }
    false
}

/// Whether a piece is faulty.
fn is_faulty(before: Before, class: Class) -> bool
    ensures { result ≡ spec.is_faulty before.at_front before.located class }
{
    match class {
        Class::Blank => false,
        Class::Comment => false,
        Class::Stray => true,
        Class::Tab => before.at_front,
        _ => before.located,
    }
}

/// What stands before the piece behind a piece.
fn behind(before: Before, class: Class) -> Before
    ensures front { result.at_front ≡ (before.at_front && not (pieces.is_token class)) }
    ensures located { result.located ≡ (before.located || pieces.is_locator class) }
{
    Before {
        at_front: before.at_front && !is_token(class),
        located: before.located || is_locator(class),
    }
}

/// Adds an item.
fn add(items: &mut Vec<Item>, place: Place, token: Token) -> Result<(), Memory>
    ensures { IfOk result (λ _. items.new.items ≡ items.old.items ++ (spec.placed place.line place.column token ∷ [])) }
{
    items.push(Item { place, token })?;
    Ok(())
}

/// Adds the end of a line behind its last token, if no token follows.
fn add_line_end(items: &mut Vec<Item>, place: Place, follows: bool) -> Result<(), Memory>
    ensures { IfOk result (λ _. items.new.items ≡ items.old.items ++ spec.line_end place.line place.column follows) }
{
    if follows {
        return Ok(());
    }
    add(items, place, Token::Symbol(Symbol::LineEnd))
}

/// Adds the items of the first piece of these bytes.
fn add_piece(
    alloc: Global,
    items: &mut Vec<Item>,
    place: Place,
    before: Before,
    piece: Cut,
    bytes: &[u8],
    unclosed: Unclosed,
) -> Result<(), Memory>
    requires within { piece.len ≤ length bytes.now }
    requires fits { place.column + piece.len < 2 ^ 32 }
    requires known { pieces.Known unclosed (drop piece.len bytes.now) }
    ensures { IfOk result (λ _. items.new.items ≡ items.old.items ++ spec.piece_items place.line place.column before.at_front before.located
        (record { cut = piece; bytes = take piece.len bytes.now }) (pieces.pieces (drop piece.len bytes.now))) }
{
    if is_faulty(before, piece.class) {
        return add(items, place, Token::Other);
    }
    if !is_token(piece.class) {
        return Ok(());
    }
    let token = token_of(alloc, piece.class, &bytes[..piece.len])?;
    add(items, place, token)?;
    let follows = sees_token(false, &bytes[piece.len..], unclosed);
    let end = Place {
        line: place.line,
        column: place.column + piece.len as u32,
    };
    add_line_end(items, end, follows)
}

/// Adds the items of a line, before any of them is marked. The cost is linear in the line: a byte is looked at when its piece is
/// cut, when the token before it looks for one that follows, and when the line's first token is sought.
#[tactic(auto, unfolding(crate::specs::Lines::unmarked))]
pub fn add_unmarked(
    alloc: Global,
    items: &mut Vec<Item>,
    line: u32,
    bytes: &[u8],
) -> Result<(), Memory>
    requires { length bytes.now < 2 ^ 32 - 1 }
    ensures { IfOk result (λ _. items.new.items ≡ items.old.items ++ spec.unmarked line bytes.now) }
{
    let mut unclosed = Unclosed {
        string: false,
        locator: false,
    };
    let mut before = Before {
        at_front: sees_token(true, bytes, unclosed),
        located: false,
    };
    let mut rest = bytes;
    let mut column: u32 = 1;
    while !rest.is_empty() {
        let piece = first_piece(rest, &mut unclosed);
        add_piece(
            alloc,
            items,
            Place { line, column },
            before,
            piece,
            rest,
            unclosed,
        )?;
        before = behind(before, piece.class);
        rest = &rest[piece.len..];
        column += piece.len as u32;
    }
    Ok(())
}
