//! The items of a text, line by line.

ghost use Rattle.std.specs.Prelude.{◌≡◌, ◌<◌, ◌≤◌, ◌+◌, ◌-◌, ◌^◌, ◌++◌, length, IfOk};
ghost use Rattle.std.specs.List.{position_or_len};
ghost use Rattle.fir_lex.specs.Lex as spec;

use crate::line::add_unmarked;
use crate::mark::mark;
use std::alloc::Global;
use tb_base::{Memory, Place};
use text_grammar::Item;

/// Adds the items of a line.
fn add_line(alloc: Global, items: &mut Vec<Item>, line: u32, bytes: &[u8]) -> Result<(), Memory>
    requires { length bytes.now < 2 ^ 32 - 1 }
    ensures { IfOk result (λ _. items.new.items ≡ items.old.items ++ spec.line_items line bytes.now) }
{
    let start = items.len();
    add_unmarked(alloc, items, line, bytes)?;
    mark(&mut items[start..]);
    Ok(())
}

/// A line without the carriage return at its end, if one is there.
fn without_return(bytes: &[u8]) -> &[u8]
    ensures value { result.now ≡ spec.without_return bytes.now }
    ensures within { length result.now ≤ length bytes.now }
{
    match bytes {
        [front @ .., b'\r'] => front,
        _ => bytes,
    }
}

/// How many bytes stand before the first line feed.
fn line_len(bytes: &[u8]) -> usize
    ensures value { result ≡ position_or_len spec.is_feed bytes.now }
    ensures within { result ≤ length bytes.now }
{
    for (at, byte) in bytes.iter().enumerate() {
        if *byte == b'\n' {
            return at;
        }
    }
    bytes.len()
}

/// The items of a circuit text: line by line its tokens, each with its place, and the end of each line that has a token, one
/// past its last token. A byte that begins no token is the item `Other`, and so are a token or a second locator behind a locator
/// and a tab in front of a line's first token; such items stand behind the line's end if no token follows them. Forms that are
/// known and not taken are `Unsupported` at their first word, and a bracket that would be the 65th open one of its line is
/// `TooDeep`. No text is refused here, and the one error is want of memory.
///
/// The time and the memory are linear in the text's length: each byte is looked at a fixed number of times, and the bytes of each
/// word and string are copied once.
#[tactic(auto, unfolding(crate::specs::Lex::items_of))]
pub fn items(alloc: Global, text: &[u8]) -> Result<Vec<Item>, Memory>
    requires { length text.now < 2 ^ 32 - 1 }
    ensures { IfOk result (λ v. v.items ≡ spec.items_of text.now) }
{
    let mut found = Vec::new(alloc);
    let mut line: u32 = 1;
    let mut rest = text;
    let mut end = line_len(rest);
    while end < rest.len() {
        add_line(alloc, &mut found, line, without_return(&rest[..end]))?;
        rest = &rest[end + 1..];
        line += 1;
        end = line_len(rest);
    }
    add_line(alloc, &mut found, line, rest)?;
    Ok(found)
}

/// The place behind the last byte of a text, where a fault at the end of its items stands. The time is linear.
pub fn end_place(text: &[u8]) -> Place
    requires { length text.now < 2 ^ 32 - 1 }
    ensures { result ≡ spec.end_of text.now }
{
    let mut place = Place { line: 1, column: 1 };
    for byte in text {
        place = if *byte == b'\n' {
            Place {
                line: place.line + 1,
                column: 1,
            }
        } else {
            Place {
                line: place.line,
                column: place.column + 1,
            }
        };
    }
    place
}
