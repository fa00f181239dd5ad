//! Reading a test text.

ghost use Rattle.std.specs.Prelude.{◌≡◌, ◌<◌, ◌≤◌, ◌-◌, ◌^◌, Some, length, IfOk, IfErr};
ghost use Rattle.tl_lex.specs.Lex.{items_of};
ghost use Rattle.tl_ast.specs.Tests as tests;
ghost use Rattle.tl_text.specs.Faults as faults;

use crate::blocks::whole_test;
use crate::fault::TestReadFault;
use std::alloc::Global;
use tb_base::{Memory, Place};
use text_grammar::{Item, Kind, ReadError, Tokens};
use tl_ast::TestText;
use tl_lex::{end_place, items};

/// The place of the item from which so many are left, and behind the last one the text's end.
fn place_left(text: &[u8], items: &[Item], left: usize) -> Place
    requires short { length text.now < 2 ^ 32 - 1 }
    requires items { items.now ≡ items_of text.now }
    ensures { result ≡ tests.place_left text.now left }
{
    let at = items.len().saturating_sub(left);
    match &items[at..] {
        [first, ..] => first.place,
        [] => end_place(text),
    }
}

/// The fault of a kind, at a place. A test text has no unsupported forms, and no heads that are too deep.
fn fault(kind: Kind, place: Place) -> TestReadFault
    ensures { result ≡ faults.fault_as kind place }
{
    match kind {
        Kind::Syntax | Kind::Unsupported(_) => TestReadFault::Syntax(place),
        Kind::NumberTooWide => TestReadFault::NumberTooWide(place),
        Kind::TooDeep | Kind::HeadTooDeep => TestReadFault::TooDeep(place),
    }
}

/// The test that a text spells, or why it spells none.
///
/// A fault but `Memory` comes exactly where the text spells no test, and stands at its first faulty place; `Memory` comes only where
/// memory ran out, and then nothing is said of the text. A test has at most as many statements as its text has bytes, those in blocks
/// not counted. The time and the memory are linear in the length of the text.
pub fn read_test(alloc: Global, text: &[u8]) -> Result<TestText, TestReadFault>
    requires { length text.now < 2 ^ 32 - 1 }
    ensures found { IfOk result (λ x. tests.test_of text.now ≡ Some x) }
    ensures spelled { IfOk result (λ x. tests.spells_test text.now x) }
    ensures short { IfOk result (λ x. length x.body ≤ length text.now) }
    ensures first { IfErr result (λ e. faults.Faulty text.now e) }
    ensures fault { IfErr result (λ e. faults.FaultFound text.now e) }
{
    let items = items(alloc, text)?;
    let mut tokens = Tokens::new(&items);
    match whole_test(alloc, &mut tokens) {
        Ok(test) => Ok(test),
        Err(ReadError::Memory) => Err(TestReadFault::Memory(Memory)),
        Err(ReadError::At(kind, left)) => Err(fault(kind, place_left(text, &items, left))),
    }
}
