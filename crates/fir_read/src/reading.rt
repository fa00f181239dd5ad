//! Reading a circuit text.

ghost use Rattle.std.specs.Prelude.{◌≡◌, ◌<◌, ◌-◌, ◌^◌, Some, length, IfOk, IfErr};
ghost use Rattle.fir_lex.specs.Lex.{items_of};
ghost use Rattle.fir_ast.specs.Circuits as circuits;
ghost use Rattle.fir_read.specs.Faults as faults;

use crate::fault::ReadFault;
use crate::modules::whole_circuit;
use fir_ast::Circuit;
use fir_lex::{end_place, items};
use std::alloc::Global;
use tb_base::{Memory, Place};
use text_grammar::{Item, Kind, ReadError, Tokens};

/// The place of the item from which so many are left, and behind the last one the text's end.
fn place_left(text: &[u8], items: &[Item], left: usize) -> Place
    requires short { length text.now < 2 ^ 32 - 1 }
    requires items { items.now ≡ items_of text.now }
    ensures { result ≡ circuits.place_left text.now left }
{
    let at = items.len().saturating_sub(left);
    match &items[at..] {
        [first, ..] => first.place,
        [] => end_place(text),
    }
}

/// The fault of a kind, at a place.
fn fault(kind: Kind, place: Place) -> ReadFault
    ensures { result ≡ faults.fault_as kind place }
{
    match kind {
        Kind::Syntax => ReadFault::Syntax(place),
        Kind::Unsupported(form) => ReadFault::Unsupported(place, form),
        Kind::NumberTooWide => ReadFault::NumberTooWide(place),
        Kind::TooDeep | Kind::HeadTooDeep => ReadFault::TooDeep(place),
    }
}

/// The circuit that a text spells, or why it spells none.
///
/// A fault but `Memory` comes exactly where the text spells no circuit, and stands at its first faulty place; `Memory` comes only where
/// memory ran out, and then nothing is said of the text. The time and the memory are linear in the length of the text.
pub fn read(alloc: Global, text: &[u8]) -> Result<Circuit, ReadFault>
    requires { length text.now < 2 ^ 32 - 1 }
    ensures found { IfOk result (λ c. circuits.circuit_of text.now ≡ Some c) }
    ensures spelled { IfOk result (λ c. circuits.spells_circuit text.now c) }
    ensures first { IfErr result (λ e. faults.Faulty text.now e) }
    ensures fault { IfErr result (λ e. faults.FaultFound text.now e) }
{
    let items = items(alloc, text)?;
    let mut tokens = Tokens::new(&items);
    match whole_circuit(alloc, &mut tokens) {
        Ok(circuit) => Ok(circuit),
        Err(ReadError::Memory) => Err(ReadFault::Memory(Memory)),
        Err(ReadError::At(kind, left)) => Err(fault(kind, place_left(text, &items, left))),
    }
}

/// A text spells at most one circuit, the one that `circuit_of` finds.
pub fn texts_spell_once()
    ensures { circuits.SpelledOnce }
{}

/// A text spells a circuit or has a first fault, and not both.
pub fn fault_where_none()
    ensures { circuits.FaultsWhereNone }
{}

/// A front of circuits is exactly what some text of the grammar begins with.
pub fn fronts_go_on()
    ensures { circuits.FrontsGoOn }
{}
