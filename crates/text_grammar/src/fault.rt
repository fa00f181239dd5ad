//! Why a text is none of its grammar: a kind, and where.
//!
//! While a text is read, the place of a fault is the count of items that are left from the faulty one on, so that each step hands
//! on what the step below it answered. A reader that answers places turns the count into one once, at its top.

use std::alloc::{AllocError, AllocFailed};
use tb_base::Memory;

/// A form that is known and not taken.
#[derive(Clone, Copy, Debug, PartialEq, Eq)]
pub enum Form {
    /// An annotation behind the head of a circuit.
    Annotation,
    /// A module that is described elsewhere.
    ExternalModule,
    /// A type that is known and not taken, or a `const` one.
    Type,
    /// An enumeration's type.
    Enumeration,
    /// An operation that is known and not taken.
    Operation,
    /// A connection of another kind than the usual one.
    Connect,
    /// A statement that is known and not taken.
    Statement,
    /// A memory, or one of its ports.
    Memory,
    /// A name in back quotes.
    QuotedName,
}

/// Why an item is refused.
#[derive(Clone, Copy, Debug, PartialEq, Eq)]
pub enum Kind {
    /// No text of the grammar goes on with this item.
    Syntax,
    /// A limit of depth or of count is passed here.
    TooDeep,
    /// A number of 2^128 or more, or past the limit of its position.
    NumberTooWide,
    /// A form begins here that is known and not taken.
    Unsupported(Form),
    /// Here it shows that the part is the head of a block that is too deep. It is answered as `TooDeep` at the part's first
    /// item, and never leaves a reader.
    HeadTooDeep,
}

/// Why reading ended without a value.
#[derive(Debug, Drop)]
pub enum ReadError {
    /// Want of memory.
    Memory,
    /// A fault, and how many items are left from the faulty one on: 0 at the end of the items.
    At(Kind, usize),
}

impl From<AllocError> for ReadError {
    ghost use Rattle.std.specs.Prelude.{◌≡◌};
    ghost use Rattle.text_grammar.specs.declared.fault.ReadError.TheVariants.{Memory};

    ghost from_gives = { λ _ e. e ≡ Memory };

    fn from(_e: AllocError) -> ReadError {
        ReadError::Memory
    }
}

impl<T: Drop> From<AllocFailed<T>> for ReadError {
    ghost use Rattle.std.specs.Prelude.{◌≡◌};
    ghost use Rattle.text_grammar.specs.declared.fault.ReadError.TheVariants.{Memory};

    ghost from_gives = { λ _ e. e ≡ Memory };

    fn from(_e: AllocFailed<T>) -> ReadError {
        ReadError::Memory
    }
}

impl From<Memory> for ReadError {
    ghost use Rattle.std.specs.Prelude.{◌≡◌};
    ghost use Rattle.text_grammar.specs.declared.fault.ReadError.TheVariants.{Memory};

    ghost from_gives = { λ _ e. e ≡ Memory };

    fn from(_e: Memory) -> ReadError {
        ReadError::Memory
    }
}
