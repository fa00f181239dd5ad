//! Why a test text is refused.
ghost use Rattle.std.specs.Prelude.{◌≡◌};

use tb_base::{Memory, Place};
use thiserror::Error;

/// Why a test text is refused: the kind of its first faulty place, and that place.
#[derive(Debug, Drop, Error)]
pub enum TestReadFault {
    /// No test text goes on with what stands here, or ends here.
    #[error("line {} column {}: syntax", .0.line, .0.column)]
    Syntax(Place),
    /// A number of 2^128 or more.
    #[error("line {} column {}: number too wide", .0.line, .0.column)]
    NumberTooWide(Place),
    /// A block, a fork, a parenthesis or an operator begins here that passes its limit.
    #[error("line {} column {}: too deep", .0.line, .0.column)]
    TooDeep(Place),
    /// There wasn't enough memory.
    #[error("out of memory")]
    Memory(Memory),
}

impl From<Memory> for TestReadFault {
    ghost use Rattle.tl_text.specs.declared.fault.TestReadFault.TheVariants as fault;

    ghost from_gives = { λ m e. e ≡ fault.Memory m };

    fn from(memory: Memory) -> TestReadFault {
        TestReadFault::Memory(memory)
    }
}
