//! Why a circuit text is refused.
ghost use Rattle.std.specs.Prelude.{◌≡◌};

use tb_base::{Memory, Place};
pub use text_grammar::Form as What;
use thiserror::Error;

/// Why a circuit text is refused: the kind of its first faulty place, and that place.
#[derive(Debug, Drop, Error)]
pub enum ReadFault {
    /// No circuit text goes on with what stands here, or ends here.
    #[error("line {} column {}: syntax", .0.line, .0.column)]
    Syntax(Place),
    /// A form begins here that is known and not taken.
    #[error("line {} column {}: unsupported", .0.line, .0.column)]
    Unsupported(Place, What),
    /// A number of 2^128 or more, a width above 128, or a vector's length above 65,536.
    #[error("line {} column {}: number too wide", .0.line, .0.column)]
    NumberTooWide(Place),
    /// A block, a bracket or a suffix begins here that passes its limit.
    #[error("line {} column {}: too deep", .0.line, .0.column)]
    TooDeep(Place),
    /// There wasn't enough memory.
    #[error("out of memory")]
    Memory(Memory),
}

impl From<Memory> for ReadFault {
    ghost use Rattle.fir_read.specs.declared.fault.ReadFault.TheVariants as fault;

    ghost from_gives = { λ m e. e ≡ fault.Memory m };

    fn from(memory: Memory) -> ReadFault {
        ReadFault::Memory(memory)
    }
}
