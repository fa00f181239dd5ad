//! Why a walk over a test stops.
ghost use Rattle.std.specs.Prelude.{◌≡◌};

use crate::rule::Rule;
use tb_base::Memory;

/// Why a walk over a test stops.
#[derive(Debug, Drop)]
pub enum Stop {
    /// There wasn't enough memory.
    Memory,
    /// The first rule that a statement breaks, and its line.
    Broken(Rule, u32),
}

impl From<Memory> for Stop {
    ghost use Rattle.tl_check.specs.declared.stop.Stop.TheVariants as stop;

    ghost from_gives = { λ _ e. e ≡ stop.Memory };

    fn from(_memory: Memory) -> Stop {
        Stop::Memory
    }
}
