//! What a thread does.

use net_core::Signal;
use tb_base::Path;

/// An act of a thread. A child is named by its path.
#[derive(Debug, Drop)]
pub enum Act {
    Poke {
        line: u32,
        port: Signal,
        raw: u128,
    },
    /// The number that is read goes into a slot, where there is one, when the act is committed.
    Peek {
        line: u32,
        port: Signal,
        into: Option<u32>,
    },
    Expect {
        line: u32,
        port: Signal,
        wanted: u128,
    },
    Fork {
        line: u32,
        child: Path,
    },
    Join {
        line: u32,
        child: Path,
    },
    Arrive {
        line: u32,
        count: u128,
    },
    JoinStep {
        line: u32,
        child: Path,
    },
    Spend {
        line: u32,
    },
    End,
}
