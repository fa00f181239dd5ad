//! Why a test isn't accepted.
ghost use Rattle.std.specs.Prelude.{Some};
ghost use Rattle.tl_check.specs.Faults.{Tells};

use crate::rule::Rule;
use tb_base::Memory;
use thiserror::Error;

/// Why a test isn't accepted. Each but the last has the line of the first statement in text order
/// that breaks a rule, and is the first of the rules that this statement breaks.
#[derive(Debug, Drop, Error)]
pub enum TestFault {
    /// The port of a poke, a peek or an expect isn't there, or a reset has no 1-bit UInt input `reset`.
    #[error("line {0}: unknown port")]
    UnknownPort(u32),
    /// A poke of a port that isn't an input.
    #[error("line {0}: poke of an output")]
    PokeOutput(u32),
    /// A value that the port can't hold.
    #[error("line {0}: literal too wide")]
    LiteralTooWide(u32),
    /// A variable isn't known where it is used.
    #[error("line {0}: unknown variable")]
    UnknownVariable(u32),
    /// A handle isn't known where it is joined.
    #[error("line {0}: unknown handle")]
    UnknownHandle(u32),
    /// One name too many becomes known.
    #[error("line {0}: too many names")]
    TooManyNames(u32),
    /// A Main thread joins a handle that a fork in its scope gave to a Monitor thread.
    #[error("line {0}: join of a later region")]
    JoinLaterRegion(u32),
    /// `fork main` in a Monitor thread.
    #[error("line {0}: fork into an earlier region")]
    ForkEarlierRegion(u32),
    /// A driver of a port that isn't ready-valid.
    #[error("line {0}: not ready-valid")]
    NotReadyValid(u32),
    /// `step 0` or `reset 0`.
    #[error("line {0}: step of zero")]
    StepZero(u32),
    /// There wasn't enough memory to tell.
    #[error("out of memory")]
    Memory(Memory),
}

/// The refusal that tells of a rule that is broken in a line.
pub fn fault_of(rule: Rule, line: u32) -> TestFault
    ensures { Tells (Some (rule, line)) result }
{
    match rule {
        Rule::UnknownPort => TestFault::UnknownPort(line),
        Rule::PokeOutput => TestFault::PokeOutput(line),
        Rule::LiteralTooWide => TestFault::LiteralTooWide(line),
        Rule::UnknownVariable => TestFault::UnknownVariable(line),
        Rule::UnknownHandle => TestFault::UnknownHandle(line),
        Rule::TooManyNames => TestFault::TooManyNames(line),
        Rule::JoinLaterRegion => TestFault::JoinLaterRegion(line),
        Rule::ForkEarlierRegion => TestFault::ForkEarlierRegion(line),
        Rule::NotReadyValid => TestFault::NotReadyValid(line),
        Rule::StepZero => TestFault::StepZero(line),
    }
}
