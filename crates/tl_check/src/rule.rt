//! The rules.

/// The rules, in the order in which they are answered where one statement breaks several.
#[derive(Clone, Copy, Debug, PartialEq, Eq)]
pub enum Rule {
    /// The port of a poke, a peek or an expect isn't there, or a reset has no 1-bit UInt input `reset`.
    UnknownPort,
    /// A poke of a port that isn't an input.
    PokeOutput,
    /// A value that the port can't hold.
    LiteralTooWide,
    /// A variable isn't known where it is used.
    UnknownVariable,
    /// A handle isn't known where it is joined.
    UnknownHandle,
    /// One name too many becomes known.
    TooManyNames,
    /// A Main thread joins a handle that a fork in its scope gave to a Monitor thread.
    JoinLaterRegion,
    /// `fork main` in a Monitor thread.
    ForkEarlierRegion,
    /// A driver of a port that isn't ready-valid.
    NotReadyValid,
    /// `step 0` or `reset 0`.
    StepZero,
}
