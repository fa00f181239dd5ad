//! What is gathered of the expressions of a reset and of a verification statement.

/// Which rules the expressions of a register's reset break.
#[derive(Clone, Copy, Debug)]
pub struct Resets {
    pub unknown: bool,
    pub wrong: bool,
    pub clock: bool,
    /// Whether the signal is no condition, or the initial value hasn't the register's shape.
    pub unfit: bool,
    /// Whether the initial value has a Clock in it.
    pub clocked: bool,
}

/// Which rules the expressions of a verification statement break.
#[derive(Clone, Copy, Debug)]
pub struct Args {
    pub unknown: bool,
    pub wrong: bool,
    pub clock: bool,
    /// Whether one may not stand where it stands.
    pub unfit: bool,
    /// Whether one behind the statement's string has a Clock in it.
    pub clocked: bool,
}
