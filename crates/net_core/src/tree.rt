//! Elaborated circuits and nets.
//!
//! Expressions, statements and choices lead back to themselves: there a list is an `Items` and a single child a
//! `Boxed`, which contracts see as the list and as the child. Everywhere else a list is a `Seq`. So contracts see these
//! trees as plain data, and a copy equals what it copies.

use crate::ports::Signal;
use sqlite_items::{Boxed, Items};
use tb_base::{Name, Op, Seq};

/// What a signal is.
#[derive(Clone, Copy, Debug, PartialEq, Eq)]
pub enum Role {
    /// An input port of the main module.
    Input,
    /// An output port of the main module.
    Output,
    /// A wire, or a port of an instance.
    Inner,
    /// A name for an expression.
    Node,
    /// A register, which keeps its value until the clock's edge.
    Reg,
}

/// What is known of a signal.
#[derive(Drop)]
pub struct SignalInfo {
    pub name: Name,
    pub role: Role,
    /// Whether its type is SInt. It is UInt otherwise.
    pub signed: bool,
    /// The number of its bits, or `None` where it isn't written and not yet inferred.
    pub width: Option<u8>,
    /// The line of its declaration.
    pub line: u32,
}

/// An elaborated circuit: its name is the main module's, and every signal in it is ground.
#[derive(Drop)]
pub struct Elab {
    pub name: Name,
    pub signals: Seq<SignalInfo>,
    pub body: Seq<Ground>,
}

/// A statement of an elaborated circuit.
#[derive(Drop)]
pub enum Ground {
    /// The signal is declared, and has this reset where it is a register with one.
    Declare {
        signal: Signal,
        line: u32,
        reset: Option<GroundReset>,
    },
    /// The sink gets the value. Without a value it is an invalidation.
    Set {
        line: u32,
        sink: Signal,
        value: Option<GroundExpr>,
    },
    /// The block `taken` where the condition is 1, else the block `other`.
    When {
        line: u32,
        cond: GroundExpr,
        taken: Items<Ground>,
        other: Items<Ground>,
    },
}

/// The reset of a register: where `signal` is 1, the register's next value is `init`.
#[derive(Drop)]
pub struct GroundReset {
    pub signal: GroundExpr,
    pub init: GroundExpr,
}

/// An expression over signals.
#[derive(Drop)]
pub enum GroundExpr {
    /// The value of a signal.
    Read(Signal),
    /// A literal: its sign, its width in bits where one is written, and its value as a minus and a magnitude.
    Lit {
        signed: bool,
        width: Option<u8>,
        negative: bool,
        magnitude: u128,
    },
    /// An operation on the operands `args` with the numbers `nums`.
    Apply {
        op: Op,
        args: Items<GroundExpr>,
        nums: Seq<u128>,
    },
    /// The item at the place that `index` gives, and 0 past the end.
    Select {
        index: Boxed<GroundExpr>,
        items: Items<GroundExpr>,
    },
    /// Whether `index` is `place`.
    IndexIs {
        index: Boxed<GroundExpr>,
        place: u32,
    },
}

/// A net: one equation for each signal.
#[derive(Drop)]
pub struct Net {
    /// How many of the signals are those of the elaborated circuit. The others, behind them, are one signal for each
    /// condition of a When, in the order of the body, then one for each reset, in the order of the registers.
    pub own: u32,
    pub signals: Seq<SignalInfo>,
    /// As many as the signals, in their order.
    pub equations: Seq<Equation>,
}

/// Where a signal's value comes from.
#[derive(Drop)]
pub enum Equation {
    /// It is given from outside.
    Input,
    /// It is what the choices give.
    Comb(Seq<Choice>),
    /// It is kept, and at the clock's edge becomes what the choices give.
    Reg { next: Seq<Choice> },
}

/// A choice. A list of choices gives the value of its last `Take` all of whose Whens hold.
#[derive(Drop)]
pub enum Choice {
    /// The value, or 0 where there is none.
    Take(Option<GroundExpr>),
    /// The choices `taken` where the signal `cond` is 1, else the choices `other`.
    When {
        cond: Signal,
        taken: Items<Choice>,
        other: Items<Choice>,
    },
}
