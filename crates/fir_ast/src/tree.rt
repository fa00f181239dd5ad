//! The tree of a circuit text.
//!
//! A circuit is a list of modules, a module a list of ports and a list of statements. Types,
//! expressions and statements each lead back to themselves: there a list is an `Items` and a single
//! child a `Boxed`, which contracts see as the list and as the child. Everywhere else a list is a
//! `Seq`. So contracts see a tree as plain data, with no pointer in it, and a copy equals what it
//! copies.
//!
//! Lines count from 1, and are those of the text that was read. Everything stands in text order.
//! Both spellings of a connect, of an invalidation and of a register with reset give one tree. A
//! tree keeps no locators, no comments and no version.

use sqlite_items::{Boxed, Items};
use tb_base::{Name, Op, Seq};

/// A circuit. The main module is the one that has its name.
#[derive(Drop)]
pub struct Circuit {
    /// The line of the word `circuit`.
    pub line: u32,
    pub name: Name,
    /// At least one in a circuit that a text spells.
    pub modules: Seq<Module>,
}

/// A module: its ports, then its statements.
#[derive(Drop)]
pub struct Module {
    /// The line of the word `module`.
    pub line: u32,
    pub name: Name,
    /// Maybe none.
    pub ports: Seq<Port>,
    /// Maybe none.
    pub body: Seq<Stmt>,
}

/// A port of a module. Its own direction: parts of it that are flipped go the other way.
#[derive(Drop)]
pub struct Port {
    pub line: u32,
    /// Whether it is an output; else it is an input.
    pub output: bool,
    pub name: Name,
    pub ty: Ty,
}

/// A type. A width is a number of bits, at most 128 in a type that a text spells; `None` is a width
/// that is not written.
#[derive(Drop)]
#[cycle(ty)]
pub enum Ty {
    UInt(Option<u8>),
    SInt(Option<u8>),
    Clock,
    Reset,
    /// The fields in text order, maybe none.
    Bundle(Items<Field>),
    /// The type of each element, and how many there are: at most 65,536 in a type that a text
    /// spells.
    Vector(Boxed<Ty>, u32),
}

/// A field of a bundle.
#[derive(Drop)]
#[cycle(ty)]
pub struct Field {
    /// Whether it goes against the bundle's direction.
    pub flip: bool,
    pub name: Name,
    pub ty: Ty,
}

/// The reset of a register: where `signal` is 1, the register's next value is `init`.
#[derive(Drop)]
pub struct ResetPair {
    pub signal: Expr,
    pub init: Expr,
}

/// A statement. Each has the line of its first token.
#[derive(Drop)]
pub enum Stmt {
    /// `wire name : ty`
    Wire {
        line: u32,
        name: Name,
        ty: Ty,
    },
    /// `node name = value`
    Node {
        line: u32,
        name: Name,
        value: Expr,
    },
    /// `reg name : ty, clock`, or a register with reset.
    Reg {
        line: u32,
        name: Name,
        ty: Ty,
        clock: Expr,
        reset: Option<ResetPair>,
    },
    /// `inst name of module`
    Inst {
        line: u32,
        name: Name,
        module: Name,
    },
    /// `connect sink, value`
    Connect {
        line: u32,
        sink: Expr,
        value: Expr,
    },
    /// `invalidate sink`
    Invalid {
        line: u32,
        sink: Expr,
    },
    /// `when cond :` with the block `taken`, then the block `other` of its `else`, which is empty
    /// where there is none. An `else when` is an `other` of that one `When`.
    When {
        line: u32,
        cond: Expr,
        taken: Items<Stmt>,
        other: Items<Stmt>,
    },
    /// `skip`
    Skip {
        line: u32,
    },
    /// A verification statement.
    Verif {
        line: u32,
        kind: VerifKind,
        /// The expressions in text order. Of a `printf`: the clock, the condition, and the values
        /// that it prints. Of a `stop`: the clock and the condition. Of an `assert`, `assume` or
        /// `cover`: the clock, the predicate, the enable, and the values behind its string.
        args: Seq<Expr>,
        /// The number of a `stop`; 0 for the other kinds.
        code: u128,
        /// The bytes between the quotes of the statement's string, with its backslashes as they
        /// are written; empty for a `stop`.
        text: Name,
        /// The word behind the statement's `:`, where it has one.
        label: Option<Name>,
    },
}

/// Which verification statement it is.
#[derive(Clone, Copy, Debug, PartialEq, Eq)]
pub enum VerifKind {
    Printf,
    Stop,
    Assert,
    Assume,
    Cover,
}

/// An expression, or a reference to what a statement drives.
#[derive(Drop)]
pub enum Expr {
    /// A declared name.
    Ident(Name),
    /// `e.name`: a field, or a port of an instance.
    Part(Boxed<Expr>, Name),
    /// `e[n]` with a plain number.
    At(Boxed<Expr>, u128),
    /// `e[index]`.
    Index(Boxed<Expr>, Boxed<Expr>),
    /// A literal: its sign, its width in bits where one is written, and its value as a minus and a
    /// magnitude. A zero has no minus in a literal that a text spells.
    Lit {
        signed: bool,
        width: Option<u8>,
        negative: bool,
        magnitude: u128,
    },
    /// An operation on the operands `args` with the numbers `nums`, each as many as its row has in
    /// an expression that a text spells.
    Apply {
        op: Op,
        args: Items<Expr>,
        nums: Seq<u128>,
    },
}
