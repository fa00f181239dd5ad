//! The tree of a test text.
//!
//! A test is a list of statements, and statements hold blocks. Expressions and statements each lead back to themselves: there a
//! list is an `Items` and a single child a `Boxed`, which contracts see as the list and as the child. Everywhere else a list is a
//! `Seq`. So contracts see a tree as plain data, and a copy equals what it copies.
//!
//! Lines count from 1, and are those of the text that was read. Everything stands in text order. A tree keeps no comments and no
//! parentheses.

use sqlite_items::{Boxed, Items};
use tb_base::{Name, Region, Seq};

/// A test.
#[derive(Drop)]
pub struct TestText {
    /// Maybe none.
    pub body: Seq<TestStmt>,
}

/// A statement. Each has the line of its first token. A port is written as its name: a word, and any number of `.w` and `[n]`, with
/// decimal numbers and without spaces.
#[derive(Drop)]
pub enum TestStmt {
    /// `poke port = value;`
    Poke {
        line: u32,
        port: Name,
        value: TestExpr,
    },
    /// `peek port;`, or `peek port into w;`, which also sets the variable w.
    Peek {
        line: u32,
        port: Name,
        into: Option<Name>,
    },
    /// `expect port == value;`
    Expect {
        line: u32,
        port: Name,
        value: TestExpr,
    },
    /// `step count;`
    Step {
        line: u32,
        count: u128,
    },
    /// `let name = value;`
    Let {
        line: u32,
        name: Name,
        value: TestExpr,
    },
    /// `set name = value;`
    Set {
        line: u32,
        name: Name,
        value: TestExpr,
    },
    /// `if cond { taken }` with `else { other }`, or without it, where `other` is empty.
    If {
        line: u32,
        cond: TestExpr,
        taken: Items<TestStmt>,
        other: Items<TestStmt>,
    },
    /// `while cond { body }`
    While {
        line: u32,
        cond: TestExpr,
        body: Items<TestStmt>,
    },
    /// `repeat count { body }`
    Repeat {
        line: u32,
        count: TestExpr,
        body: Items<TestStmt>,
    },
    /// `fork handle { body }`, or with `main` or `monitor` before the handle, where a region is written.
    Fork {
        line: u32,
        region: Option<Region>,
        handle: Name,
        body: Items<TestStmt>,
    },
    /// `join handle;`
    Join {
        line: u32,
        handle: Name,
    },
    /// `joinstep handle;`
    JoinStep {
        line: u32,
        handle: Name,
    },
    /// A driver of a ready-valid port. The kinds with a list have any number of values, those that expect nothing none, all others
    /// one.
    Driver {
        line: u32,
        kind: DriverKind,
        port: Name,
        values: Seq<TestExpr>,
    },
    /// `reset count;`
    ResetFor {
        line: u32,
        count: u128,
    },
}

/// Which driver it is.
#[derive(Clone, Copy, Debug, PartialEq, Eq)]
pub enum DriverKind {
    /// `enqueue port E;`
    Enqueue,
    /// `enqueueNow port E;`
    EnqueueNow,
    /// `enqueueSeq port [E, E];`
    EnqueueSeq,
    /// `expectDequeue port E;`
    ExpectDequeue,
    /// `expectDequeueNow port E;`
    ExpectDequeueNow,
    /// `expectDequeueSeq port [E, E];`
    ExpectDequeueSeq,
    /// `expectInvalid port;`
    ExpectInvalid,
}

/// An expression over whole numbers of 128 bits.
#[derive(Drop)]
pub enum TestExpr {
    /// A number.
    Num(u128),
    /// A variable.
    Var(Name),
    /// `-e`
    Neg(Boxed<TestExpr>),
    /// `e op f`
    Two(TestOp, Boxed<TestExpr>, Boxed<TestExpr>),
}

/// An operation of two operands.
#[derive(Clone, Copy, Debug, PartialEq, Eq)]
pub enum TestOp {
    /// `+`
    Add,
    /// `-`
    Sub,
    /// `*`
    Mul,
    /// `&`
    And,
    /// `|`
    Or,
    /// `^`
    Xor,
    /// `<<`
    Shl,
    /// `>>`
    Shr,
    /// `==`
    Eq,
    /// `!=`
    Neq,
    /// `<`
    Lt,
    /// `<=`
    Leq,
    /// `>`
    Gt,
    /// `>=`
    Geq,
}
