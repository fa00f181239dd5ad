//! Copies that equal what they copy, lines included.
//!
//! Each call goes once over the tree: its time and memory are linear in the tree's size. Where
//! memory is wanting, what was copied so far is dropped. The recursion is along the nesting of
//! expressions and of blocks; lists are copied by loops.
ghost use Rattle.std.specs.Prelude.{◌≡◌, IfOk};

use crate::tree::{TestExpr, TestStmt, TestText};
use sqlite_items::{Boxed, Items};
use std::alloc::Global;
use tb_base::{Memory, Name, Seq};

impl TestText {
    /// A copy, or `Memory`.
    pub fn copy(&self, alloc: Global) -> Result<TestText, Memory>
        ensures { IfOk result (λ c. c ≡ self.now) }
    {
        let body = copy_stmts(alloc, self.body.items())?;
        Ok(TestText {
            body: Seq::of(body),
        })
    }
}

impl TestExpr {
    /// A copy, or `Memory`.
    pub fn copy(&self, alloc: Global) -> Result<TestExpr, Memory>
        ensures { IfOk result (λ c. c ≡ self.now) }
    {
        match self {
            TestExpr::Num(n) => Ok(TestExpr::Num(*n)),
            TestExpr::Var(name) => Ok(TestExpr::Var(name.copy(alloc)?)),
            TestExpr::Neg(of) => {
                let of = of.get().copy(alloc)?;
                Ok(TestExpr::Neg(Boxed::new(alloc, of)?))
            }
            TestExpr::Two(op, left, right) => {
                let left = Boxed::new(alloc, left.get().copy(alloc)?)?;
                let right = Boxed::new(alloc, right.get().copy(alloc)?)?;
                Ok(TestExpr::Two(*op, left, right))
            }
        }
    }
}

fn copy_exprs(alloc: Global, exprs: &[TestExpr]) -> Result<Vec<TestExpr>, Memory>
    ensures { IfOk result (λ v. v.items ≡ exprs.now) }
{
    let mut copies = Vec::new(alloc);
    for expr in exprs {
        let copy = expr.copy(alloc)?;
        copies.push(copy)?;
    }
    Ok(copies)
}

fn copy_into(alloc: Global, into: &Option<Name>) -> Result<Option<Name>, Memory>
    ensures { IfOk result (λ w. w ≡ into.now) }
{
    match into {
        None => Ok(None),
        Some(name) => Ok(Some(name.copy(alloc)?)),
    }
}

impl TestStmt {
    /// A copy, or `Memory`.
    #[cycle(copy_stmt)]
    pub fn copy(&self, alloc: Global) -> Result<TestStmt, Memory>
        ensures { IfOk result (λ c. c ≡ self.now) }
    {
        match self {
            TestStmt::Poke { line, port, value } => Ok(TestStmt::Poke {
                line: *line,
                port: port.copy(alloc)?,
                value: value.copy(alloc)?,
            }),
            TestStmt::Peek { line, port, into } => Ok(TestStmt::Peek {
                line: *line,
                port: port.copy(alloc)?,
                into: copy_into(alloc, into)?,
            }),
            TestStmt::Expect { line, port, value } => Ok(TestStmt::Expect {
                line: *line,
                port: port.copy(alloc)?,
                value: value.copy(alloc)?,
            }),
            TestStmt::Step { line, count } => Ok(TestStmt::Step {
                line: *line,
                count: *count,
            }),
            TestStmt::Let { line, name, value } => Ok(TestStmt::Let {
                line: *line,
                name: name.copy(alloc)?,
                value: value.copy(alloc)?,
            }),
            TestStmt::Set { line, name, value } => Ok(TestStmt::Set {
                line: *line,
                name: name.copy(alloc)?,
                value: value.copy(alloc)?,
            }),
            TestStmt::If {
                line,
                cond,
                taken,
                other,
            } => Ok(TestStmt::If {
                line: *line,
                cond: cond.copy(alloc)?,
                taken: Items::from_vec(copy_stmts(alloc, taken.as_slice())?),
                other: Items::from_vec(copy_stmts(alloc, other.as_slice())?),
            }),
            TestStmt::While { line, cond, body } => Ok(TestStmt::While {
                line: *line,
                cond: cond.copy(alloc)?,
                body: Items::from_vec(copy_stmts(alloc, body.as_slice())?),
            }),
            TestStmt::Repeat { line, count, body } => Ok(TestStmt::Repeat {
                line: *line,
                count: count.copy(alloc)?,
                body: Items::from_vec(copy_stmts(alloc, body.as_slice())?),
            }),
            TestStmt::Fork {
                line,
                region,
                handle,
                body,
            } => Ok(TestStmt::Fork {
                line: *line,
                region: *region,
                handle: handle.copy(alloc)?,
                body: Items::from_vec(copy_stmts(alloc, body.as_slice())?),
            }),
            TestStmt::Join { line, handle } => Ok(TestStmt::Join {
                line: *line,
                handle: handle.copy(alloc)?,
            }),
            TestStmt::JoinStep { line, handle } => Ok(TestStmt::JoinStep {
                line: *line,
                handle: handle.copy(alloc)?,
            }),
            TestStmt::Driver {
                line,
                kind,
                port,
                values,
            } => Ok(TestStmt::Driver {
                line: *line,
                kind: *kind,
                port: port.copy(alloc)?,
                values: Seq::of(copy_exprs(alloc, values.items())?),
            }),
            TestStmt::ResetFor { line, count } => Ok(TestStmt::ResetFor {
                line: *line,
                count: *count,
            }),
        }
    }
}

#[cycle(copy_stmt)]
fn copy_stmts(alloc: Global, stmts: &[TestStmt]) -> Result<Vec<TestStmt>, Memory>
    ensures { IfOk result (λ v. v.items ≡ stmts.now) }
{
    let mut copies = Vec::new(alloc);
    for stmt in stmts {
        let copy = stmt.copy(alloc)?;
        copies.push(copy)?;
    }
    Ok(copies)
}
