//! Printed tests, against texts that are written by hand.

use sqlite_items::{Boxed, Items};
use std::alloc::{AllocError, Global};
use std::test::Fail;
use tb_base::{Name, Region, Seq};
use tl_ast::{DriverKind, TestExpr, TestOp, TestStmt, TestText, print_test};

fn name(alloc: Global, text: &[u8]) -> Result<Name, AllocError> {
    Ok(Name::of(Vec::from_slice(alloc, text)?))
}

fn var(alloc: Global, text: &[u8]) -> Result<TestExpr, AllocError> {
    Ok(TestExpr::Var(name(alloc, text)?))
}

fn two(alloc: Global, op: TestOp, left: TestExpr, right: TestExpr) -> Result<TestExpr, AllocError> {
    Ok(TestExpr::Two(op, Boxed::new(alloc, left)?, Boxed::new(alloc, right)?))
}

fn neg(alloc: Global, of: TestExpr) -> Result<TestExpr, AllocError> {
    Ok(TestExpr::Neg(Boxed::new(alloc, of)?))
}

fn test_of(body: Vec<TestStmt>) -> TestText {
    TestText {
        body: Seq::of(body),
    }
}

/// `enqueueSeq io.enq` of 5 and 6.
fn enqueues(alloc: Global) -> Result<TestStmt, AllocError> {
    let mut values = Vec::new(alloc);
    values.push(TestExpr::Num(5))?;
    values.push(TestExpr::Num(6))?;
    Ok(TestStmt::Driver {
        line: 2,
        kind: DriverKind::EnqueueSeq,
        port: name(alloc, b"io.enq")?,
        values: Seq::of(values),
    })
}

fn fork_of(alloc: Global, handle: &[u8], body: TestStmt) -> Result<TestStmt, AllocError> {
    let mut stmts = Items::new(alloc);
    stmts.push(body)?;
    Ok(TestStmt::Fork {
        line: 2,
        region: Some(Region::Monitor),
        handle: name(alloc, handle)?,
        body: stmts,
    })
}

/// An `if` of `a < 3 + b` with a peek in one branch and a reset in the other.
fn branches(alloc: Global) -> Result<TestStmt, AllocError> {
    let sum = two(alloc, TestOp::Add, TestExpr::Num(3), var(alloc, b"b")?)?;
    let cond = two(alloc, TestOp::Lt, var(alloc, b"a")?, sum)?;
    let mut taken = Items::new(alloc);
    taken.push(TestStmt::Peek {
        line: 3,
        port: name(alloc, b"io.v[2]")?,
        into: Some(name(alloc, b"w")?),
    })?;
    let mut other = Items::new(alloc);
    other.push(TestStmt::ResetFor { line: 5, count: 10 })?;
    Ok(TestStmt::If {
        line: 2,
        cond,
        taken,
        other,
    })
}

#[test]
fn forks_and_branches(rt: HostRuntime) -> Result<(), Fail> {
    let alloc = rt.alloc();
    let mut body = Vec::new(alloc);
    body.push(fork_of(alloc, b"p", enqueues(alloc)?)?)?;
    body.push(branches(alloc)?)?;
    body.push(TestStmt::Join {
        line: 9,
        handle: name(alloc, b"p")?,
    })?;
    let test = test_of(body);
    let wanted = b"fork monitor p {
  enqueueSeq io.enq [ 5 , 6 ];
}
if a < 3 + b {
  peek io.v[2] into w;
} else {
  reset 10;
}
join p;
";
    let text = print_test(alloc, &test)?;
    assert_eq!(rt; text.as_slice(), wanted.as_slice());
    let copy = test.copy(alloc)?;
    let text = print_test(alloc, &copy)?;
    assert_eq!(rt; text.as_slice(), wanted.as_slice(), "a copy");
    Ok(())
}

#[test]
fn parentheses(rt: HostRuntime) -> Result<(), Fail> {
    let alloc = rt.alloc();
    let sum = two(alloc, TestOp::Add, var(alloc, b"a")?, TestExpr::Num(1))?;
    let difference = two(alloc, TestOp::Sub, var(alloc, b"b")?, sum)?;
    let product = two(
        alloc,
        TestOp::Mul,
        neg(alloc, var(alloc, b"c")?)?,
        difference,
    )?;
    let value = neg(alloc, product)?;
    let mut body = Vec::new(alloc);
    body.push(TestStmt::Poke {
        line: 1,
        port: name(alloc, b"x")?,
        value,
    })?;
    let text = print_test(alloc, &test_of(body))?;
    let wanted = b"poke x = - ( - c * ( b - ( a + 1 ) ) );\n";
    assert_eq!(rt; text.as_slice(), wanted.as_slice());
    Ok(())
}

#[test]
fn nothing(rt: HostRuntime) -> Result<(), Fail> {
    let alloc = rt.alloc();
    let text = print_test(alloc, &test_of(Vec::new(alloc)))?;
    assert_eq!(rt; text.len(), 0);
    Ok(())
}
