//! The statements that stand for a driver and for a reset.
ghost use Rattle.std.specs.Prelude.{◌≡◌, [], ◌∷◌, ◌++◌, codes, flat_map, IfOk, OnOk};
ghost use Rattle.tl_ast.specs.declared.tree.TestExpr.TheVariants.{Num};
ghost use Rattle.tl_ast.specs.declared.tree.TestStmt.TheVariants.{Poke, Expect, Step, If, JoinStep};
ghost use Rattle.tl_check.specs.Scopes.{drivers_variable, drivers_handle};
ghost use Rattle.tl_drivers.specs.Rows.{still_zero, until_set, watch, enqueue, enqueue_now, expect_dequeue, expect_dequeue_now, expect_invalid, driver, reset};

use sqlite_items::{Boxed, Items};
use std::alloc::Global;
use tb_base::{Memory, Name, Region, Seq, put};
use tl_ast::{DriverKind, TestExpr, TestOp, TestStmt};

/// The name of these bytes.
fn name(alloc: Global, bytes: &[u8]) -> Result<Name, Memory>
    ensures { IfOk result (λ n. n ≡ bytes.now) }
{
    Ok(Name::of(Vec::from_slice(alloc, bytes)?))
}

/// The variable of a driver's own thread.
fn own_variable(alloc: Global) -> Result<Name, Memory>
    ensures { IfOk result (λ n. n ≡ drivers_variable) }
{
    name(alloc, b"$r")
}

/// The handle of a driver's own thread.
fn own_handle(alloc: Global) -> Result<Name, Memory>
    ensures { IfOk result (λ n. n ≡ drivers_handle) }
{
    name(alloc, b"$d")
}

/// A port of the driver's port.
fn part(alloc: Global, port: &Name, suffix: &[u8]) -> Result<Name, Memory>
    ensures { IfOk result (λ n. n ≡ port.now ++ suffix.now) }
{
    let mut bytes = port.copy(alloc)?.into_vec();
    put(&mut bytes, suffix)?;
    Ok(Name::of(bytes))
}

/// `poke port = number;`
fn poke(line: u32, port: Name, number: u128) -> TestStmt
    ensures { result ≡ Poke line port (Num number) }
{
    TestStmt::Poke {
        line,
        port,
        value: TestExpr::Num(number),
    }
}

/// `expect port == number;`
fn expect(line: u32, port: Name, number: u128) -> TestStmt
    ensures { result ≡ Expect line port (Num number) }
{
    TestStmt::Expect {
        line,
        port,
        value: TestExpr::Num(number),
    }
}

/// `joinstep $d;`
fn await_thread(alloc: Global, line: u32) -> Result<TestStmt, Memory>
    ensures { IfOk result (λ s. s ≡ JoinStep line drivers_handle) }
{
    Ok(TestStmt::JoinStep {
        line,
        handle: own_handle(alloc)?,
    })
}

/// `$r == 0`
fn still_zero(alloc: Global) -> Result<TestExpr, Memory>
    ensures { IfOk result (λ e. e ≡ still_zero) }
{
    let variable = Boxed::new(alloc, TestExpr::Var(own_variable(alloc)?))?;
    let zero = Boxed::new(alloc, TestExpr::Num(0))?;
    Ok(TestExpr::Two(TestOp::Eq, variable, zero))
}

/// `if $r == 0 { step 1; }`
fn step_while_zero(alloc: Global, line: u32) -> Result<TestStmt, Memory>
    ensures { IfOk result (λ s. s ≡ If line still_zero (Step line 1 ∷ []) []) }
{
    let mut taken = Vec::new(alloc);
    taken.push(TestStmt::Step { line, count: 1 })?;
    Ok(TestStmt::If {
        line,
        cond: still_zero(alloc)?,
        taken: Items::from_vec(taken),
        other: Items::new(alloc),
    })
}

/// `let $r = 0; while $r == 0 { peek port into $r; if $r == 0 { step 1; } }`
fn until_set(alloc: Global, line: u32, port: Name) -> Result<Vec<TestStmt>, Memory>
    ensures { IfOk result (λ v. v.items ≡ until_set line port) }
{
    let mut body = Vec::new(alloc);
    body.push(TestStmt::Peek {
        line,
        port,
        into: Some(own_variable(alloc)?),
    })?;
    body.push(step_while_zero(alloc, line)?)?;
    let mut watching = Vec::new(alloc);
    watching.push(TestStmt::Let {
        line,
        name: own_variable(alloc)?,
        value: TestExpr::Num(0),
    })?;
    watching.push(TestStmt::While {
        line,
        cond: still_zero(alloc)?,
        body: Items::from_vec(body),
    })?;
    Ok(watching)
}

/// `fork monitor $d { .. }`
fn watch(alloc: Global, line: u32, body: Vec<TestStmt>) -> Result<TestStmt, Memory>
    ensures { IfOk result (λ s. s ≡ watch line body.items) }
{
    Ok(TestStmt::Fork {
        line,
        region: Some(Region::Monitor),
        handle: own_handle(alloc)?,
        body: Items::from_vec(body),
    })
}

/// Puts `poke signal = 1; fork monitor $d { .. } joinstep $d; poke signal = 0;`
fn put_handshake(
    alloc: Global,
    out: &mut Vec<TestStmt>,
    line: u32,
    signal: Name,
    body: Vec<TestStmt>,
) -> Result<(), Memory>
    ensures { OnOk result (
        out.new.items
        ≡ out.old.items ++ Poke line signal (Num 1) ∷ watch line body.items ∷ JoinStep line drivers_handle ∷ Poke line signal (Num 0) ∷ []
        ) }
{
    out.push(poke(line, signal.copy(alloc)?, 1))?;
    out.push(watch(alloc, line, body)?)?;
    out.push(await_thread(alloc, line)?)?;
    out.push(poke(line, signal, 0))?;
    Ok(())
}

/// Puts the row of `enqueue port value`.
fn put_enqueue(
    alloc: Global,
    out: &mut Vec<TestStmt>,
    line: u32,
    port: &Name,
    value: TestExpr,
) -> Result<(), Memory>
    ensures { OnOk result (out.new.items ≡ out.old.items ++ enqueue line port.now value) }
{
    let bits = part(alloc, port, b".bits")?;
    out.push(TestStmt::Poke {
        line,
        port: bits,
        value,
    })?;
    let watching = until_set(alloc, line, part(alloc, port, b".ready")?)?;
    put_handshake(alloc, out, line, part(alloc, port, b".valid")?, watching)
}

/// Puts the row of `enqueueNow port value`.
fn put_enqueue_now(
    alloc: Global,
    out: &mut Vec<TestStmt>,
    line: u32,
    port: &Name,
    value: TestExpr,
) -> Result<(), Memory>
    ensures { OnOk result (out.new.items ≡ out.old.items ++ enqueue_now line port.now value) }
{
    let bits = part(alloc, port, b".bits")?;
    out.push(TestStmt::Poke {
        line,
        port: bits,
        value,
    })?;
    let mut watching = Vec::new(alloc);
    watching.push(expect(line, part(alloc, port, b".ready")?, 1))?;
    put_handshake(alloc, out, line, part(alloc, port, b".valid")?, watching)
}

/// Puts the row of `expectDequeue port value`.
fn put_expect_dequeue(
    alloc: Global,
    out: &mut Vec<TestStmt>,
    line: u32,
    port: &Name,
    value: TestExpr,
) -> Result<(), Memory>
    ensures { OnOk result (out.new.items ≡ out.old.items ++ expect_dequeue line port.now value) }
{
    let bits = part(alloc, port, b".bits")?;
    let expected = TestStmt::Expect {
        line,
        port: bits,
        value,
    };
    let mut polling = until_set(alloc, line, part(alloc, port, b".valid")?)?;
    polling.push(expected)?;
    put_handshake(alloc, out, line, part(alloc, port, b".ready")?, polling)
}

/// Puts the row of `expectDequeueNow port value`.
fn put_expect_dequeue_now(
    alloc: Global,
    out: &mut Vec<TestStmt>,
    line: u32,
    port: &Name,
    value: TestExpr,
) -> Result<(), Memory>
    ensures { OnOk result (out.new.items ≡ out.old.items ++ expect_dequeue_now line port.now value) }
{
    let bits = part(alloc, port, b".bits")?;
    let mut watching = Vec::new(alloc);
    watching.push(expect(line, part(alloc, port, b".valid")?, 1))?;
    watching.push(TestStmt::Expect {
        line,
        port: bits,
        value,
    })?;
    put_handshake(alloc, out, line, part(alloc, port, b".ready")?, watching)
}

/// Puts the row of `expectInvalid port`.
fn put_expect_invalid(
    alloc: Global,
    out: &mut Vec<TestStmt>,
    line: u32,
    port: &Name,
) -> Result<(), Memory>
    ensures { OnOk result (out.new.items ≡ out.old.items ++ expect_invalid line port.now) }
{
    let mut watching = Vec::new(alloc);
    watching.push(expect(line, part(alloc, port, b".valid")?, 0))?;
    out.push(watch(alloc, line, watching)?)?;
    Ok(())
}

/// Puts the row of `enqueue` for each value in turn.
fn put_enqueue_each(
    alloc: Global,
    out: &mut Vec<TestStmt>,
    line: u32,
    port: &Name,
    values: Vec<TestExpr>,
) -> Result<(), Memory>
    ensures { OnOk result (out.new.items ≡ out.old.items ++ flat_map (enqueue line port.now) values.items) }
{
    for value in values {
        put_enqueue(alloc, out, line, port, value)?;
    }
    Ok(())
}

/// Puts the row of `enqueueNow` for each value in turn.
fn put_enqueue_now_each(
    alloc: Global,
    out: &mut Vec<TestStmt>,
    line: u32,
    port: &Name,
    values: Vec<TestExpr>,
) -> Result<(), Memory>
    ensures { OnOk result (out.new.items ≡ out.old.items ++ flat_map (enqueue_now line port.now) values.items) }
{
    for value in values {
        put_enqueue_now(alloc, out, line, port, value)?;
    }
    Ok(())
}

/// Puts the row of `expectDequeue` for each value in turn.
fn put_expect_dequeue_each(
    alloc: Global,
    out: &mut Vec<TestStmt>,
    line: u32,
    port: &Name,
    values: Vec<TestExpr>,
) -> Result<(), Memory>
    ensures { OnOk result (out.new.items ≡ out.old.items ++ flat_map (expect_dequeue line port.now) values.items) }
{
    for value in values {
        put_expect_dequeue(alloc, out, line, port, value)?;
    }
    Ok(())
}

/// Puts the row of `expectDequeueNow` for each value in turn.
fn put_expect_dequeue_now_each(
    alloc: Global,
    out: &mut Vec<TestStmt>,
    line: u32,
    port: &Name,
    values: Vec<TestExpr>,
) -> Result<(), Memory>
    ensures { OnOk result (out.new.items ≡ out.old.items ++ flat_map (expect_dequeue_now line port.now) values.items) }
{
    for value in values {
        put_expect_dequeue_now(alloc, out, line, port, value)?;
    }
    Ok(())
}

/// Puts the statements that stand for a driver. The time and the memory are linear in its size.
pub fn put_driver(
    alloc: Global,
    out: &mut Vec<TestStmt>,
    line: u32,
    kind: DriverKind,
    port: &Name,
    values: Seq<TestExpr>,
) -> Result<(), Memory>
    ensures { OnOk result (out.new.items ≡ out.old.items ++ driver line kind port.now values) }
{
    let values = values.into_vec();
    match kind {
        DriverKind::Enqueue => put_enqueue_each(alloc, out, line, port, values),
        DriverKind::EnqueueNow => put_enqueue_now_each(alloc, out, line, port, values),
        DriverKind::EnqueueSeq => put_enqueue_each(alloc, out, line, port, values),
        DriverKind::ExpectDequeue => put_expect_dequeue_each(alloc, out, line, port, values),
        DriverKind::ExpectDequeueNow => put_expect_dequeue_now_each(alloc, out, line, port, values),
        DriverKind::ExpectDequeueSeq => put_expect_dequeue_each(alloc, out, line, port, values),
        DriverKind::ExpectInvalid => put_expect_invalid(alloc, out, line, port),
    }
}

/// Puts the statements that stand for a reset of so many steps.
pub fn put_reset(
    alloc: Global,
    out: &mut Vec<TestStmt>,
    line: u32,
    count: u128,
) -> Result<(), Memory>
    ensures { OnOk result (out.new.items ≡ out.old.items ++ reset line count) }
{
    out.push(poke(line, name(alloc, b"reset")?, 1))?;
    out.push(TestStmt::Step { line, count })?;
    out.push(poke(line, name(alloc, b"reset")?, 0))?;
    Ok(())
}
