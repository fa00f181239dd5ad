//! The first rule that a statement breaks where it stands.
ghost use Rattle.std.specs.Prelude.{◌≡◌, ◌++◌, not, codes, [], IfOk};
ghost use Rattle.tl_ast.specs.declared.tree.TestStmt.{TestStmt as Tree};
ghost use Rattle.tl_ast.specs.declared.tree.TestStmt.TheViews.{out-TestStmt};
ghost use Rattle.tl_ast.specs.declared.tree.TestStmt.TheOpen.{Poke, Peek, Expect, Step, Let, Set, While, Fork, Join, JoinStep, Driver, ResetFor};
ghost use Rattle.tl_check.specs.Scopes.{is_monitor, child_region};
ghost use Rattle.tl_check.specs.Values.{is_bit, goes, enqueues, is_ready_valid};
ghost use Rattle.tl_check.specs.Rules.{first_broken};
ghost use Rattle.tl_check.specs.Walk.{here, line_of};

use crate::names::Names;
use crate::rule::Rule;
use crate::values::{is_too_wide, sets_unknown, some_too_wide, some_unknown, uses_unknown};
use net_core::{PortInfo, PortTable};
use std::alloc::Global;
use tb_base::{Memory, Name, Region, put};
use tl_ast::{DriverKind, TestExpr, TestStmt};

/// Where a statement stands: the ports, the region of its thread, and what is known in front of it.
#[derive(Clone, Copy)]
pub struct Standing<'a> {
    pub ports: &'a PortTable,
    pub region: Region,
    pub names: &'a Names,
}

/// Whether it is the region of threads that watch.
pub fn is_monitor(region: Region) -> bool
    ensures { result ≡ is_monitor region }
{
    match region {
        Region::Main => false,
        Region::Monitor => true,
    }
}

/// The region of a forked thread: the one that is written, else that of the thread that forks it.
pub fn child_region(region: Region, written: Option<Region>) -> Region
    ensures { result ≡ child_region region written }
{
    match written {
        None => region,
        Some(written) => written,
    }
}

/// Whether a port is there and goes in, or goes out.
fn goes(input: bool, port: Option<PortInfo>) -> bool
    ensures { result ≡ goes input port }
{
    match port {
        None => false,
        Some(port) => port.input == input,
    }
}

/// Whether it is besides a UInt of one bit.
fn is_bit(input: bool, port: Option<PortInfo>) -> bool
    ensures { result ≡ is_bit input port }
{
    match port {
        None => false,
        Some(info) => goes(input, port) && !info.signed && info.width == 1,
    }
}

/// The name of a part of a port.
fn part_of(alloc: Global, port: &Name, part: &[u8]) -> Result<Vec<u8>, Memory>
    ensures { IfOk result (λ name. name.items ≡ port.now ++ part.now) }
{
    let mut name = Vec::from_slice(alloc, port.bytes())?;
    put(&mut name, part)?;
    Ok(name)
}

/// Whether a driver gives values to the circuit.
fn enqueues(kind: DriverKind) -> bool
    ensures { result ≡ enqueues kind }
{
    match kind {
        DriverKind::Enqueue | DriverKind::EnqueueNow | DriverKind::EnqueueSeq => true,
        DriverKind::ExpectDequeue
        | DriverKind::ExpectDequeueNow
        | DriverKind::ExpectDequeueSeq
        | DriverKind::ExpectInvalid => false,
    }
}

/// Whether a port is ready-valid the way that the driver needs. Takes memory for the names of its
/// parts.
fn is_ready_valid(
    alloc: Global,
    ports: &PortTable,
    kind: DriverKind,
    port: &Name,
) -> Result<bool, Memory>
    ensures { IfOk result (λ b. b ≡ is_ready_valid kind port.now ports.now) }
{
    let into = enqueues(kind);
    let ready = part_of(alloc, port, b".ready")?;
    let valid = part_of(alloc, port, b".valid")?;
    let bits = part_of(alloc, port, b".bits")?;
    Ok(
        is_bit(!into, ports.find(ready.as_slice()))
            && is_bit(into, ports.find(valid.as_slice()))
            && goes(into, ports.find(bits.as_slice())),
    )
}

fn poke_rule(at: Standing<'_>, port: &Name, value: &TestExpr) -> Option<Rule>
    ensures { result ≡ first_broken {A = Tree} (here at.entry.ports.now at.entry.region at.entry.names.now) (Poke 0 port.now value.now) }
{
    let Some(info) = at.ports.find(port.bytes()) else {
        return Some(Rule::UnknownPort);
    };
    if !info.input {
        return Some(Rule::PokeOutput);
    }
    if is_too_wide(info, value) {
        return Some(Rule::LiteralTooWide);
    }
    if uses_unknown(at.names, value) {
        return Some(Rule::UnknownVariable);
    }
    None
}

fn peek_rule(at: Standing<'_>, port: &Name, into: &Option<Name>) -> Option<Rule>
    ensures { result ≡ first_broken {A = Tree} (here at.entry.ports.now at.entry.region at.entry.names.now) (Peek 0 port.now into.now) }
{
    if at.ports.find(port.bytes()).is_none() {
        return Some(Rule::UnknownPort);
    }
    if sets_unknown(at.names, into) {
        return Some(Rule::UnknownVariable);
    }
    None
}

fn expect_rule(at: Standing<'_>, port: &Name, value: &TestExpr) -> Option<Rule>
    ensures { result ≡ first_broken {A = Tree} (here at.entry.ports.now at.entry.region at.entry.names.now) (Expect 0 port.now value.now) }
{
    let Some(info) = at.ports.find(port.bytes()) else {
        return Some(Rule::UnknownPort);
    };
    if is_too_wide(info, value) {
        return Some(Rule::LiteralTooWide);
    }
    if uses_unknown(at.names, value) {
        return Some(Rule::UnknownVariable);
    }
    None
}

fn step_rule(at: Standing<'_>, count: u128) -> Option<Rule>
    ensures { result ≡ first_broken {A = Tree} (here at.entry.ports.now at.entry.region at.entry.names.now) (Step 0 count) }
{
    if count == 0 {
        return Some(Rule::StepZero);
    }
    None
}

fn let_rule(at: Standing<'_>, name: &Name, value: &TestExpr) -> Option<Rule>
    ensures { result ≡ first_broken {A = Tree} (here at.entry.ports.now at.entry.region at.entry.names.now) (Let 0 name.now value.now) }
{
    if uses_unknown(at.names, value) {
        return Some(Rule::UnknownVariable);
    }
    if at.names.is_variable_too_many(name.bytes()) {
        return Some(Rule::TooManyNames);
    }
    None
}

fn set_rule(at: Standing<'_>, name: &Name, value: &TestExpr) -> Option<Rule>
    ensures { result ≡ first_broken {A = Tree} (here at.entry.ports.now at.entry.region at.entry.names.now) (Set 0 name.now value.now) }
{
    if uses_unknown(at.names, value) {
        return Some(Rule::UnknownVariable);
    }
    if !at.names.has_variable(name.bytes()) {
        return Some(Rule::UnknownVariable);
    }
    None
}

/// The rule that an `if`, a `while` or a `repeat` of this value breaks.
fn value_rule(at: Standing<'_>, value: &TestExpr) -> Option<Rule>
    ensures { result ≡ first_broken {A = Tree} (here at.entry.ports.now at.entry.region at.entry.names.now) (While 0 value.now []) }
{
    if uses_unknown(at.names, value) {
        return Some(Rule::UnknownVariable);
    }
    None
}

fn fork_rule(at: Standing<'_>, written: Option<Region>, handle: &Name) -> Option<Rule>
    ensures { result ≡ first_broken {A = Tree} (here at.entry.ports.now at.entry.region at.entry.names.now) (Fork 0 written handle.now []) }
{
    if at.names.is_handle_too_many(handle.bytes()) {
        return Some(Rule::TooManyNames);
    }
    match written {
        Some(Region::Main) => {
            if is_monitor(at.region) {
                return Some(Rule::ForkEarlierRegion);
            }
            None
        }
        _ => None,
    }
}

fn join_rule(at: Standing<'_>, handle: &Name) -> Option<Rule>
    ensures { result ≡ first_broken {A = Tree} (here at.entry.ports.now at.entry.region at.entry.names.now) (Join 0 handle.now) }
{
    let Some(watches) = at.names.handle(handle.bytes()) else {
        return Some(Rule::UnknownHandle);
    };
    if watches && !is_monitor(at.region) {
        return Some(Rule::JoinLaterRegion);
    }
    None
}

fn join_step_rule(at: Standing<'_>, handle: &Name) -> Option<Rule>
    ensures { result ≡ first_broken {A = Tree} (here at.entry.ports.now at.entry.region at.entry.names.now) (JoinStep 0 handle.now) }
{
    if at.names.handle(handle.bytes()).is_none() {
        return Some(Rule::UnknownHandle);
    }
    None
}

fn driver_rule(
    alloc: Global,
    at: Standing<'_>,
    kind: DriverKind,
    port: &Name,
    values: &[TestExpr],
) -> Result<Option<Rule>, Memory>
    ensures { IfOk result (λ r. r ≡ first_broken {A = Tree} (here at.entry.ports.now at.entry.region at.entry.names.now) (Driver 0 kind port.now values.now)) }
{
    let bits = part_of(alloc, port, b".bits")?;
    if some_too_wide(at.ports.find(bits.as_slice()), values) {
        return Ok(Some(Rule::LiteralTooWide));
    }
    if some_unknown(at.names, values) {
        return Ok(Some(Rule::UnknownVariable));
    }
    if !is_ready_valid(alloc, at.ports, kind, port)? {
        return Ok(Some(Rule::NotReadyValid));
    }
    Ok(None)
}

fn reset_rule(at: Standing<'_>, count: u128) -> Option<Rule>
    ensures { result ≡ first_broken {A = Tree} (here at.entry.ports.now at.entry.region at.entry.names.now) (ResetFor 0 count) }
{
    if !is_bit(true, at.ports.find(b"reset")) {
        return Some(Rule::UnknownPort);
    }
    if count == 0 {
        return Some(Rule::StepZero);
    }
    None
}

/// The first rule that a statement breaks; its blocks don't count. The time is linear in the size of
/// its expressions. Takes memory for the names of a driver's ports.
pub fn broken_rule(alloc: Global, at: Standing<'_>, stmt: &TestStmt) -> Result<Option<Rule>, Memory>
    ensures { IfOk result (λ r. r ≡ first_broken (here at.entry.ports.now at.entry.region at.entry.names.now) (out-TestStmt stmt.now)) }
{
    let rule = match stmt {
        TestStmt::Poke {
            line: _,
            port,
            value,
        } => poke_rule(at, port, value),
        TestStmt::Peek {
            line: _,
            port,
            into,
        } => peek_rule(at, port, into),
        TestStmt::Expect {
            line: _,
            port,
            value,
        } => expect_rule(at, port, value),
        TestStmt::Step { line: _, count } => step_rule(at, *count),
        TestStmt::Let {
            line: _,
            name,
            value,
        } => let_rule(at, name, value),
        TestStmt::Set {
            line: _,
            name,
            value,
        } => set_rule(at, name, value),
        TestStmt::If {
            line: _,
            cond,
            taken: _,
            other: _,
        } => value_rule(at, cond),
        TestStmt::While {
            line: _,
            cond,
            body: _,
        } => value_rule(at, cond),
        TestStmt::Repeat {
            line: _,
            count,
            body: _,
        } => value_rule(at, count),
        TestStmt::Fork {
            line: _,
            region,
            handle,
            body: _,
        } => fork_rule(at, *region, handle),
        TestStmt::Join { line: _, handle } => join_rule(at, handle),
        TestStmt::JoinStep { line: _, handle } => join_step_rule(at, handle),
        TestStmt::Driver {
            line: _,
            kind,
            port,
            values,
        } => {
            return driver_rule(alloc, at, *kind, port, values.items());
        }
        TestStmt::ResetFor { line: _, count } => reset_rule(at, *count),
    };
    Ok(rule)
}

/// The line of a statement.
pub fn line_of(stmt: &TestStmt) -> u32
    ensures { result ≡ line_of (out-TestStmt stmt.now) }
{
    match stmt {
        TestStmt::Poke { line, .. }
        | TestStmt::Peek { line, .. }
        | TestStmt::Expect { line, .. }
        | TestStmt::Step { line, .. }
        | TestStmt::Let { line, .. }
        | TestStmt::Set { line, .. }
        | TestStmt::If { line, .. }
        | TestStmt::While { line, .. }
        | TestStmt::Repeat { line, .. }
        | TestStmt::Fork { line, .. }
        | TestStmt::Join { line, .. }
        | TestStmt::JoinStep { line, .. }
        | TestStmt::Driver { line, .. }
        | TestStmt::ResetFor { line, .. } => *line,
    }
}
