//! One instruction.
ghost use Rattle.std.specs.Prelude.{◌≡◌, ◌<◌, ℕ, length, slice_set, Some, IfOk};
ghost use Rattle.tl_prepare.specs.Steps.{IsStep, IsFork};

use crate::act::Act;
use crate::runner::Runner;
use crate::values::{Stack, value};
use net_core::Signal;
use sqlite_items::at;
use tb_base::{Memory, Path, Region};
use tl_threads::code::{Instr, Operand};

/// How it goes on behind an instruction.
#[derive(Debug, Drop)]
pub enum Stepped {
    /// A jump, which isn't counted.
    Jumped,
    /// A local statement.
    Went,
    /// An act that is no fork.
    Acts(Act),
    /// A fork: the child begins at a place, in a region.
    Forks {
        line: u32,
        region: Region,
        begin: u32,
        child: Path,
    },
    /// Nothing goes on.
    Stuck,
}

fn poke(
    stack: &mut Stack,
    run: &mut Runner,
    line: u32,
    port: Signal,
    operand: &Operand,
    full: bool,
) -> Result<Stepped, Memory>
    requires { run.old.pc < u32.MAX }
    ensures { IfOk result (λ r. IsStep full run.old (Instr.Poke line port operand.now) r run.new) }
{
    let raw = value(stack, run.locals.as_slice(), operand.items())?;
    run.pc += 1;
    Ok(Stepped::Acts(Act::Poke { line, port, raw }))
}

fn peek(run: &mut Runner, line: u32, port: Signal, into: Option<u32>, full: bool) -> Stepped
    requires { run.old.pc < u32.MAX }
    ensures { IsStep full run.old (Instr.Peek line port into) result run.new }
{
    run.pc += 1;
    Stepped::Acts(Act::Peek { line, port, into })
}

fn expect(
    stack: &mut Stack,
    run: &mut Runner,
    line: u32,
    port: Signal,
    operand: &Operand,
    full: bool,
) -> Result<Stepped, Memory>
    requires { run.old.pc < u32.MAX }
    ensures { IfOk result (λ r. IsStep full run.old (Instr.Expect line port operand.now) r run.new) }
{
    let wanted = value(stack, run.locals.as_slice(), operand.items())?;
    run.pc += 1;
    Ok(Stepped::Acts(Act::Expect { line, port, wanted }))
}

fn arrive(run: &mut Runner, line: u32, count: u128, full: bool) -> Stepped
    requires { run.old.pc < u32.MAX }
    ensures { IsStep full run.old (Instr.Step line count) result run.new }
{
    run.pc += 1;
    Stepped::Acts(Act::Arrive { line, count })
}

fn store(
    stack: &mut Stack,
    run: &mut Runner,
    line: u32,
    slot: u32,
    operand: &Operand,
    full: bool,
) -> Result<Stepped, Memory>
    requires { run.old.pc < u32.MAX }
    ensures { IfOk result (λ r. IsStep full run.old (Instr.Store line slot operand.now) r run.new) }
{
    if full {
        return Ok(Stepped::Acts(Act::Spend { line }));
    }
    let number = value(stack, run.locals.as_slice(), operand.items())?;
    let slot = slot as usize;
    if slot < run.locals.len() {
        run.locals[slot] = number;
    }
    run.pc += 1;
    Ok(Stepped::Went)
}

fn unless(
    stack: &mut Stack,
    run: &mut Runner,
    line: u32,
    cond: &Operand,
    other: u32,
    full: bool,
) -> Result<Stepped, Memory>
    requires { run.old.pc < u32.MAX }
    ensures { IfOk result (λ r. IsStep full run.old (Instr.Unless line cond.now other) r run.new) }
{
    if full {
        return Ok(Stepped::Acts(Act::Spend { line }));
    }
    if value(stack, run.locals.as_slice(), cond.items())? == 0 {
        run.pc = other;
    } else {
        run.pc += 1;
    }
    Ok(Stepped::Went)
}

fn enter(
    stack: &mut Stack,
    run: &mut Runner,
    line: u32,
    cond: &Operand,
    out: u32,
    full: bool,
) -> Result<Stepped, Memory>
    requires { run.old.pc < u32.MAX }
    ensures { IfOk result (λ r. IsStep full run.old (Instr.Enter line cond.now out) r run.new) }
{
    if full {
        return Ok(Stepped::Acts(Act::Spend { line }));
    }
    if value(stack, run.locals.as_slice(), cond.items())? == 0 {
        run.pc = out;
    } else {
        run.pc += 1;
    }
    Ok(Stepped::Went)
}

fn turn(
    stack: &mut Stack,
    run: &mut Runner,
    line: u32,
    cond: &Operand,
    back: u32,
    full: bool,
) -> Result<Stepped, Memory>
    requires { run.old.pc < u32.MAX }
    ensures { IfOk result (λ r. IsStep full run.old (Instr.Turn line cond.now back) r run.new) }
{
    if full {
        return Ok(Stepped::Acts(Act::Spend { line }));
    }
    if value(stack, run.locals.as_slice(), cond.items())? == 0 {
        run.pc += 1;
    } else {
        run.pc = back;
    }
    Ok(Stepped::Went)
}

fn counts(
    stack: &mut Stack,
    run: &mut Runner,
    line: u32,
    operand: &Operand,
    out: u32,
    full: bool,
) -> Result<Stepped, Memory>
    requires { run.old.pc < u32.MAX }
    ensures { IfOk result (λ r. IsStep full run.old (Instr.Count line operand.now out) r run.new) }
{
    if full {
        return Ok(Stepped::Acts(Act::Spend { line }));
    }
    let number = value(stack, run.locals.as_slice(), operand.items())?;
    if number == 0 {
        run.pc = out;
        return Ok(Stepped::Went);
    }
    run.loops.push(number - 1)?;
    run.pc += 1;
    Ok(Stepped::Went)
}

fn again(run: &mut Runner, line: u32, back: u32, full: bool) -> Result<Stepped, Memory>
    requires { run.old.pc < u32.MAX }
    ensures { IfOk result (λ r. IsStep full run.old (Instr.Again line back) r run.new) }
{
    if full {
        return Ok(Stepped::Acts(Act::Spend { line }));
    }
    match run.loops.pop() {
        None => Ok(Stepped::Stuck),
        Some(0) => {
            run.pc += 1;
            Ok(Stepped::Went)
        }
        Some(left) => {
            run.loops.push(left - 1)?;
            run.pc = back;
            Ok(Stepped::Went)
        }
    }
}

fn goto(run: &mut Runner, to: u32, full: bool) -> Stepped
    ensures { IsStep full run.old (Instr.Goto to) result run.new }
{
    if run.pc < to {
        run.pc = to;
        Stepped::Jumped
    } else {
        Stepped::Stuck
    }
}

/// A handle's slot names a child from now on.
fn name_child(handles: &mut Vec<Option<Path>>, slot: u32, child: Path)
    ensures { handles.new.items ≡ slice_set handles.old.items slot (Some child) }
{
    let slot = slot as usize;
    if slot < handles.len() {
        handles[slot] = Some(child);
    }
}

fn fork(run: &mut Runner, line: u32, region: Region, slot: u32, after: u32, full: bool) -> Stepped
    requires place { run.old.pc < u32.MAX }
    requires forks { run.old.forks < u32.MAX }
    requires path { length run.old.path < 8 }
    ensures { IsStep full run.old (Instr.Fork line region slot after) result run.new }
{
    let begin = run.pc + 1;
    let Some(child) = run.path.child(run.forks) else {
        unreachable!()
    };
    name_child(&mut run.handles, slot, child.copy());
    run.forks += 1;
    run.pc = after;
    Stepped::Forks {
        line,
        region,
        begin,
        child,
    }
}

fn join(run: &mut Runner, line: u32, slot: u32, full: bool) -> Stepped
    requires { run.old.pc < u32.MAX }
    ensures { IsStep full run.old (Instr.Join line slot) result run.new }
{
    let child = match at(run.handles.as_slice(), slot as usize) {
        Some(Some(child)) => child.copy(),
        _ => return Stepped::Stuck,
    };
    run.pc += 1;
    Stepped::Acts(Act::Join { line, child })
}

fn joinstep(run: &mut Runner, line: u32, slot: u32, full: bool) -> Stepped
    requires { run.old.pc < u32.MAX }
    ensures { IsStep full run.old (Instr.JoinStep line slot) result run.new }
{
    let child = match at(run.handles.as_slice(), slot as usize) {
        Some(Some(child)) => child.copy(),
        _ => return Stepped::Stuck,
    };
    run.pc += 1;
    Stepped::Acts(Act::JoinStep { line, child })
}

/// Executes one instruction, and works its operand out on the stack; `full` says that no local statement may be executed before the next act.
pub fn step(
    stack: &mut Stack,
    run: &mut Runner,
    instr: &Instr,
    full: bool,
) -> Result<Stepped, Memory>
    requires place { run.old.pc < u32.MAX }
    requires forks { run.old.forks < u32.MAX }
    requires path { IsFork instr.now → length run.old.path < 8 }
    ensures { IfOk result (λ r. IsStep full run.old instr.now r run.new) }
{
    match instr {
        Instr::Poke { line, port, value } => poke(stack, run, *line, *port, value, full),
        Instr::Peek { line, port, into } => Ok(peek(run, *line, *port, *into, full)),
        Instr::Expect { line, port, value } => expect(stack, run, *line, *port, value, full),
        Instr::Step { line, count } => Ok(arrive(run, *line, *count, full)),
        Instr::Store { line, slot, value } => store(stack, run, *line, *slot, value, full),
        Instr::Unless { line, cond, other } => unless(stack, run, *line, cond, *other, full),
        Instr::Goto { to } => Ok(goto(run, *to, full)),
        Instr::Enter { line, cond, out } => enter(stack, run, *line, cond, *out, full),
        Instr::Turn { line, cond, back } => turn(stack, run, *line, cond, *back, full),
        Instr::Count { line, count, out } => counts(stack, run, *line, count, *out, full),
        Instr::Again { line, back } => again(run, *line, *back, full),
        Instr::Fork {
            line,
            region,
            slot,
            after,
        } => Ok(fork(run, *line, *region, *slot, *after, full)),
        Instr::Join { line, slot } => Ok(join(run, *line, *slot, full)),
        Instr::JoinStep { line, slot } => Ok(joinstep(run, *line, *slot, full)),
        Instr::End => Ok(Stepped::Acts(Act::End)),
    }
}
