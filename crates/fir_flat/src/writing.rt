//! The statements of a body, and the numbers of its signals.
ghost use Rattle.std.specs.Prelude.{◌≡◌, ◌++◌, ◌∷◌, [], true, IfOk, OnOk};
ghost use Rattle.net_core.specs.declared.tree.Ground.TheVariants as out;
ghost use Rattle.fir_flat.specs.Shapes.{shape_of};
ghost use Rattle.fir_flat.specs.Bodies.{statement, body_of};
ghost use Rattle.fir_flat.specs.Values.{Value, value};
ghost use Rattle.fir_flat.specs.Kinds.{seen};
ghost use Rattle.fir_flat.specs.Resolving.{Refers, Undriven};
ghost use Rattle.fir_flat.specs.Statements.{IsReset, connect_grounds, invalid_grounds};
ghost use Rattle.fir_flat.specs.Writing.{CountsSignals, AddsWire, AddsNode, AddsRegister, AddsInstance, Puts, Writes, WritesBlock};

use crate::counts::exact;
use crate::directory::Directory;
use crate::homes::count_at;
use crate::kinds::{Flow, Kind, Known};
use crate::partners::partners_of;
use crate::ports::put_ports;
use crate::resolve::{Reference, is_undriven, resolve, resolve_ground, resolve_used};
use crate::scope::Scope;
use crate::sizes::size_of;
use crate::statements::{
    Reset, put_connect, put_declarations, put_invalid, put_node, put_register,
};
use crate::worth::plus;
use fir_ast::{Expr, ResetPair, Stmt, Ty};
use net_core::{Ground, GroundExpr};
use sqlite_items::Items;
use std::alloc::Global;
use tb_base::Memory;

/// What is written of a body so far, and the number of the next signal.
#[derive(Drop)]
pub(crate) struct Written {
    pub(crate) next: u32,
    pub(crate) body: Vec<Ground>,
}

fn write_wire<'a>(
    line: u32,
    name: &'a [u8],
    ty: &'a Ty,
    known: &mut Scope<'a>,
    written: &mut Written,
) -> Result<(), Memory>
    ensures { OnOk result (AddsWire line name.now (shape_of ty.now) known.old known.new written.old written.new) }
{
    let size = exact(size_of(ty))?;
    let first = written.next;
    put_declarations(line, first, size, &mut written.body)?;
    written.next = plus(first, size)?;
    known.push(Known {
        name,
        kind: Kind::Of(ty),
        flow: Flow::Free,
        first,
    })?;
    Ok(())
}

fn write_node<'a>(
    alloc: Global,
    line: u32,
    name: &'a [u8],
    expr: &Expr,
    known: &mut Scope<'a>,
    written: &mut Written,
) -> Result<(), Memory>
    ensures { OnOk result (AddsNode line name.now (value (seen known.old) expr.now) known.old known.new written.old written.new) }
{
    let value = resolve_used(alloc, known, expr)?;
    let size = exact(value.kind.size())?;
    let first = written.next;
    put_node(alloc, line, first, &value, size, &mut written.body)?;
    written.next = plus(first, size)?;
    known.push(Known {
        name,
        kind: value.kind,
        flow: Flow::Fixed,
        first,
    })?;
    Ok(())
}

/// The reset of a register of a type, looked up.
fn resolve_reset<'a>(
    alloc: Global,
    known: &Scope<'a>,
    ty: &'a Ty,
    reset: &Option<ResetPair>,
) -> Result<Option<Reset<'a>>, Memory>
    ensures { IfOk result (λ r. IsReset (seen known.now) (shape_of ty.now) reset.now r) }
{
    match reset {
        None => Ok(None),
        Some(pair) => {
            let signal = resolve_used(alloc, known, &pair.signal)?;
            let init = resolve_used(alloc, known, &pair.init)?;
            let partners = partners_of(alloc, Kind::Of(ty), init.kind)?;
            Ok(Some(Reset {
                signal,
                init,
                partners,
            }))
        }
    }
}

fn write_register<'a>(
    alloc: Global,
    line: u32,
    name: &'a [u8],
    ty: &'a Ty,
    reset: &Option<ResetPair>,
    known: &mut Scope<'a>,
    written: &mut Written,
) -> Result<(), Memory>
    ensures { OnOk result (AddsRegister line name.now (shape_of ty.now) reset.now known.old known.new written.old written.new) }
{
    let size = exact(size_of(ty))?;
    let first = written.next;
    known.push(Known {
        name,
        kind: Kind::Of(ty),
        flow: Flow::Free,
        first,
    })?;
    let reset = resolve_reset(alloc, known, ty, reset)?;
    put_register(alloc, line, first, &reset, size, &mut written.body)?;
    written.next = plus(first, size)?;
    Ok(())
}

fn write_instance<'a>(
    alloc: Global,
    modules: &Directory<'a>,
    counts: &[u64],
    name: &'a [u8],
    target: &[u8],
    known: &mut Scope<'a>,
    written: &mut Written,
) -> Result<(), Memory>
    requires { CountsSignals modules.now counts.now }
    ensures { OnOk result (AddsInstance modules.now name.now target.now known.old known.new written.old written.new) }
{
    let place = modules.place_of(target);
    let ports = modules.ports_at(place);
    let count = exact(count_at(counts, place))?;
    let first = written.next;
    put_ports(alloc, ports, true, false, first, &mut written.body)?;
    written.next = plus(first, count)?;
    known.push(Known {
        name,
        kind: modules.instance_at(place),
        flow: Flow::Source,
        first,
    })?;
    Ok(())
}

/// Whether it is known of both sides of a connect that nothing is written where they are driven.
fn are_undriven(
    alloc: Global,
    known: &Scope,
    sink: &Reference,
    source: &Expr,
) -> Result<bool, Memory>
    ensures sink { IfOk result (λ b. b ≡ true → (v : Value) → Refers v sink.now → Undriven v) }
    ensures source { IfOk result (λ b. b ≡ true → Undriven (value (seen known.now) source.now)) }
{
    if sink.is_undriven() {
        let undriven = is_undriven(alloc, known, source)?;
        return Ok(undriven);
    }
    Ok(false)
}

fn write_connect(
    alloc: Global,
    line: u32,
    sink: &Expr,
    source: &Expr,
    known: &Scope,
    written: &mut Written,
) -> Result<(), Memory>
    ensures { OnOk result (Puts written.old written.new (connect_grounds line (value (seen known.now) sink.now) (value (seen known.now) source.now))) }
{
    let sink = resolve(alloc, known, sink)?;
    let undriven = are_undriven(alloc, known, &sink, source)?;
    if undriven {
        return Ok(());
    }
    let sink = sink.settled(alloc)?;
    let source = resolve_used(alloc, known, source)?;
    put_connect(alloc, line, &sink, &source, &mut written.body)
}

fn write_invalid(
    alloc: Global,
    line: u32,
    sink: &Expr,
    known: &Scope,
    written: &mut Written,
) -> Result<(), Memory>
    ensures { OnOk result (Puts written.old written.new (invalid_grounds line (value (seen known.now) sink.now))) }
{
    let sink = resolve(alloc, known, sink)?;
    if sink.is_undriven() {
        return Ok(());
    }
    let sink = sink.settled(alloc)?;
    put_invalid(alloc, line, &sink, &mut written.body)
}

/// Writes one statement, and knows what it declares.
#[cycle(write)]
fn write_stmt<'a>(
    alloc: Global,
    modules: &Directory<'a>,
    counts: &[u64],
    stmt: &'a Stmt,
    known: &mut Scope<'a>,
    written: &mut Written,
) -> Result<(), Memory>
    requires { CountsSignals modules.now counts.now }
    ensures { OnOk result (Writes modules.now (statement stmt.now) known.old known.new written.old written.new) }
{
    match stmt {
        Stmt::Wire { line, name, ty } => write_wire(*line, name.bytes(), ty, known, written),
        Stmt::Node { line, name, value } => {
            write_node(alloc, *line, name.bytes(), value, known, written)
        }
        Stmt::Reg {
            line,
            name,
            ty,
            clock: _,
            reset,
        } => write_register(alloc, *line, name.bytes(), ty, reset, known, written),
        Stmt::Inst {
            line: _,
            name,
            module,
        } => write_instance(
            alloc,
            modules,
            counts,
            name.bytes(),
            module.bytes(),
            known,
            written,
        ),
        Stmt::Connect { line, sink, value } => {
            write_connect(alloc, *line, sink, value, known, written)
        }
        Stmt::Invalid { line, sink } => write_invalid(alloc, *line, sink, known, written),
        Stmt::When {
            line,
            cond,
            taken,
            other,
        } => {
            let cond = resolve_ground(alloc, known, cond)?;
            let taken = write_block(
                alloc,
                modules,
                counts,
                taken.as_slice(),
                known,
                written.next,
            )?;
            let other = write_block(alloc, modules, counts, other.as_slice(), known, taken.next)?;
            written.put_when(*line, cond, taken.body, other)
        }
        Stmt::Skip { line: _ } => Ok(()),
        Stmt::Verif {
            line: _,
            kind: _,
            args: _,
            code: _,
            text: _,
            label: _,
        } => Ok(()),
    }
}

/// Writes a block, of which the first signal has a number. Behind it, what it declares isn't known
/// any more.
#[cycle(write)]
pub(crate) fn write_block<'a>(
    alloc: Global,
    modules: &Directory<'a>,
    counts: &[u64],
    stmts: &'a [Stmt],
    known: &mut Scope<'a>,
    first: u32,
) -> Result<Written, Memory>
    requires { CountsSignals modules.now counts.now }
    ensures written { IfOk result (λ w. WritesBlock modules.now (body_of stmts.now) known.old first w) }
    ensures known { OnOk result (known.new ≡ known.old) }
{
    let before = known.len();
    let mut written = Written {
        next: first,
        body: Vec::new(alloc),
    };
    let mut k = 0;
    while k < stmts.len() {
        write_stmt(alloc, modules, counts, &stmts[k], known, &mut written)?;
        k += 1;
    }
    known.truncate(before);
    Ok(written)
}

impl Written {
    fn put_when(
        &mut self,
        line: u32,
        cond: GroundExpr,
        taken: Vec<Ground>,
        other: Written,
    ) -> Result<(), Memory>
        ensures body { OnOk result (self.new.body.items ≡ self.old.body.items ++ out.When line cond taken.items other.body.items ∷ []) }
        ensures next { OnOk result (self.new.next ≡ other.next) }
    {
        self.next = other.next;
        self.body.push(Ground::When {
            line,
            cond,
            taken: Items::from_vec(taken),
            other: Items::from_vec(other.body),
        })?;
        Ok(())
    }
}
