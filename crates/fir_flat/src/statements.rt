//! The statements that declarations, connects and invalidations give, one for each ground part.
ghost use Rattle.std.specs.Prelude.{◌≡◌, ◌++◌, ℕ, List, Option, map, IfOk, OnOk};
ghost use Rattle.std.specs.List.{range_with_len};
ghost use Rattle.fir_ast.specs.declared.tree.ResetPair.{ResetPair};
ghost use Rattle.fir_flat.specs.Shapes.{Shape};
ghost use Rattle.fir_flat.specs.Values.{Bound, Value};
ghost use Rattle.fir_flat.specs.Elaboration.{declare_all, connect_part, reg_part};
ghost use Rattle.fir_flat.specs.Resolving.{Resolves};
ghost use Rattle.fir_flat.specs.Statements.{node_grounds, IsReset, reset_at, connect_grounds, invalid_part, invalid_grounds};

use crate::partners::partners_of;
use crate::parts::parts_of_kind;
use crate::resolve::Resolved;
use crate::worth::{number_at, plus};
use net_core::{Ground, GroundReset, Signal};
use std::alloc::Global;
use tb_base::Memory;

/// The reset of a register: for each of the register's ground parts the place of its initial
/// value's.
#[derive(Drop)]
pub(crate) struct Reset<'a> {
    pub(crate) signal: Resolved<'a>,
    pub(crate) init: Resolved<'a>,
    pub(crate) partners: Vec<u32>,
}

/// Adds a declaration for each of so many signals.
pub(crate) fn put_declarations(
    line: u32,
    first: u32,
    count: u32,
    out: &mut Vec<Ground>,
) -> Result<(), Memory>
    ensures { OnOk result (out.new.items ≡ out.old.items ++ declare_all line first count) }
{
    for k in 0..count {
        let signal = Signal(plus(first, k)?);
        out.push(Ground::Declare {
            signal,
            line,
            reset: None,
        })?;
    }
    Ok(())
}

/// Adds a declaration and a connect for each ground part of a node.
pub(crate) fn put_node(
    alloc: Global,
    line: u32,
    first: u32,
    value: &Resolved,
    count: u32,
    out: &mut Vec<Ground>,
) -> Result<(), Memory>
    ensures { (v : Value) → Resolves v value.now → OnOk result (out.new.items ≡ out.old.items ++ node_grounds line first v count) }
{
    for k in 0..count {
        let signal = Signal(plus(first, k)?);
        out.push(Ground::Declare {
            signal,
            line,
            reset: None,
        })?;
        let part = value.part(alloc, k)?;
        out.push(Ground::Set {
            line,
            sink: signal,
            value: Some(part),
        })?;
    }
    Ok(())
}

fn reset_at(alloc: Global, reset: &Option<Reset>, k: u32) -> Result<Option<GroundReset>, Memory>
    ensures { (known : List Bound) (t : Shape) (written : Option ResetPair) → IsReset known t written reset.now → IfOk result (λ r. r ≡ reset_at known t written k) }
{
    match reset {
        None => Ok(None),
        Some(pair) => {
            let signal = pair.signal.part(alloc, 0)?;
            let partner = number_at(&pair.partners, k);
            let init = pair.init.part(alloc, partner)?;
            Ok(Some(GroundReset { signal, init }))
        }
    }
}

/// Adds a declaration with its reset for each ground part of a register.
pub(crate) fn put_register(
    alloc: Global,
    line: u32,
    first: u32,
    reset: &Option<Reset>,
    count: u32,
    out: &mut Vec<Ground>,
) -> Result<(), Memory>
    ensures { (known : List Bound) (t : Shape) (written : Option ResetPair) → IsReset known t written reset.now → OnOk result (out.new.items ≡ out.old.items ++ map (reg_part line first known t written) (range_with_len 0 count)) }
{
    for k in 0..count {
        let signal = Signal(plus(first, k)?);
        let reset = reset_at(alloc, reset, k)?;
        out.push(Ground::Declare {
            signal,
            line,
            reset,
        })?;
    }
    Ok(())
}

/// Adds the connect of two ground parts, turned round where the part goes against the sink.
fn put_connect_part(
    alloc: Global,
    line: u32,
    against: bool,
    sink: &Resolved,
    k: u32,
    value: &Resolved,
    partner: u32,
    out: &mut Vec<Ground>,
) -> Result<(), Memory>
    ensures { (s v : Value) → Resolves s sink.now → Resolves v value.now → OnOk result (out.new.items ≡ out.old.items ++ connect_part line against s k v partner) }
{
    if against {
        let part = Some(sink.part(alloc, k)?);
        value.drive(alloc, line, partner, &part, out)
    } else {
        let part = Some(value.part(alloc, partner)?);
        sink.drive(alloc, line, k, &part, out)
    }
}

/// Adds one connect for each ground part, in the field order of the sink.
pub(crate) fn put_connect(
    alloc: Global,
    line: u32,
    sink: &Resolved,
    value: &Resolved,
    out: &mut Vec<Ground>,
) -> Result<(), Memory>
    ensures { (s v : Value) → Resolves s sink.now → Resolves v value.now → OnOk result (out.new.items ≡ out.old.items ++ connect_grounds line s v) }
{
    let parts = parts_of_kind(alloc, sink.kind)?;
    let partners = partners_of(alloc, sink.kind, value.kind)?;
    let mut k = 0;
    while (k as usize) < parts.len() {
        let against = parts[k as usize].against;
        let partner = number_at(&partners, k);
        put_connect_part(alloc, line, against, sink, k, value, partner, out)?;
        k = plus(k, 1)?;
    }
    Ok(())
}

/// Adds the invalidation of a ground part, where it may be driven.
fn put_invalid_part(
    alloc: Global,
    line: u32,
    against: bool,
    sink: &Resolved,
    k: u32,
    out: &mut Vec<Ground>,
) -> Result<(), Memory>
    ensures { (v : Value) → Resolves v sink.now → OnOk result (out.new.items ≡ out.old.items ++ invalid_part line against v k) }
{
    let flow = if against {
        sink.flow.turned()
    } else {
        sink.flow
    };
    if flow.may_be_driven() {
        return sink.drive(alloc, line, k, &None, out);
    }
    Ok(())
}

/// Adds an invalidation for each ground part that may be driven.
pub(crate) fn put_invalid(
    alloc: Global,
    line: u32,
    sink: &Resolved,
    out: &mut Vec<Ground>,
) -> Result<(), Memory>
    ensures { (v : Value) → Resolves v sink.now → OnOk result (out.new.items ≡ out.old.items ++ invalid_grounds line v) }
{
    let parts = parts_of_kind(alloc, sink.kind)?;
    let mut k = 0;
    while (k as usize) < parts.len() {
        put_invalid_part(alloc, line, parts[k as usize].against, sink, k, out)?;
        k = plus(k, 1)?;
    }
    Ok(())
}
