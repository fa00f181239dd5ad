//! What a body declares: its signals and instances, in text order.
ghost use Rattle.std.specs.Prelude.{◌≡◌, ◌++◌, ◌∷◌, [], codes, false, IfOk, OnOk};
ghost use Rattle.fir_flat.specs.Shapes.{size};
ghost use Rattle.fir_flat.specs.Bodies.{statement, body_of};
ghost use Rattle.fir_flat.specs.Values.{bound};
ghost use Rattle.fir_flat.specs.Modules.{place_of, instance, signals_in};
ghost use Rattle.fir_flat.specs.Elaboration.{opened, opened_at};
ghost use Rattle.fir_flat.specs.Kinds.{kind_shape};
ghost use Rattle.fir_flat.specs.Signals.{signals_of};
ghost use Rattle.fir_flat.specs.Writing.{CountsSignals};
ghost use Rattle.fir_flat.specs.Listing.{Declares, Lists, ListsBlock, one_role};

use crate::counts::exact;
use crate::directory::Directory;
use crate::homes::count_at;
use crate::kinds::{Flow, Kind, Known};
use crate::scope::Scope;
use crate::signals::{Declared, Entry, Opening, put_kind_signals};
use crate::weights::weigh;
use crate::worth::plus;
use fir_ast::Stmt;
use net_core::Role;
use std::alloc::Global;
use tb_base::{Memory, Name, put};

/// What is listed of a body so far, and the number of the next signal.
#[derive(Drop)]
pub(crate) struct Listed {
    pub(crate) next: u32,
    pub(crate) entries: Vec<Entry>,
}

/// A name behind a prefix.
pub(crate) fn full_name(alloc: Global, prefix: &[u8], name: &[u8]) -> Result<Vec<u8>, Memory>
    ensures { IfOk result (λ n. n.items ≡ prefix.now ++ name.now) }
{
    let mut full = Vec::from_slice(alloc, prefix)?;
    put(&mut full, name)?;
    Ok(full)
}

/// What stands in front of the names in an instance.
fn inner_prefix(alloc: Global, prefix: &[u8], name: &[u8]) -> Result<Name, Memory>
    ensures { IfOk result (λ n. n ≡ prefix.now ++ (name.now ++ codes ".")) }
{
    let mut full = full_name(alloc, prefix, name)?;
    put(&mut full, b".")?;
    Ok(Name::of(full))
}

/// Lists the signals of a name, and knows it.
fn list_name<'a>(
    alloc: Global,
    prefix: &[u8],
    declared: Declared,
    name: &'a [u8],
    kind: Kind<'a>,
    flow: Flow,
    known: &mut Scope<'a>,
    listed: &mut Listed,
) -> Result<(), Memory>
    ensures { OnOk result (Declares known.old known.new listed.old listed.new (bound name.now (kind_shape kind.entry) flow listed.old.next) (signals_of declared (prefix.now ++ name.now) false (kind_shape kind.entry)) (size (kind_shape kind.entry))) }
{
    let size = exact(kind.size())?;
    let first = listed.next;
    let full = full_name(alloc, prefix, name)?;
    put_kind_signals(alloc, declared, &full, kind, &mut listed.entries)?;
    listed.next = plus(first, size)?;
    known.push(Known {
        name,
        kind,
        flow,
        first,
    })?;
    Ok(())
}

fn list_instance<'a>(
    alloc: Global,
    modules: &Directory<'a>,
    counts: &[u64],
    prefix: &[u8],
    name: &'a [u8],
    target: &[u8],
    known: &mut Scope<'a>,
    listed: &mut Listed,
) -> Result<(), Memory>
    requires { CountsSignals modules.now counts.now }
    ensures { OnOk result (Declares known.old known.new listed.old listed.new (instance modules.now name.now target.now listed.old.next) (opened (opened_at name.now (place_of modules.now target.now) listed.old.next prefix.now) ∷ []) (signals_in modules.now (place_of modules.now target.now))) }
{
    let place = modules.place_of(target);
    let kind = modules.instance_at(place);
    let count = exact(count_at(counts, place))?;
    let first = listed.next;
    let inner = inner_prefix(alloc, prefix, name)?;
    listed.entries.push(Entry::Instance(Opening {
        target: place,
        first,
        prefix: inner,
        top: false,
    }))?;
    listed.next = plus(first, count)?;
    known.push(Known {
        name,
        kind,
        flow: Flow::Source,
        first,
    })?;
    Ok(())
}

/// Lists what one statement declares, and knows it.
#[cycle(list)]
fn list_stmt<'a>(
    alloc: Global,
    modules: &Directory<'a>,
    counts: &[u64],
    prefix: &[u8],
    stmt: &'a Stmt,
    known: &mut Scope<'a>,
    listed: &mut Listed,
) -> Result<(), Memory>
    requires { CountsSignals modules.now counts.now }
    ensures { OnOk result (Lists modules.now prefix.now (statement stmt.now) known.old known.new listed.old listed.new) }
{
    match stmt {
        Stmt::Wire { line, name, ty } => {
            let declared = of_role(*line, Role::Inner, true);
            let kind = Kind::Of(ty);
            list_name(
                alloc,
                prefix,
                declared,
                name.bytes(),
                kind,
                Flow::Free,
                known,
                listed,
            )
        }
        Stmt::Node { line, name, value } => {
            let declared = of_role(*line, Role::Node, false);
            let kind = weigh(known, value).kind;
            list_name(
                alloc,
                prefix,
                declared,
                name.bytes(),
                kind,
                Flow::Fixed,
                known,
                listed,
            )
        }
        Stmt::Reg {
            line,
            name,
            ty,
            clock: _,
            reset: _,
        } => {
            let declared = of_role(*line, Role::Reg, true);
            let kind = Kind::Of(ty);
            list_name(
                alloc,
                prefix,
                declared,
                name.bytes(),
                kind,
                Flow::Free,
                known,
                listed,
            )
        }
        Stmt::Inst {
            line: _,
            name,
            module,
        } => {
            let (name, target) = (name.bytes(), module.bytes());
            list_instance(alloc, modules, counts, prefix, name, target, known, listed)
        }
        Stmt::Connect {
            line: _,
            sink: _,
            value: _,
        } => Ok(()),
        Stmt::Invalid { line: _, sink: _ } => Ok(()),
        Stmt::When {
            line: _,
            cond: _,
            taken,
            other,
        } => {
            list_block(
                alloc,
                modules,
                counts,
                prefix,
                taken.as_slice(),
                known,
                listed,
            )?;
            list_block(
                alloc,
                modules,
                counts,
                prefix,
                other.as_slice(),
                known,
                listed,
            )
        }
        Stmt::Skip { line: _ } => Ok(()),
        Stmt::Verif {
            line: _,
            kind: _,
            args: _,
            code: _,
            text: _,
            label: _,
        } => Ok(()),
    }
}

/// Lists what a block declares. Behind it, that isn't known any more.
#[cycle(list)]
pub(crate) fn list_block<'a>(
    alloc: Global,
    modules: &Directory<'a>,
    counts: &[u64],
    prefix: &[u8],
    stmts: &'a [Stmt],
    known: &mut Scope<'a>,
    listed: &mut Listed,
) -> Result<(), Memory>
    requires { CountsSignals modules.now counts.now }
    ensures listed { OnOk result (ListsBlock modules.now prefix.now (body_of stmts.now) known.old listed.old listed.new) }
    ensures known { OnOk result (known.new ≡ known.old) }
{
    let before = known.len();
    let mut k = 0;
    while k < stmts.len() {
        list_stmt(alloc, modules, counts, prefix, &stmts[k], known, listed)?;
        k += 1;
    }
    known.truncate(before);
    Ok(())
}

/// Signals of one role.
fn of_role(line: u32, role: Role, written: bool) -> Declared
    ensures { result ≡ one_role line role written }
{
    Declared {
        line,
        along: role,
        against: role,
        written,
    }
}
