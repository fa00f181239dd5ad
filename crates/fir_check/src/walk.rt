//! The walk over a module: its ports, then its statements with the blocks inside them.
ghost use Rattle.std.specs.Prelude.{◌≡◌, ◌+◌, if◌then◌else◌, List, flat_map, length, map, OnOk, IfOk};
ghost use Rattle.fir_ast.specs.declared.tree.Ty.{Ty};
ghost use Rattle.fir_check.specs.declared.thing.Flow.TheVariants.{Sink, Source};
ghost use Rattle.fir_check.specs.Seen.{meant, type_at};
ghost use Rattle.fir_check.specs.KnownSeen.{seen};
ghost use Rattle.fir_check.specs.Names.{firsts};
ghost use Rattle.fir_check.specs.Numbers.{ComesNext, own_types, port_types, types_in, types_of};
ghost use Rattle.fir_check.specs.Scopes.{thing, port_known, port_name, in_turn, in_block, stmt_found};
ghost use Rattle.fir_check.specs.Places.{lowered};
ghost use Rattle.fir_check.specs.Walking.{Walked, body_breaks, head_of, names_behind, stmt_breaks};

use crate::best::{Best, Rule};
use crate::scope::Scope;
use crate::statements::{declare, line_of, take_number, tell};
use crate::surroundings::Surroundings;
use crate::thing::{Flow, Thing};
use fir_ast::{Module, Port, Stmt};
use std::alloc::Global;
use tb_base::Memory;

/// Takes note of the rules that a statement itself breaks, and adds what it declares. It isn't judged
/// where an earlier line is known to break a rule.
fn note_stmt(
    alloc: Global,
    around: Surroundings,
    stmt: &Stmt,
    scope: &mut Scope,
    next: &mut usize,
    best: &mut Best,
) -> Result<(), Memory>
    requires { ComesNext around.types.now around.declared.now next.old (own_types (head_of stmt.now)) }
    ensures noted { OnOk result (best.new ≡ lowered best.old (stmt_breaks around.entry.modules.now around.entry.home.now (seen around.entry.types.now scope.old) (head_of stmt.now))) }
    ensures names { OnOk result (seen around.entry.types.now scope.new ≡ names_behind around.entry.modules.now (seen around.entry.types.now scope.old) (head_of stmt.now)) }
    ensures next { OnOk result (next.new ≡ next.old + length (own_types (head_of stmt.now))) }
{
    let line = line_of(stmt);
    if !best.is_news(Rule::NoMain, line) {
        return declare(alloc, around, stmt, scope, next);
    }
    let broken = tell(alloc, around, stmt, scope, next)?;
    broken.note(line, best);
    Ok(())
}

/// Walks over a statement and the blocks in it.
#[cycle(walk)]
#[tactic(auto, using(crate::proofs::Numbering::own_comes))]
fn walk_stmt(
    alloc: Global,
    around: Surroundings,
    stmt: &Stmt,
    scope: &mut Scope,
    next: &mut usize,
    best: &mut Best,
) -> Result<(), Memory>
    requires { ComesNext around.types.now around.declared.now next.old (types_of stmt.now) }
    ensures walked { OnOk result (Walked around.entry.modules.now around.entry.home.now (λ rule. stmt_found around.entry.modules.now rule stmt.now) (seen around.entry.types.now scope.old) best.old (seen around.entry.types.now scope.new) best.new) }
    ensures next { OnOk result (next.new ≡ next.old + length (types_of stmt.now)) }
{
    note_stmt(alloc, around, stmt, scope, next, best)?;
    match stmt {
        Stmt::When {
            line: _,
            cond: _,
            taken,
            other,
        } => {
            walk_block(alloc, around, taken.as_slice(), scope, next, best)?;
            walk_block(alloc, around, other.as_slice(), scope, next, best)?;
            Ok(())
        }
        _ => Ok(()),
    }
}

/// Walks over a block, whose names are hidden behind it.
#[cycle(walk)]
fn walk_block(
    alloc: Global,
    around: Surroundings,
    body: &[Stmt],
    scope: &mut Scope,
    next: &mut usize,
    best: &mut Best,
) -> Result<(), Memory>
    requires { ComesNext around.types.now around.declared.now next.old (flat_map types_of body.now) }
    ensures walked { OnOk result (Walked around.entry.modules.now around.entry.home.now (λ rule. in_block (map (stmt_found around.entry.modules.now rule) body.now)) (seen around.entry.types.now scope.old) best.old (seen around.entry.types.now scope.new) best.new) }
    ensures next { OnOk result (next.new ≡ next.old + length (flat_map types_of body.now)) }
{
    let outside = scope.len();
    walk_all(alloc, around, body, scope, next, best)?;
    scope.hide_from(outside);
    Ok(())
}

/// Walks over statements, one after another.
#[cycle(walk)]
#[tactic(auto, using(crate::proofs::Numbering::left_here))]
fn walk_all(
    alloc: Global,
    around: Surroundings,
    body: &[Stmt],
    scope: &mut Scope,
    next: &mut usize,
    best: &mut Best,
) -> Result<(), Memory>
    requires { ComesNext around.types.now around.declared.now next.old (flat_map types_of body.now) }
    ensures walked { OnOk result (Walked around.entry.modules.now around.entry.home.now (λ rule. in_turn (map (stmt_found around.entry.modules.now rule) body.now)) (seen around.entry.types.now scope.old) best.old (seen around.entry.types.now scope.new) best.new) }
    ensures next { OnOk result (next.new ≡ next.old + length (flat_map types_of body.now)) }
{
    for stmt in body {
        walk_stmt(alloc, around, stmt, scope, next, best)?;
    }
    Ok(())
}

/// What a port stands for in its module, where its type has this number.
fn thing_of_port(port: &Port, number: usize) -> Thing
    ensures { (types : List Ty) → type_at types number ≡ port.now.ty → meant types result ≡ thing port.now.ty (if port.now.output then Sink else Source) }
{
    if port.output {
        Thing::new(number, Flow::Sink)
    } else {
        Thing::new(number, Flow::Source)
    }
}

/// The names of a module's ports.
fn scope_of_ports(
    alloc: Global,
    around: Surroundings,
    ports: &[Port],
    next: &mut usize,
) -> Result<Scope, Memory>
    requires { ComesNext around.types.now around.declared.now next.old (flat_map port_types ports.now) }
    ensures names { IfOk result (λ scope. seen around.entry.types.now scope ≡ map port_known (firsts port_name ports.now)) }
    ensures next { OnOk result (next.new ≡ next.old + length (flat_map port_types ports.now)) }
{
    let mut scope = Scope::new(alloc);
    for port in ports {
        let number = take_number(around, &port.ty, next);
        scope.add(alloc, port.name.bytes(), Some(thing_of_port(port, number)))?;
    }
    Ok(scope)
}

/// Takes note of the statements of a module that break a rule. The time is linear in their size; in the
/// first that breaks one, types of different shapes may be compared besides.
pub fn note_statements(
    alloc: Global,
    around: Surroundings,
    next: &mut usize,
    best: &mut Best,
) -> Result<(), Memory>
    requires { ComesNext around.types.now around.declared.now next.old (types_in around.home.now) }
    ensures best { OnOk result (best.new ≡ lowered best.old (body_breaks around.entry.modules.now around.entry.home.now)) }
    ensures next { OnOk result (next.new ≡ next.old + length (types_in around.entry.home.now)) }
{
    let mut scope = scope_of_ports(alloc, around, around.home.ports.items(), next)?;
    walk_all(
        alloc,
        around,
        around.home.body.items(),
        &mut scope,
        next,
        best,
    )?;
    Ok(())
}
