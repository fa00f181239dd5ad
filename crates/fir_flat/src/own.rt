//! What a module counts itself, without its instances: its signals, its parts, and which modules its
//! instances are of.
ghost use Rattle.std.specs.Prelude.{◌≡◌, ◌≤◌, ◌+◌, ◌*◌, ◌++◌, ◌∷◌, [], true, ℕ, OnOk, IfOk, length, take, map};
ghost use Rattle.fir_flat.specs.Bodies.{statement, body_of};
ghost use Rattle.fir_flat.specs.Modules.{unplaced, own_signals, targets};
ghost use Rattle.fir_flat.specs.Measures.{Measure, measure, connect_weight, driven, reached, reset_weight, own_weight};
ghost use Rattle.fir_flat.specs.Values.{bound};
ghost use Rattle.fir_flat.specs.Counts.{cut};
ghost use Rattle.fir_flat.specs.Kinds.{kind_shape, seen, Weighs};
ghost use Rattle.fir_flat.specs.Tallies.{Moves, Tallies};

use crate::counts::{CUT, product, sum};
use crate::directory::Directory;
use crate::kinds::{Flow, Kind, Known};
use crate::scope::Scope;
use crate::sizes::{size_of, size_of_ports};
use crate::types::Types;
use crate::weights::{Weight, weigh};
use fir_ast::{Expr, Module, Port, ResetPair, Stmt};
use std::alloc::Global;
use tb_base::Memory;

/// What is counted so far: signals, parts, and the places of the instances' modules.
#[derive(Drop)]
pub(crate) struct Tally {
    pub(crate) signals: u64,
    pub(crate) parts: u64,
    pub(crate) instances: Vec<usize>,
}

impl Tally {
    /// Whether the parts are past the limit, so that no further ones count.
    fn is_over(&self) -> bool
        ensures { result ≡ true → 4194305 ≤ self.now.parts }
    {
        self.parts >= CUT
    }

    fn add(&mut self, signals: u64, parts: u64)
        ensures signals { self.new.signals ≡ cut (self.old.signals + signals) }
        ensures parts { self.new.parts ≡ cut (self.old.parts + parts) }
        ensures instances { self.new.instances ≡ self.old.instances }
    {
        self.signals = sum(self.signals, signals);
        self.parts = sum(self.parts, parts);
    }
}

fn declare<'a>(
    known: &mut Scope<'a>,
    name: &'a [u8],
    kind: Kind<'a>,
    flow: Flow,
) -> Result<(), Memory>
    ensures names { OnOk result (seen known.new ≡ seen known.old ++ bound name.now (kind_shape kind.entry) flow 0 ∷ []) }
    ensures kept { OnOk result (take (length known.old) known.new ≡ known.old) }
{
    known.push(Known {
        name,
        kind,
        flow,
        first: 0,
    })?;
    Ok(())
}

/// A declaration and a connect for each ground part of a node.
#[tactic(auto, using(crate::proofs::Cutting::cut_product))]
fn node_weight(size: u64, nodes: u64) -> u64
    ensures { (n e : ℕ) → size ≡ cut n → nodes ≡ cut e → result ≡ cut (n * (2 + e)) }
{
    product(size, sum(2, nodes))
}

/// A declaration with its reset for each ground part of a register.
#[tactic(auto, using(crate::proofs::Cutting::cut_product))]
fn reg_weight(size: u64, nodes: u64) -> u64
    ensures { (n e : ℕ) → size ≡ cut n → nodes ≡ cut e → result ≡ cut (n * (1 + e)) }
{
    product(size, sum(1, nodes))
}

/// The parts that drive one ground part, where the connect has so many nodes.
#[tactic(auto, using(crate::proofs::Cutting::cut_product))]
fn driven_weight(sink: Weight, nodes: u64) -> u64
    ensures { (m : Measure) (n : ℕ) → Weighs m sink.entry → nodes ≡ cut n → result ≡ cut (driven m n) }
{
    sum(product(sink.times, sum(1, nodes)), sink.round)
}

#[tactic(auto, using(crate::proofs::Cutting::cut_product))]
fn connect_weight(sink: Weight, value: Weight) -> u64
    ensures { (m e : Measure) → Weighs m sink.entry → Weighs e value.entry → result ≡ cut (connect_weight m e) }
{
    let along = product(sink.kind.facing(false), driven_weight(sink, value.nodes));
    let back = product(sink.kind.facing(true), driven_weight(value, sink.nodes));
    sum(along, back)
}

/// The ground parts of a sink that an invalidation reaches.
fn reached_parts(sink: Weight) -> u64
    ensures { (m : Measure) → Weighs m sink.entry → result ≡ cut (reached m) }
{
    let along = if sink.flow.may_be_driven() {
        sink.kind.facing(false)
    } else {
        0
    };
    let back = if sink.flow.turned().may_be_driven() {
        sink.kind.facing(true)
    } else {
        0
    };
    sum(along, back)
}

#[tactic(auto, using(crate::proofs::Cutting::cut_product))]
fn invalid_weight(sink: Weight) -> u64
    ensures { (m : Measure) → Weighs m sink.entry → result ≡ cut (reached m * driven m 0) }
{
    product(reached_parts(sink), driven_weight(sink, 0))
}

fn weigh_reset(known: &Scope, reset: &Option<ResetPair>) -> u64
    ensures { result ≡ cut (reset_weight (seen known.now) reset.now) }
{
    match reset {
        None => 0,
        Some(pair) => {
            let signal = weigh(known, &pair.signal);
            let init = weigh(known, &pair.init);
            sum(signal.nodes, init.nodes)
        }
    }
}

/// Counts a connect. Where the parts are past the limit, its aggregates aren't gone over.
fn count_connect(known: &Scope, sink: &Expr, value: &Expr, tally: &mut Tally)
    ensures signals { tally.new.signals ≡ cut (tally.old.signals + 0) }
    ensures parts { tally.new.parts ≡ cut (tally.old.parts + connect_weight (measure (seen known.now) sink.now) (measure (seen known.now) value.now)) }
    ensures instances { tally.new.instances ≡ tally.old.instances }
{
    if tally.is_over() {
        tally.add(0, 0);
        return;
    }
    let sink = weigh(known, sink);
    let value = weigh(known, value);
    tally.add(0, connect_weight(sink, value));
}

/// Counts an invalidation, as `count_connect`.
fn count_invalid(known: &Scope, sink: &Expr, tally: &mut Tally)
    ensures signals { tally.new.signals ≡ cut (tally.old.signals + 0) }
    ensures parts { tally.new.parts ≡ cut (tally.old.parts + reached (measure (seen known.now) sink.now) * driven (measure (seen known.now) sink.now) 0) }
    ensures instances { tally.new.instances ≡ tally.old.instances }
{
    if tally.is_over() {
        tally.add(0, 0);
        return;
    }
    let sink = weigh(known, sink);
    tally.add(0, invalid_weight(sink));
}

/// Counts one statement, and knows what it declares.
#[cycle(count_own)]
fn count_stmt<'a>(
    modules: &Directory<'a>,
    stmt: &'a Stmt,
    known: &mut Scope<'a>,
    tally: &mut Tally,
) -> Result<(), Memory>
    ensures { OnOk result (Moves modules.now (statement stmt.now) known.old known.new tally.old tally.new) }
{
    match stmt {
        Stmt::Wire { line: _, name, ty } => {
            let size = size_of(ty);
            tally.add(size, size);
            declare(known, name.bytes(), Kind::Of(ty), Flow::Free)?;
            Ok(())
        }
        Stmt::Node {
            line: _,
            name,
            value,
        } => {
            let value = weigh(known, value);
            let size = value.kind.size();
            tally.add(size, node_weight(size, value.nodes));
            declare(known, name.bytes(), value.kind, Flow::Fixed)?;
            Ok(())
        }
        Stmt::Reg {
            line: _,
            name,
            ty,
            clock: _,
            reset,
        } => {
            declare(known, name.bytes(), Kind::Of(ty), Flow::Free)?;
            let size = size_of(ty);
            tally.add(size, reg_weight(size, weigh_reset(known, reset)));
            Ok(())
        }
        Stmt::Inst {
            line: _,
            name,
            module,
        } => {
            let place = modules.place_of(module.bytes());
            tally.add(0, 1);
            tally.instances.push(place)?;
            let kind = modules.instance_at(place);
            declare(known, name.bytes(), kind, Flow::Source)?;
            Ok(())
        }
        Stmt::Connect {
            line: _,
            sink,
            value,
        } => {
            count_connect(known, sink, value, tally);
            Ok(())
        }
        Stmt::Invalid { line: _, sink } => {
            count_invalid(known, sink, tally);
            Ok(())
        }
        Stmt::When {
            line: _,
            cond,
            taken,
            other,
        } => {
            let cond = weigh(known, cond);
            tally.add(0, sum(1, cond.nodes));
            count_block(modules, taken.as_slice(), known, tally)?;
            count_block(modules, other.as_slice(), known, tally)?;
            Ok(())
        }
        Stmt::Skip { line: _ } => Ok(()),
        Stmt::Verif {
            line: _,
            kind: _,
            args: _,
            code: _,
            text: _,
            label: _,
        } => Ok(()),
    }
}

/// Counts a block. Behind it, what it declares isn't known any more.
#[cycle(count_own)]
fn count_block<'a>(
    modules: &Directory<'a>,
    stmts: &'a [Stmt],
    known: &mut Scope<'a>,
    tally: &mut Tally,
) -> Result<(), Memory>
    ensures counted { OnOk result (Tallies modules.now (body_of stmts.now) known.old tally.old tally.new) }
    ensures known { OnOk result (known.new ≡ known.old) }
{
    let before = known.len();
    let mut k = 0;
    while k < stmts.len() {
        count_stmt(modules, &stmts[k], known, tally)?;
        k += 1;
    }
    known.truncate(before);
    Ok(())
}

/// The names of the ports.
fn known_ports<'a>(
    alloc: Global,
    types: &'a Types<'a>,
    ports: &'a [Port],
) -> Result<Scope<'a>, Memory>
    ensures { IfOk result (λ known. seen known ≡ map unplaced ports.now) }
{
    let mut known = Scope::new(alloc, types);
    for port in ports {
        let flow = if port.output {
            Flow::Sink
        } else {
            Flow::Source
        };
        known.push(Known {
            name: port.name.bytes(),
            kind: Kind::Of(&port.ty),
            flow,
            first: 0,
        })?;
    }
    Ok(known)
}

/// Counts a module. The time is linear in the size of its text, but for the look-ups of fields.
pub(crate) fn tally_of<'a>(
    alloc: Global,
    modules: &Directory<'a>,
    home: &'a Module,
) -> Result<Tally, Memory>
    ensures signals { IfOk result (λ t. cut t.signals ≡ cut (own_signals modules.now home.now)) }
    ensures parts { IfOk result (λ t. cut t.parts ≡ cut (own_weight modules.now home.now)) }
    ensures targets { IfOk result (λ t. t.instances.items ≡ targets modules.now (body_of home.now.body)) }
{
    let mut known = known_ports(alloc, modules.types(), home.ports.items())?;
    let size = size_of_ports(home.ports.items());
    let mut tally = Tally {
        signals: size,
        parts: size,
        instances: Vec::new(alloc),
    };
    count_block(modules, home.body.items(), &mut known, &mut tally)?;
    Ok(tally)
}
