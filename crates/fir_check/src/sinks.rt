//! The ports of instances that a module connects.
ghost use Rattle.std.specs.Prelude.{◌≡◌, ◌∷◌, [], OnOk, IfOk, flat_map};
ghost use Rattle.fir_check.specs.Driven.{has_pair, sinks_of, GainsPair, GainsPorts, DrivenBy};

use fir_ast::{Expr, Module, Stmt};
use indexmap::IndexSet;
use std::alloc::Global;
use std::marker::Model;
use tb_base::Memory;

/// A port of an instance, by their names.
#[derive(Clone, Debug, Drop, Hash, PartialEq, Eq)]
struct PortOf {
    instance: Vec<u8>,
    port: Vec<u8>,
}

/// Ports of instances. Contracts see the list of their names.
#[derive(Drop)]
pub struct PortSinks {
    ports: IndexSet<PortOf>,
}

impl Model for PortSinks {
    ghost use Rattle.std.specs.Prelude.{List, ℕ, map};

    ghost Value = { List (List ℕ × List ℕ) };

    ghost view = { λ s. map (λ p. (p.instance.items, p.port.items)) s.ports.keys };
}

impl PortSinks {
    /// None. Takes no memory.
    pub fn new(alloc: Global) -> PortSinks
        ensures { result ≡ [] }
    {
        PortSinks {
            ports: IndexSet::new(alloc),
        }
    }

    /// Whether this port of this instance is one of them. The time is that of a look-up.
    pub fn has(&self, alloc: Global, instance: &[u8], port: &[u8]) -> Result<bool, Memory>
        ensures { IfOk result (λ b. b ≡ has_pair instance.now port.now self.now) }
    {
        let instance = Vec::from_slice(alloc, instance)?;
        let port = Vec::from_slice(alloc, port)?;
        let sought = PortOf { instance, port };
        Ok(self.ports.contains(&sought))
    }
}

impl PortSinks {
    /// Adds a port of an instance.
    fn add(&mut self, alloc: Global, instance: &[u8], port: &[u8]) -> Result<(), Memory>
        ensures { OnOk result (GainsPair instance.now port.now self.old self.new) }
    {
        let instance = Vec::from_slice(alloc, instance)?;
        let port = Vec::from_slice(alloc, port)?;
        self.ports.insert(PortOf { instance, port })?;
        Ok(())
    }
}

/// Adds a connect's sink, if it is a port of an instance.
fn gather_sink(alloc: Global, sink: &Expr, sinks: &mut PortSinks) -> Result<(), Memory>
    ensures { OnOk result (GainsPorts (sink.now ∷ []) sinks.old sinks.new) }
{
    match sink {
        Expr::Part(of, port) => match of.get() {
            Expr::Ident(instance) => sinks.add(alloc, instance.bytes(), port.bytes()),
            _ => Ok(()),
        },
        _ => Ok(()),
    }
}

/// Adds the ports of instances that are sinks of connects in a statement.
#[cycle(gather)]
fn gather(alloc: Global, stmt: &Stmt, sinks: &mut PortSinks) -> Result<(), Memory>
    ensures { OnOk result (GainsPorts (sinks_of stmt.now) sinks.old sinks.new) }
{
    match stmt {
        Stmt::Connect {
            line: _,
            sink,
            value: _,
        } => gather_sink(alloc, sink, sinks),
        Stmt::When {
            line: _,
            cond: _,
            taken,
            other,
        } => {
            gather_all(alloc, taken.as_slice(), sinks)?;
            gather_all(alloc, other.as_slice(), sinks)?;
            Ok(())
        }
        _ => Ok(()),
    }
}

/// Adds the ports of instances that are sinks of connects in statements.
#[cycle(gather)]
fn gather_all(alloc: Global, body: &[Stmt], sinks: &mut PortSinks) -> Result<(), Memory>
    ensures { OnOk result (GainsPorts (flat_map sinks_of body.now) sinks.old sinks.new) }
{
    for stmt in body {
        gather(alloc, stmt, sinks)?;
    }
    Ok(())
}

/// The ports of instances that are sinks of a module's connects. Takes time and memory linear in the
/// size of the module.
pub fn port_sinks(alloc: Global, home: &Module) -> Result<PortSinks, Memory>
    ensures { IfOk result (λ sinks. DrivenBy home.now sinks) }
{
    let mut sinks = PortSinks::new(alloc);
    gather_all(alloc, home.body.items(), &mut sinks)?;
    Ok(sinks)
}
