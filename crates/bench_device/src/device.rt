//! A circuit under test.
//!
//! The engine's lists have places for the net's condition signals too, behind those of the circuit; nobody sees these.
ghost use Rattle.std.specs.Prelude.{◌≡◌, ◌<◌, ◌≤◌, [], Some, length, replicate, slice_get, slice_set, vec_capacity};
ghost use Rattle.bench_model.specs.Formed.{Formed};
ghost use Rattle.bench_setting.specs.Settings.{zeros, fitted_to, circuit_of, port_numbers};
ghost use Rattle.conflict_core.specs.Conflicts.{least_with_newest};
ghost use Rattle.net_design.specs.Designs.{IsInput, ports_of};
ghost use Rattle.net_design.specs.Naming.{in_cone};
ghost use Rattle.net_design.specs.Settling.{number_at, registers_after};
ghost use Rattle.order_rel.specs.Logs.{log_of};
ghost use Rattle.bench_device.specs.Ports.{port_signals, NamesPorts};

use conflict_core::conflict_with_last;
use net_core::{Engine, Signal};
use net_design::Design;
use order_rel::Event;
use std::marker::Model;
use tb_base::Seq;

/// A circuit under test: a design, with the engine that runs its net. Contracts see the circuit, its net, and the bits of its inputs
/// and of its registers at the places of their signals.
#[derive(Drop)]
pub struct Device<E: Engine> {
    design: Design,
    engine: E,
}

impl<E: Engine> Model for Device<E> {
    ghost use Rattle.std.specs.Coded.{codes};
    ghost use Rattle.net_core.specs.contracts.tree.Choice as choice;
    ghost use Rattle.net_core.specs.contracts.tree.Ground as ground;
    ghost use Rattle.net_core.specs.contracts.tree.GroundExpr as expr;
    ghost use Rattle.bench_device.specs.Device.{DeviceValue, device_of, IsDevice};

    ghost Value = { DeviceValue };

    ghost coded = { Prim.hlevel (codes, choice.the_row.coded, ground.the_row.coded, expr.the_row.coded) };

    ghost view = { λ d. device_of d.design (record { net = E.net d.engine; inputs = E.inputs d.engine; registers = E.registers d.engine }) };

    ghost invariant = { λ d. IsDevice d.design (record { net = E.net d.engine; inputs = E.inputs d.engine; registers = E.registers d.engine }) };
}

impl<E: Engine> Device<E> {
    /// The device of a design, with all inputs and registers 0. The engine is one of the design's net, as it is at first. It takes no
    /// memory.
    pub fn new(design: Design, engine: E) -> Device<E>
        requires net { E.net engine ≡ design.net }
        requires inputs { E.inputs engine ≡ replicate (length design.net.signals) 0 }
        requires registers { E.registers engine ≡ replicate (length design.net.signals) 0 }
        ensures { result ≡ record { elab = design.elab; net = design.net; inputs = zeros design.elab; registers = zeros design.elab } }
    {
        let _circuit = design.elab();
        Device { design, engine }
    }

    /// The design.
    pub fn design(&self) -> &Design
        ensures { result.now ≡ record { elab = self.now.elab; net = self.now.net } }
    {
        &self.design
    }

    /// How many ports the circuit has.
    pub fn port_count(&self) -> usize
        ensures { result ≡ length (ports_of self.now.elab) }
    {
        self.design.ports().len()
    }

    /// The signal of a port.
    fn port(&self, place: usize) -> Signal
        requires { place < length (ports_of self.now.elab) }
        ensures signal { slice_get (port_signals self.now.elab) place ≡ Some result }
        ensures within { result.0 < length self.now.elab.signals }
    {
        match self.design.ports().at(place) {
            Some((_, port)) => port.signal,
            None => unreachable!(),
        }
    }

    /// The number of a signal: its settled value, extended to 128 bits by its sign. It takes what the engine takes for a value.
    pub fn number(&mut self, signal: Signal) -> u128
        requires { signal.0 < length self.old.elab.signals }
        ensures number { result ≡ number_at self.old.elab self.old.inputs self.old.registers signal.0 }
        ensures same { self.new ≡ self.old }
    {
        self.engine.value(signal).word()
    }

    /// The numbers of all ports in signal order, put into an empty vector that has room for them. It takes no memory, and what the
    /// engine takes for a value of each port.
    pub fn sample_into(&mut self, row: Vec<u128>) -> Seq<u128>
        requires empty { row.items ≡ [] }
        requires room { length (ports_of self.old.elab) ≤ vec_capacity row }
        ensures numbers { result ≡ port_numbers self.old.elab (circuit_of self.old.elab) self.old.inputs self.old.registers }
        ensures same { self.new ≡ self.old }
    {
        let mut numbers = row;
        for place in 0..self.port_count() {
            let port = self.port(place);
            let number = self.number(port);
            numbers.push_reserved(number);
        }
        Seq::of(numbers)
    }

    /// Sets an input to the low bits of a number, as many as it has. It takes what the engine takes for a poke.
    pub fn poke(&mut self, input: Signal, raw: u128)
        requires { IsInput self.old.elab input.0 }
        ensures { self.new ≡ record self.old { inputs = slice_set self.old.inputs input.0 (fitted_to self.old.elab input.0 raw) } }
    {
        self.engine.poke(input, raw);
    }

    /// The clock's rising edge: each register gets its next value. It takes what the engine takes for an edge.
    pub fn edge(&mut self)
        ensures { self.new ≡ record self.old { registers = registers_after self.old.elab self.old.inputs self.old.registers } }
    {
        self.engine.edge();
    }

    /// The place of the earliest event that the newest event of the log conflicts with, over the circuit's cones; `None` exactly where it
    /// conflicts with none. What the log's events poke, peek or expect is of this circuit.
    ///
    /// It takes no memory. Each earlier event takes constant time, and each whose access clashes with the newest one's a search of the
    /// log: the time is linear in the length of the log where few accesses clash, and quadratic at worst.
    pub fn conflict_with_last(&self, log: &[Event]) -> Option<usize>
        requires formed { Formed (log_of log.now) }
        requires named { NamesPorts self.now.elab (log_of log.now) }
        ensures { result ≡ least_with_newest (in_cone self.now.elab) (log_of log.now) }
    {
        conflict_with_last(log, self.design.cones())
    }
}
