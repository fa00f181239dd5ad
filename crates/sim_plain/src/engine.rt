//! The plain engine.
ghost use Rattle.std.specs.Prelude.{◌≡◌, IfOk, length, replicate};
ghost use Rattle.sim_plain.specs.Ready.{Fits, InOrder, Run, numbers};

use crate::settle::{advance, low_bits, renew};
use crate::words::{number_at, read};
use net_core::{Engine, Net, Signal};
use net_design::Design;
use std::alloc::Global;
use std::marker::Model;
use tb_base::{Bits, Memory};

/// A net that runs. Contracts see the net, the bits of its inputs and those of its registers.
///
/// The values are kept from one call to the next. After a poke or an edge they are stale, and the next call that asks
/// for a value evaluates all signals once.
#[derive(Drop)]
pub struct PlainEngine {
    net: Net,
    order: Vec<Signal>,
    inputs: Vec<u128>,
    registers: Vec<u128>,
    values: Vec<u128>,
    stale: bool,
}

impl Model for PlainEngine {
    ghost use Rattle.std.specs.Coded.{codes};
    ghost use Rattle.net_core.specs.contracts.tree.Choice as choice;
    ghost use Rattle.net_core.specs.contracts.tree.GroundExpr as expr;
    ghost use Rattle.sim_plain.specs.Ready.{Run, Runs, numbers};

    ghost Value = { Run };

    ghost coded = { Prim.hlevel (codes, choice.the_row.coded, expr.the_row.coded) };

    ghost view = { λ e. record { net = e.net; inputs = e.inputs.items; registers = e.registers.items } };

    ghost invariant = { λ e. Runs e.net (numbers e.order.items) e.inputs.items e.registers.items e.values.items e.stale };
}

impl PlainEngine {
    /// The engine of a design, with all inputs and registers 0. The net and its order are copied: it takes time and memory linear
    /// in their size.
    pub fn new(alloc: Global, design: &Design) -> Result<PlainEngine, Memory>
        ensures { IfOk result (λ e. e ≡ record { net = design.now.net; inputs = replicate (length design.now.net.signals) 0; registers = replicate (length design.now.net.signals) 0 }) }
    {
        PlainEngine::over(alloc, design.net(), design.levels().order())
    }

    /// An engine of a net, with all inputs and registers 0. The order has each signal of the net once, behind all that
    /// it reads within a cycle.
    ///
    /// The net and the order are copied: it takes time and memory linear in their size.
    pub fn over(alloc: Global, net: &Net, order: &[Signal]) -> Result<PlainEngine, Memory>
        requires fits { Fits net.now }
        requires order { InOrder net.now (numbers order.now) }
        ensures { IfOk result (λ e. e ≡ record { net = net.now; inputs = replicate (length net.now.signals) 0; registers = replicate (length net.now.signals) 0 }) }
    {
        let count = net.signals.items().len();
        let net = net.copy(alloc)?;
        let order = Vec::from_slice(alloc, order)?;
        let inputs = Vec::from_elem(alloc, 0u128, count)?;
        let registers = Vec::from_elem(alloc, 0u128, count)?;
        let values = Vec::from_elem(alloc, 0u128, count)?;
        Ok(PlainEngine {
            net,
            order,
            inputs,
            registers,
            values,
            stale: true,
        })
    }
}

impl Engine for PlainEngine {
    ghost net = { λ e. e.net };

    ghost inputs = { λ e. e.inputs };

    ghost registers = { λ e. e.registers };

    /// Takes a constant number of steps.
    fn poke(&mut self, input: Signal, raw: u128) {
        let x = input.0 as usize;
        self.inputs[x] = low_bits(&self.net, x, raw);
        self.stale = true;
    }

    /// Takes a constant number of steps, and after a poke or an edge time linear in the size of the net.
    fn value(&mut self, signal: Signal) -> Bits {
        renew(
            &self.net,
            self.order.as_slice(),
            self.inputs.as_slice(),
            self.registers.as_slice(),
            self.values.as_mut_slice(),
            self.stale,
        );
        self.stale = false;
        read(
            self.net.signals.items(),
            self.values.as_slice(),
            signal.0 as usize,
        )
    }

    /// Takes time linear in the size of the net.
    fn edge(&mut self) {
        renew(
            &self.net,
            self.order.as_slice(),
            self.inputs.as_slice(),
            self.registers.as_slice(),
            self.values.as_mut_slice(),
            self.stale,
        );
        advance(
            &self.net,
            self.values.as_slice(),
            self.registers.as_mut_slice(),
        );
        self.stale = true;
    }

    fn input(&self, input: Signal) -> u128 {
        number_at(self.inputs.as_slice(), input.0 as usize)
    }

    fn state(&self, register: Signal) -> Bits {
        read(
            self.net.signals.items(),
            self.registers.as_slice(),
            register.0 as usize,
        )
    }
}
