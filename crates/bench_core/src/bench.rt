//! Benches.
ghost use Rattle.std.specs.Prelude.{◌≡◌, ◌↔◌, ◌^◌, ◌<◌, true, length, replicate, IfOk};
ghost use Rattle.std.specs.Option.{option_copied};
ghost use Rattle.net_design.specs.Designs.{ports_of};
ghost use Rattle.bench_threads.specs.Threads.{unmarked};
ghost use Rattle.bench_core.specs.Bench.{IsBench, EqualButRoom, IsFor, NothingMarked, first_bench};

use crate::laws::{marks_leave_benches, the_first_bench_is_one};
use bench_course::Course;
use bench_device::Device;
use bench_run::Outcome;
use bench_setting::Limits;
use net_core::Engine;
use net_design::Design;
use std::alloc::Global;
use std::marker::Model;
use tb_base::{Memory, Path};
use tl_code::Code;

/// The bench of a run. Contracts see its limits, the code of the test, the course of the run, the order of the acts so far and the outcome.
#[derive(Drop)]
pub struct Bench<E: Engine> {
    pub(crate) course: Course<E>,
    pub(crate) code: Code,
    pub(crate) limits: Limits,
    pub(crate) order: Vec<Path>,
    pub(crate) outcome: Option<Outcome>,
}

impl<E: Engine> Model for Bench<E> {
    ghost use Rattle.std.specs.Coded.{codes};
    ghost use Rattle.net_core.specs.contracts.tree.Choice as choice;
    ghost use Rattle.net_core.specs.contracts.tree.Ground as ground;
    ghost use Rattle.net_core.specs.contracts.tree.GroundExpr as ground_expr;
    ghost use Rattle.tl_ast.specs.contracts.tree.TestExpr as test_expr;
    ghost use Rattle.tl_ast.specs.contracts.tree.TestStmt as test_stmt;
    ghost use Rattle.bench_threads.specs.contracts.entry.Entry as entry;
    ghost use Rattle.bench_course.specs.Course.{threads_code};
    ghost use Rattle.bench_core.specs.Bench.{BenchValue, IsBench};

    ghost Value = { BenchValue };

    ghost coded = { Prim.hlevel (codes, choice.the_row.coded, ground.the_row.coded, ground_expr.the_row.coded, test_expr.the_row.coded, test_stmt.the_row.coded, threads_code entry.the_row.coded) };

    ghost view = { λ b. record { limits = b.limits; code = b.code; course = b.course; order = b.order.items; outcome = b.outcome } };

    ghost invariant = { λ b. IsBench (record { limits = b.limits; code = b.code; course = b.course; order = b.order.items; outcome = b.outcome }) };
}

impl<E: Engine> Bench<E> {
    /// The bench of a design, code and limits before the first act: in time step 0, with the root thread alone, an empty order and no mark.
    /// `Err(Memory)` says that there wasn't enough memory. It keeps copies of the design and of the code.
    ///
    /// The code is that of a test for the design's ports. The engine is one of the design's net, as it is at first. The limits of the acts of
    /// one time step and of the run are less than 2^31.
    pub fn new(
        alloc: Global,
        design: &Design,
        code: &Code,
        limits: Limits,
        engine: E,
    ) -> Result<Bench<E>, Memory>
        requires ports { code.now.test.ports ≡ ports_of design.now.elab }
        requires step_actions { limits.step_actions < 2 ^ 31 }
        requires run_actions { limits.run_actions < 2 ^ 31 }
        requires net { E.net engine ≡ design.now.net }
        requires inputs { E.inputs engine ≡ replicate (length design.now.net.signals) 0 }
        requires registers { E.registers engine ≡ replicate (length design.now.net.signals) 0 }
        ensures bench { IfOk result (λ bench. EqualButRoom (first_bench design.now code.now limits) bench) }
        ensures unmarked { IfOk result (λ bench. NothingMarked bench) }
        ensures is { IfOk result (λ bench. IsBench bench) }
    {
        the_first_bench_is_one();
        let _circuit = design.elab();
        let _test = code.test();
        let code = code.copy(alloc)?;
        let root = code.root(alloc)?;
        let device = Device::new(design.copy(alloc)?, engine);
        let course = Course::new(alloc, device, root)?;
        Ok(Bench {
            course,
            code,
            limits,
            order: Vec::new(alloc),
            outcome: None,
        })
    }

    /// The outcome of the run; `None` exactly where the run goes on.
    pub fn outcome(&self) -> Option<&Outcome>
        ensures is { option_copied result ≡ self.now.outcome }
        ensures bench { IsBench self.now }
    {
        self.outcome.as_ref()
    }

    /// The paths of the threads whose acts were taken, the first one first.
    pub fn order(&self) -> &[Path]
        ensures is { result.now ≡ self.now.order }
        ensures bench { IsBench self.now }
    {
        self.order.as_slice()
    }

    /// The code of the test.
    pub fn code(&self) -> &Code
        ensures { result.now ≡ self.now.code }
    {
        &self.code
    }

    /// Takes all marks away, and changes nothing else. Goes over all threads.
    pub fn unmark(&mut self)
        ensures bench { self.new ≡ record self.old { course = record self.old.course { threads = unmarked self.old.course.threads } } }
        ensures unmarked { NothingMarked self.new }
    {
        marks_leave_benches();
        self.course.unmark_all();
    }

    /// Whether the bench is for this design, this code and these limits. Takes no memory, and time linear in the sizes of the design and of the
    /// test.
    pub fn is_for(&self, design: &Design, code: &Code, limits: &Limits) -> bool
        ensures { (result ≡ true) ↔ IsFor self.now design.now code.now limits.now }
    {
        self.limits == *limits && self.code.same(code) && self.course.device().design().same(design)
    }
}
