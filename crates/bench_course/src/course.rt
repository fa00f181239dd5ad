//! A run that goes on.
ghost use Rattle.std.specs.Prelude.{◌≡◌, ◌+◌, ◌-◌, ◌^◌, ◌<◌, ◌≤◌, [], None, true, IfOk, OnOk, IfSome, length, is_some, option_map};
ghost use Rattle.std.specs.FinMap as map;
ghost use Rattle.net_design.specs.Naming.{in_cone};
ghost use Rattle.order_rel.specs.Logs.{log_of};
ghost use Rattle.conflict_core.specs.Conflicts.{least_with_newest};
ghost use Rattle.bench_model.specs.Formed.{Formed};
ghost use Rattle.bench_model.specs.Orders.{settles};
ghost use Rattle.bench_model.specs.Settle.{limited};
ghost use Rattle.bench_setting.specs.Limited.{limits_told};
ghost use Rattle.bench_device.specs.Ports.{NamesPorts};
ghost use Rattle.bench_run.specs.Told.{outcome_told};
ghost use Rattle.bench_threads.specs.Threads.{quiet, change, with_mark, unmarked};
ghost use Rattle.bench_course.specs.Course.{CourseValue, SameButRoom, first_course, device_in, table_in};
ghost use Rattle.bench_course.specs.Taking.{IsOfCircuit, taken};
ghost use Rattle.bench_course.specs.Ending.{verdict_of, sampled, stepped, time_ended};

use crate::acts::{has_failed, note, number_found, poke};
use crate::samples::Samples;
use bench_acts::{advance, event_of, observed};
use bench_device::Device;
use bench_run::{Observation, Outcome};
use bench_setting::Limits;
use bench_threads::ThreadTable;
use net_core::Engine;
use order_rel::Event;
use std::alloc::Global;
use std::marker::Model;
use tb_base::{Memory, Path, Seq};
use tl_code::ThreadState;
use tl_prepare::Prepared;

/// A run that goes on, over a circuit under test. Contracts see the circuit with its inputs and registers, the threads, the log of this time
/// step, the observations and the samples so far, the time step, the number of acts, and what there is room for.
///
/// Only `new` and `reserve` take memory. No other call can fail.
#[derive(Drop)]
pub struct Course<E: Engine> {
    device: Device<E>,
    threads: ThreadTable,
    log: Vec<Event>,
    observations: Vec<Observation>,
    samples: Samples,
    failed: bool,
    time: u32,
    actions: u32,
}

impl<E: Engine> Model for Course<E> {
    ghost use Rattle.std.specs.Prelude.{◌-◌, vec_len, vec_capacity};
    ghost use Rattle.std.specs.Coded.{codes};
    ghost use Rattle.net_core.specs.contracts.tree.Choice as choice;
    ghost use Rattle.net_core.specs.contracts.tree.Ground as ground;
    ghost use Rattle.net_core.specs.contracts.tree.GroundExpr as expr;
    ghost use Rattle.bench_threads.specs.contracts.entry.Entry as entry;
    ghost use Rattle.bench_course.specs.Course.{CourseValue, threads_code, course_of, IsCourse};

    ghost Value = { CourseValue };

    ghost coded = { Prim.hlevel (codes, choice.the_row.coded, ground.the_row.coded, expr.the_row.coded, threads_code entry.the_row.coded) };

    ghost view = { λ c. course_of c.device c.threads c.log.items c.observations.items c.samples c.time c.actions
        (vec_capacity c.log - vec_len c.log) (vec_capacity c.observations - vec_len c.observations) };

    ghost invariant = { λ c. IsCourse c.device.elab c.observations.items c.samples c.time c.failed };
}

impl<E: Engine> Course<E> {
    /// The course before the first act: of this circuit, with the thread of this state alone, which is running. `Err(Memory)` says that there
    /// wasn't enough memory.
    pub fn new(alloc: Global, device: Device<E>, root: ThreadState) -> Result<Course<E>, Memory>
        ensures { IfOk result (λ course. SameButRoom (first_course device root) course) }
    {
        let threads = ThreadTable::new(alloc, root)?;
        let width = device.port_count();
        Ok(Course {
            device,
            threads,
            log: Vec::new(alloc),
            observations: Vec::new(alloc),
            samples: Samples::new(alloc, width),
            failed: false,
            time: 0,
            actions: 0,
        })
    }

    /// Takes room for one act, for a child where it is asked, and for so many samples. `Err(Memory)` says that there wasn't enough memory. All
    /// but the room is as it was, whatever the result. Takes time linear in the number of samples, and at times in what is there.
    pub fn reserve(&mut self, alloc: Global, with_child: bool, samples: usize) -> Result<(), Memory>
        ensures same { SameButRoom self.old self.new }
        ensures act { OnOk result (1 ≤ self.new.room.acts) }
        ensures child { with_child ≡ true → OnOk result (self.new.room.child ≡ true) }
        ensures samples { OnOk result (samples ≤ self.new.room.samples) }
    {
        self.log.reserve(1)?;
        self.observations.reserve(1)?;
        self.samples.reserve(alloc, samples)?;
        if with_child {
            self.threads.reserve_one(alloc)?;
        }
        Ok(())
    }

    /// Takes an act that was prepared from the state of a thread that is there: a poke sets its input, a peek and an expect find the number of
    /// their port, the thread goes on, its event goes into the log, and what is observed into the observations. A number that a peek puts into
    /// a slot goes there.
    ///
    /// There has to be room for an act, and where the act begins a child for a thread too, of whose path there is none. What the act pokes is an
    /// input of the circuit, and what it peeks or expects one of its signals. Takes what the engine takes for a poke or a value, and a few
    /// look-ups among the threads.
    pub fn take(&mut self, alloc: Global, work: Prepared)
        requires there { is_some (map.get self.old.threads work.from.path) ≡ true }
        requires absent { IfSome work.child (λ child. map.get self.old.threads child.path ≡ None) }
        requires of_circuit { IsOfCircuit self.old.elab work.act }
        requires act { 1 ≤ self.old.room.acts }
        requires child { IfSome work.child (λ child. self.old.room.child ≡ true) }
        requires actions { self.old.actions < 2 ^ 32 - 1 }
        ensures course { SameButRoom (taken self.old work) self.new }
        ensures acts { self.old.room.acts ≤ self.new.room.acts + 1 }
        ensures child { work.child ≡ None → self.new.room.child ≡ self.old.room.child }
        ensures samples { self.new.room.samples ≡ self.old.room.samples }
    {
        let from = work.from();
        let act = work.act();
        let number = number_found(&mut self.device, act);
        let seen = observed(self.time, from, act, number);
        let event = event_of(from, act);
        poke(&mut self.device, act);
        let (_, act, next, child) = work.into_parts();
        advance(alloc, &mut self.threads, act, next, child, number);
        self.log.push_reserved(event);
        self.failed = has_failed(self.failed, &seen, self.time);
        note(&mut self.observations, seen);
        self.actions += 1;
    }

    /// The place of the earliest event of this time step that the newest one conflicts with; `None` exactly where it conflicts with none. Takes
    /// no memory, and time linear in the length of the log where few accesses clash, quadratic at worst.
    pub fn conflict(&self) -> Option<usize>
        requires formed { Formed (log_of self.now.log) }
        requires named { NamesPorts self.now.elab (log_of self.now.log) }
        ensures { result ≡ least_with_newest (in_cone self.now.elab) (log_of self.now.log) }
    {
        self.device.conflict_with_last(self.log.as_slice())
    }

    /// Takes the sample of this time step.
    fn sample(&mut self)
        requires { 1 ≤ self.old.room.samples }
        ensures course { SameButRoom (sampled self.old) self.new }
        ensures acts { self.new.room.acts ≡ self.old.room.acts }
        ensures child { self.new.room.child ≡ self.old.room.child }
        ensures samples { self.new.room.samples + 1 ≡ self.old.room.samples }
    {
        self.samples.take(&mut self.device);
    }

    /// Begins the next time step, after the clock's edge.
    fn step(&mut self)
        requires { self.old.time < 2 ^ 32 - 1 }
        ensures course { SameButRoom (stepped self.old) self.new }
        ensures acts { self.old.room.acts ≤ self.new.room.acts }
        ensures child { self.new.room.child ≡ self.old.room.child }
        ensures samples { self.new.room.samples ≡ self.old.room.samples }
    {
        self.device.edge();
        self.threads.tick();
        self.log.clear();
        self.failed = false;
        self.time += 1;
    }

    /// Which limit ends the run with this time step, if one does.
    fn limit_passed(&self, limits: &Limits) -> Option<Outcome>
        requires threads { map.len self.now.threads < 2 ^ 32 }
        requires observations { length self.now.observations < 2 ^ 32 }
        ensures { option_map outcome_told result ≡ option_map (settles self.now.time)
            (limited (limits_told limits.now) (map.len self.now.threads) (length self.now.observations) self.now.actions self.now.time) }
    {
        let threads = self.threads.len() as u32;
        let observations = self.observations.as_slice().len() as u32;
        match limits.first_passed(threads, observations, self.actions, self.time) {
            None => None,
            Some(passed) => Some(Outcome::from_passed(self.time, passed)),
        }
    }

    /// How this time step ends the run, if it does.
    fn verdict(&self, limits: &Limits) -> Option<Outcome>
        requires threads { map.len self.now.threads < 2 ^ 32 }
        requires observations { length self.now.observations < 2 ^ 32 }
        ensures { option_map outcome_told result ≡ option_map (settles self.now.time) (verdict_of (limits_told limits.now) self.now) }
    {
        let time = self.time;
        if self.failed {
            return Some(Outcome::Failed { time });
        }
        if let Some((path, line)) = self.threads.first_spent() {
            let path = path.copy();
            return Some(Outcome::Spent { time, path, line });
        }
        let root = Path::root(*self.log.allocator());
        if !self.threads.contains(&root) {
            return Some(Outcome::Finished { time });
        }
        self.limit_passed(limits)
    }

    /// Ends the time step: all ports are sampled; then either the run ends, with this outcome, or the clock has its edge and the next time step
    /// begins.
    ///
    /// There has to be room for a sample. Takes no memory, what the engine takes for a value of each port and for an edge, and time linear in
    /// the number of threads that wait.
    pub fn end_step(&mut self, limits: &Limits) -> Option<Outcome>
        requires room { 1 ≤ self.old.room.samples }
        requires time { self.old.time < 2 ^ 32 - 1 }
        requires threads { map.len self.old.threads < 2 ^ 32 }
        requires observations { length self.old.observations < 2 ^ 32 }
        ensures outcome { option_map outcome_told result ≡ option_map (settles self.old.time) (verdict_of (limits_told limits.now) self.old) }
        ensures course { SameButRoom (time_ended (limits_told limits.now) self.old) self.new }
        ensures acts { self.old.room.acts ≤ self.new.room.acts }
        ensures child { self.new.room.child ≡ self.old.room.child }
        ensures samples { self.new.room.samples + 1 ≡ self.old.room.samples }
    {
        self.sample();
        match self.verdict(limits) {
            Some(outcome) => Some(outcome),
            None => {
                self.step();
                None
            }
        }
    }

    /// The threads.
    pub fn threads(&self) -> &ThreadTable
        ensures { result.now ≡ table_in self.now }
    {
        &self.threads
    }

    /// Whether nobody may act: no thread is running.
    pub fn is_quiet(&self) -> bool
        ensures { result ≡ quiet self.now.threads }
    {
        self.threads.is_quiet()
    }

    /// Marks the thread of a path, where it is there.
    pub fn mark(&mut self, path: &Path)
        ensures { self.new ≡ record self.old { threads = change (with_mark true) self.old.threads path.now } }
    {
        self.threads.mark(path);
    }

    /// Takes all marks away. Goes over all threads.
    pub fn unmark_all(&mut self)
        ensures { self.new ≡ record self.old { threads = unmarked self.old.threads } }
    {
        self.threads.unmark_all();
    }

    /// The events of this time step, the oldest first.
    pub fn log(&self) -> &[Event]
        ensures { result.now ≡ self.now.log }
    {
        self.log.as_slice()
    }

    /// The observations so far, the oldest first.
    pub fn observations(&self) -> &[Observation]
        ensures { result.now ≡ self.now.observations }
    {
        self.observations.as_slice()
    }

    /// The time step, counted from 0.
    pub fn time(&self) -> u32
        ensures { result ≡ self.now.time }
    {
        self.time
    }

    /// How many acts were taken so far.
    pub fn actions(&self) -> u32
        ensures { result ≡ self.now.actions }
    {
        self.actions
    }

    /// The circuit.
    pub fn device(&self) -> &Device<E>
        ensures { result.now ≡ device_in self.now }
    {
        &self.device
    }

    /// The observations and the samples, the oldest first, and the number of acts. Takes no memory.
    pub fn into_parts(self) -> (Vec<Observation>, Vec<Seq<u128>>, u32)
        ensures observations { result.0.items ≡ self.observations }
        ensures samples { result.1.items ≡ self.samples }
        ensures actions { result.2 ≡ self.actions }
    {
        let Course {
            observations,
            samples,
            actions,
            ..
        } = self;
        (observations, samples.into_rows(), actions)
    }
}
