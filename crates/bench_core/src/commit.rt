//! Taking prepared acts.
ghost use Rattle.std.specs.Prelude.{◌≡◌, ◌≤◌, ◌<◌, None, true, IfOk, IfErr, OnOk, IfSome, Decides, option_map, vec_len, vec_capacity};
ghost use Rattle.std.specs.FinMap as map;
ghost use Rattle.bench_setting.specs.Limited.{limits_told};
ghost use Rattle.bench_run.specs.Told.{outcome_told};
ghost use Rattle.bench_threads.specs.Threads.{quiet, is_enabled};
ghost use Rattle.bench_course.specs.Course.{SameButRoom};
ghost use Rattle.bench_course.specs.Taking.{taken};
ghost use Rattle.bench_ahead.specs.Needed.{samples_needed};
ghost use Rattle.bench_judge.specs.Judging.{judged};
ghost use Rattle.bench_core.specs.Committing.{Fresh, CommitSays, GivesBack, MayGoOn};

use crate::bench::Bench;
use crate::laws::{commits_leave_benches, fresh_acts_may_go_on, marks_leave_benches};
use bench_ahead::samples_ahead;
use bench_course::Course;
use bench_judge::judge;
use bench_run::Outcome;
use bench_setting::Limits;
use bench_threads::same_state;
use net_core::Engine;
use std::alloc::Global;
use tb_base::{Memory, Path};
use tl_prepare::Prepared;

/// What becomes of a prepared act.
#[derive(Clone, Copy, Debug, PartialEq, Eq)]
pub enum Commit {
    /// It was taken; the order has so many acts now.
    Committed(u64),
    /// It wasn't taken: it isn't fresh.
    Stale,
    /// It wasn't taken: the run has its outcome.
    Over,
}

/// Takes room for an act of a thread that may act, for the child that it begins, for the time steps that end with it, and for its path in the
/// order. `Err(Memory)` says that there wasn't enough memory. All but the room is as it was, whatever the result.
fn reserve<E: Engine>(
    alloc: Global,
    course: &mut Course<E>,
    order: &mut Vec<Path>,
    work: &Prepared,
    limits: &Limits,
) -> Result<(), Memory>
    requires enabled { is_enabled course.old.threads (map.get course.old.threads work.now.from.path) ≡ true }
    ensures same { SameButRoom course.old course.new }
    ensures order { order.new.items ≡ order.old.items }
    ensures room { OnOk result (vec_len order.new < vec_capacity order.new) }
    ensures acts { OnOk result (1 ≤ course.new.room.acts) }
    ensures child { OnOk result (IfSome work.now.child (λ child. course.new.room.child ≡ true)) }
    ensures samples { OnOk result (quiet (taken course.old work.now).threads ≡ true → samples_needed (limits_told limits.now) (taken course.old work.now) ≤ course.new.room.samples) }
{
    let samples = samples_ahead(alloc, course, work, limits);
    course.reserve(alloc, work.child().is_some(), samples)?;
    order.reserve(1)?;
    Ok(())
}

/// Takes an act, in the room that was taken for it, and judges it. Takes no memory.
fn act<E: Engine>(
    alloc: Global,
    course: &mut Course<E>,
    work: Prepared,
    limits: &Limits,
) -> Option<Outcome>
    requires may { MayGoOn (limits_told limits.now) course.old work }
    requires acts { 1 ≤ course.old.room.acts }
    requires child { IfSome work.child (λ child. course.old.room.child ≡ true) }
    requires samples { quiet (taken course.old work).threads ≡ true → samples_needed (limits_told limits.now) (taken course.old work) ≤ course.old.room.samples }
    ensures course { SameButRoom (judged (limits_told limits.now) (taken course.old work)).course course.new }
    ensures outcome { option_map outcome_told result ≡ (judged (limits_told limits.now) (taken course.old work)).outcome }
{
    course.take(alloc, work);
    judge(course, limits)
}

impl<E: Engine> Bench<E> {
    /// Whether a prepared act is fresh, where the run goes on.
    fn is_fresh(&self, work: &Prepared) -> bool
        requires { self.now.outcome ≡ None }
        ensures { Decides result (Fresh self.now work.now) }
    {
        let from = work.from();
        match self.course.threads().find(&from.path) {
            None => false,
            Some(entry) => {
                same_state(&entry.state, from)
                    && self.course.threads().is_enabled(&from.path)
                    && self.code.holds(work.fetched())
            }
        }
    }

    /// Takes an act that was prepared, if it is fresh: where the run has no outcome, the thread is there, stands in the very state from which
    /// the act was prepared, and may act, and the bench's code has the instructions that were read.
    ///
    /// The thread acts and loses its mark, its path becomes the last of the order, and where nobody may act then, time steps end until somebody
    /// may or the run has its outcome. `Stale` and `Over` change nothing. An `Err` says that there wasn't enough memory; it gives the work back,
    /// and nothing is changed. Takes what the engine takes for the act and for a sample and an edge of each time step that ends.
    pub fn commit(&mut self, alloc: Global, work: Prepared) -> Result<Commit, Prepared>
        ensures says { IfOk result (λ commit. CommitSays self.old work self.new commit) }
        ensures back { IfErr result (λ back. GivesBack self.old work self.new back) }
    {
        if self.outcome.is_some() {
            return Ok(Commit::Over);
        }
        if !self.is_fresh(&work) {
            return Ok(Commit::Stale);
        }
        marks_leave_benches();
        fresh_acts_may_go_on();
        commits_leave_benches();
        let limits = self.limits;
        let path = work.from().path.copy();
        if reserve(alloc, &mut self.course, &mut self.order, &work, &limits).is_err() {
            return Err(work);
        }
        self.outcome = act(alloc, &mut self.course, work, &limits);
        self.order.push_reserved(path);
        Ok(Commit::Committed(self.order.len() as u64))
    }
}
