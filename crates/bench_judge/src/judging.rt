//! Judging an act.
ghost use Rattle.std.specs.Prelude.{◌≡◌, ◌^◌, ◌<◌, ◌≤◌, max, length, true, cond, nat_le, Some, None, option_map};
ghost use Rattle.std.specs.FinMap as map;
ghost use Rattle.net_design.specs.Naming.{in_cone};
ghost use Rattle.order_rel.specs.Logs.{log_of};
ghost use Rattle.bench_model.specs.Formed.{Formed};
ghost use Rattle.bench_model.specs.Orders.{conflict, step_limit, named_pair};
ghost use Rattle.bench_setting.specs.Limited.{limits_told};
ghost use Rattle.bench_device.specs.Ports.{NamesPorts};
ghost use Rattle.bench_run.specs.Told.{outcome_told};
ghost use Rattle.bench_threads.specs.Threads.{quiet};
ghost use Rattle.bench_course.specs.Course.{SameButRoom};
ghost use Rattle.bench_ahead.specs.Needed.{samples_needed};
ghost use Rattle.bench_judge.specs.Judging.{judged};

use bench_course::Course;
use bench_run::Outcome;
use bench_setting::Limits;
use bench_settle::settle;
use net_core::Engine;

/// The conflict of the newest event with the earliest one that it conflicts with, if there is one.
fn conflict_of<E: Engine>(course: &Course<E>) -> Option<Outcome>
    requires formed { Formed (log_of course.now.log) }
    requires named { NamesPorts course.now.elab (log_of course.now.log) }
    ensures { option_map outcome_told result
        ≡ option_map (λ pair. conflict course.now.time pair.0 pair.1) (named_pair (in_cone course.now.elab) (log_of course.now.log)) }
{
    let place = course.conflict()?;
    let log = course.log();
    let first = log[place].copy();
    let second = log[log.len() - 1].copy();
    Some(Outcome::Conflict {
        time: course.time(),
        first,
        second,
    })
}

/// The end of the run where the time step has as many actions as it may have.
fn limit_of<E: Engine>(course: &Course<E>, limits: &Limits) -> Option<Outcome>
    requires { length course.now.log < 2 ^ 32 }
    ensures { option_map outcome_told result
        ≡ cond (nat_le (limits_told limits.now).step_actions (length course.now.log)) (Some (step_limit course.now.time)) None }
{
    let time = course.time();
    if limits.stops_step(course.log().len() as u32) {
        Some(Outcome::StepActions { time })
    } else {
        None
    }
}

/// Judges a course after an act: where the newest event conflicts with an earlier one of the time step the run ends with both; else, where nobody
/// may act, time steps end until somebody may or the run ends; else the run ends where the time step has as many actions as it may have. `None`
/// says that the run goes on.
///
/// Where nobody may act there has to be room for the samples that are needed. Takes no memory. The search for a conflict is linear in the number
/// of events of the time step where few accesses clash, and quadratic at worst.
pub fn judge<E: Engine>(course: &mut Course<E>, limits: &Limits) -> Option<Outcome>
    requires formed { Formed (log_of course.old.log) }
    requires named { NamesPorts course.old.elab (log_of course.old.log) }
    requires samples { quiet course.old.threads ≡ true → samples_needed (limits_told limits.now) course.old ≤ course.old.room.samples }
    requires time { course.old.time < max 1 (limits_told limits.now).time_steps }
    requires threads { map.len course.old.threads < 2 ^ 32 }
    requires observations { length course.old.observations < 2 ^ 32 }
    requires log { length course.old.log < 2 ^ 32 }
    ensures course { SameButRoom (judged (limits_told limits.now) course.old).course course.new }
    ensures outcome { option_map outcome_told result ≡ (judged (limits_told limits.now) course.old).outcome }
{
    if let Some(conflict) = conflict_of(course) {
        return Some(conflict);
    }
    if course.is_quiet() {
        return settle(course, limits);
    }
    limit_of(course, limits)
}
