//! Settling a course.
ghost use Rattle.std.specs.Prelude.{◌≡◌, ◌^◌, ◌<◌, ◌≤◌, max, length, true, option_map};
ghost use Rattle.std.specs.FinMap as map;
ghost use Rattle.bench_model.specs.Orders.{settles};
ghost use Rattle.bench_setting.specs.Limited.{limits_told};
ghost use Rattle.bench_run.specs.Told.{outcome_told};
ghost use Rattle.bench_threads.specs.Threads.{quiet};
ghost use Rattle.bench_course.specs.Course.{SameButRoom};
ghost use Rattle.bench_ahead.specs.Needed.{samples_needed};
ghost use Rattle.bench_settle.specs.Settling.{settled};

use bench_course::Course;
use bench_run::Outcome;
use bench_setting::Limits;
use net_core::Engine;

/// Ends time steps until somebody may act, or until the run ends; then this is how.
///
/// Nobody may act at first, and there has to be room for the samples that are needed. Takes no memory. Each time step takes a value of each
/// port, an edge, and time linear in the number of threads that wait.
pub fn settle<E: Engine>(course: &mut Course<E>, limits: &Limits) -> Option<Outcome>
    requires quiet { quiet course.old.threads ≡ true }
    requires samples { samples_needed (limits_told limits.now) course.old ≤ course.old.room.samples }
    requires time { course.old.time < max 1 (limits_told limits.now).time_steps }
    requires threads { map.len course.old.threads < 2 ^ 32 }
    requires observations { length course.old.observations < 2 ^ 32 }
    ensures course { SameButRoom (settled (limits_told limits.now) course.old).course course.new }
    ensures outcome { option_map outcome_told result ≡ option_map (settles course.new.time) (settled (limits_told limits.now) course.old).ending }
{
    // The time step stays below a limit of 32 bits, so it can be counted.
    prove!(limits.time_steps <= u32::MAX);
    'steps: loop {
        if let Some(outcome) = course.end_step(limits) {
            return Some(outcome);
        }
        if !course.is_quiet() {
            return None;
        }
    }
}
