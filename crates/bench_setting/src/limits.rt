//! The limits of a run.

ghost use Rattle.std.specs.Prelude.{◌≡◌, nat_le};
ghost use Rattle.bench_model.specs.Settle.{limited, standard};
ghost use Rattle.bench_model.specs.Told.{passed_told};
ghost use Rattle.bench_setting.specs.Limited.{limits_told};

use bench_model::limits::{EndLimits, Passed, first_passed};

/// Limits of a run: the actions of one time step; and at the end of a time step the threads that are there, the observations and the
/// actions of the run so far, and the number of time steps.
#[derive(Clone, Copy, Debug, PartialEq, Eq)]
pub struct Limits {
    pub step_actions: u32,
    pub threads: u32,
    pub observations: u32,
    pub run_actions: u32,
    pub time_steps: u32,
}

impl Limits {
    /// The limits of a run for which no others are asked.
    pub const STANDARD: Limits = Limits {
        step_actions: 65_536,
        threads: 1_024,
        observations: 1_048_576,
        run_actions: 4_194_304,
        time_steps: 65_536,
    };

    /// Whether a time step that has taken so many actions is at their limit.
    pub fn stops_step(&self, actions: u32) -> bool
        ensures { result ≡ nat_le (limits_told self.now).step_actions actions }
    {
        actions >= self.step_actions
    }

    /// The first limit that is passed at the end of a time step, by so many threads that are there and so many observations and actions
    /// of the run so far, in this order. The time steps are passed at the last of them, so that there is always at least one.
    pub fn first_passed(
        &self,
        threads: u32,
        observations: u32,
        actions: u32,
        time: u32,
    ) -> Option<Passed>
        ensures { passed_told result ≡ limited (limits_told self.now) threads observations actions time }
    {
        let end = EndLimits {
            threads: self.threads,
            records: self.observations,
            actions: self.run_actions,
            time_steps: self.time_steps,
        };
        first_passed(&end, threads, observations, actions, time)
    }
}

/// The standard limits.
pub fn standard_limits() -> Limits
    ensures { limits_told result ≡ standard }
{
    Limits::STANDARD
}
