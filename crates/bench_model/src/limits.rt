//! The limits at the end of a time step, as a function: which of them is passed first.

ghost use Rattle.bench_model.specs.Settle.{limited};
ghost use Rattle.bench_model.specs.Told.{limits_told, passed_told};
ghost use Rattle.std.specs.Prelude.{◌≡◌};

/// Limits of a run at the end of a time step: threads that are there, records and actions so far, and time steps.
#[derive(Clone, Copy, Debug, PartialEq, Eq)]
pub struct EndLimits {
    pub threads: u32,
    pub records: u32,
    pub actions: u32,
    pub time_steps: u32,
}

/// A limit that is passed.
#[derive(Clone, Copy, Debug, PartialEq, Eq)]
pub enum Passed {
    Threads,
    Records,
    Actions,
    TimeSteps,
}

/// The first limit that is passed by so many threads, records and actions at the end of a time step, in this order, or none. The
/// time steps are passed at the last of them, so that there is always at least one.
pub fn first_passed(
    limits: &EndLimits,
    threads: u32,
    records: u32,
    actions: u32,
    time: u32,
) -> Option<Passed>
    ensures { passed_told result ≡ limited (limits_told limits.now) threads records actions time }
{
    if threads > limits.threads {
        return Some(Passed::Threads);
    }
    if records > limits.records {
        return Some(Passed::Records);
    }
    if actions > limits.actions {
        return Some(Passed::Actions);
    }
    if time >= limits.time_steps.saturating_sub(1) {
        return Some(Passed::TimeSteps);
    }
    None
}
