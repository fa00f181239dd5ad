//! How runs end.
ghost use Rattle.std.specs.Prelude.{◌≡◌};
ghost use Rattle.bench_model.specs.Orders.{settles};
ghost use Rattle.bench_model.specs.Told.{limit_told};
ghost use Rattle.bench_run.specs.Told.{outcome_told, outcome_time};

use bench_model::limits::Passed;
use order_rel::Event;
use tb_base::Path;

/// How a run ended, and in which time step, counted from 0.
///
/// A conflict and the limit of one time step end a run at once. The others apply where a time step ends; of several that apply there the
/// first in this list is the outcome.
#[derive(Debug, Drop)]
pub enum Outcome {
    /// Two events of the time step conflict: neither is before the other, and one pokes an input that the other pokes too, or on which
    /// the value depends that the other reads. The first of them was committed earlier.
    Conflict {
        time: u32,
        first: Event,
        second: Event,
    },
    /// The time step has as many actions as it may have, and somebody may still act.
    StepActions {
        time: u32,
    },
    /// The time step has a failure.
    Failed {
        time: u32,
    },
    /// The thread of this path is spent: it took as many local statements in one go as it may, and the one of this line would be next.
    /// Of several threads it is the first by region and path.
    Spent {
        time: u32,
        path: Path,
        line: u32,
    },
    /// The root thread has ended.
    Finished {
        time: u32,
    },
    /// More threads are there at the end of the time step than may be.
    ThreadLimit {
        time: u32,
    },
    /// The run has more observations than it may have.
    RecordLimit {
        time: u32,
    },
    /// The run has more actions than it may have.
    RunActions {
        time: u32,
    },
    /// The last time step that a run may have is over.
    TimeLimit {
        time: u32,
    },
}

impl Outcome {
    /// The run has passed this limit at the end of the time step.
    pub fn from_passed(time: u32, passed: Passed) -> Outcome
        ensures { outcome_told result ≡ settles time (limit_told passed) }
    {
        match passed {
            Passed::Threads => Outcome::ThreadLimit { time },
            Passed::Records => Outcome::RecordLimit { time },
            Passed::Actions => Outcome::RunActions { time },
            Passed::TimeSteps => Outcome::TimeLimit { time },
        }
    }

    /// The time step in which the run ended, counted from 0.
    pub fn time(&self) -> u32
        ensures { result ≡ outcome_time (outcome_told self.now) }
    {
        match self {
            Outcome::Conflict { time, .. } => *time,
            Outcome::StepActions { time } => *time,
            Outcome::Failed { time } => *time,
            Outcome::Spent { time, .. } => *time,
            Outcome::Finished { time } => *time,
            Outcome::ThreadLimit { time } => *time,
            Outcome::RecordLimit { time } => *time,
            Outcome::RunActions { time } => *time,
            Outcome::TimeLimit { time } => *time,
        }
    }

    /// An equal outcome. Takes no memory.
    pub fn copy(&self) -> Outcome
        ensures { result ≡ self.now }
    {
        match self {
            Outcome::Conflict {
                time,
                first,
                second,
            } => Outcome::Conflict {
                time: *time,
                first: first.copy(),
                second: second.copy(),
            },
            Outcome::StepActions { time } => Outcome::StepActions { time: *time },
            Outcome::Failed { time } => Outcome::Failed { time: *time },
            Outcome::Spent { time, path, line } => Outcome::Spent {
                time: *time,
                path: path.copy(),
                line: *line,
            },
            Outcome::Finished { time } => Outcome::Finished { time: *time },
            Outcome::ThreadLimit { time } => Outcome::ThreadLimit { time: *time },
            Outcome::RecordLimit { time } => Outcome::RecordLimit { time: *time },
            Outcome::RunActions { time } => Outcome::RunActions { time: *time },
            Outcome::TimeLimit { time } => Outcome::TimeLimit { time: *time },
        }
    }
}
