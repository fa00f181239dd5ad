//! What the one-thread order gives, and what that says of every order, for each circuit that runs and each test that keeps the rules, within any
//! limits. Each function has no body: its contract is the law.
ghost use Rattle.bench_setting.specs.Settings.{AtEachTest};
ghost use Rattle.bench_orders.specs.EveryOrder.{HasFirst, SpeaksForEvery};

/// The one-thread order has a result.
pub fn first_run_is_there()
    ensures { AtEachTest HasFirst }
{}

/// Where the one-thread order settles, every permitted order meets no conflict and no limit of a time step, has no more actions in any time step,
/// can be completed to one that settles, and gives the same run if it settles itself.
///
/// Where it meets a conflict, the two events stand in the log of the time step in which the run stops, neither is before the other, and they
/// clash; no earlier event of that log conflicts with another, and the first is the earliest that the second conflicts with. No permitted order
/// settles then, nor where it meets the limit of a time step.
pub fn the_first_run_speaks_for_every_order()
    ensures { AtEachTest SpeaksForEvery }
{}
