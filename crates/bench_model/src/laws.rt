//! The laws of the bench's model, over small tests and circuits. Each function has no body: its contract is the law. The same
//! laws hold of every bench whose threads and circuit meet `SettingLaws`; the lemmas of the same names in `proofs/` say so.

ghost use Rattle.bench_model.specs.Small.{AtEachTest, Circuit, Test, setting};
ghost use Rattle.bench_model.specs.Settle.{Limits};
ghost use Rattle.bench_model.specs.Log.{Event};
ghost use Rattle.bench_model.specs.Formed.{Formed, IsBeforeAnywhere};
ghost use Rattle.bench_model.specs.Conflict.{IsBefore, IsFree, IsFirstPair};
ghost use Rattle.bench_model.specs.TwoMoves.{AlikeWorlds, StaysEnabled, Exchanges, EnabledBefore};
ghost use Rattle.bench_model.specs.Orders.{LogsFormed, EveryOrder, AnyCleanOrder, RealConflicts, OrdersWithin, FirstOrderEnds};
ghost use Rattle.std.specs.Prelude.{List, Bool, ◌↔◌, ◌⊎◌, ℕ};

/// Worlds that are equal but for the order of their records and of their logs have the same enabled threads; the act of one
/// thread gives alike worlds; and settling gives alike worlds or ends that differ in the order of records alone.
pub fn alike()
    ensures { AtEachTest AlikeWorlds }
{}

/// A thread that is enabled stays enabled while others act, and keeps its next action until it acts itself.
pub fn stays_enabled()
    ensures { AtEachTest StaysEnabled }
{}

/// Of two enabled threads, neither has a next event that is before the other's; what is before the one's next event, and what it
/// conflicts with, is the same after the other's act; and where the two events don't clash, either order gives alike worlds.
pub fn exchange()
    ensures { AtEachTest Exchanges }
{}

/// A thread that is enabled after an act, where no link leads from that act to the thread's next event, was enabled before the
/// act, as the same thread.
pub fn enabled_before()
    ensures { AtEachTest EnabledBefore }
{}

/// The log of each permitted order is formed: forks come before all events of the child, nothing follows an end, a joined child
/// has ended, and regions never fall.
pub fn log_is_formed()
    ensures { AtEachTest LogsFormed }
{}

/// Where one permitted order settles, every permitted order meets no conflict and no limit of a time step, has no more actions
/// in any time step, can be completed to one that settles, and gives the same run if it settles itself.
pub fn every_order()
    ensures { AtEachTest EveryOrder }
{}

/// Where some permitted order settles, the one-thread order settles.
pub fn any_clean_order()
    ensures { AtEachTest AnyCleanOrder }
{}

/// Where a permitted order, as the one-thread order, meets a conflict, the two named events stand in the log of the named time
/// step, neither is before the other and they clash; no earlier event of that log conflicts with another; the first is the
/// earliest that the second conflicts with; and no permitted order settles.
pub fn real_conflict()
    ensures { AtEachTest RealConflicts }
{}

/// Every permitted order has no more actions in any time step than their limit, and no action at or past the limit of time steps.
/// Each of the two limits counts as at least 1.
pub fn orders_within_limits()
    ensures { AtEachTest OrdersWithin }
{}

/// The one-thread order is permitted and has an outcome and a result, after no more actions than the limit of a time step in each of
/// no more time steps than their limit. Each of the two limits counts as at least 1.
pub fn first_order_ends()
    ensures { AtEachTest FirstOrderEnds }
{}

/// On formed logs it makes no difference whether the links of a chain may lead back to earlier events.
pub fn before_anywhere()
    ensures { (log : List Event) → Formed log → (i : ℕ) → (j : ℕ) → IsBeforeAnywhere log i j ↔ IsBefore log i j }
{}

/// Each log is free of conflicts or has a first pair: the least place whose event conflicts with an earlier one, and the least place
/// that it conflicts with.
pub fn first_pair()
    ensures { (cone : ℕ → ℕ → Bool) → (log : List Event) → IsFree cone log ⊎ ((i : ℕ) × (j : ℕ) × IsFirstPair cone log i j) }
{}
