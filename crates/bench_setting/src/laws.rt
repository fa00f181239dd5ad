//! What is true of every order of a test's acts, over each circuit that runs and within any limits. Each function has no body: its
//! contract is the law.
ghost use Rattle.std.specs.Prelude.{◌≡◌, ℕ, List, false, slice_set};
ghost use Rattle.net_core.specs.declared.tree.Elab.{Elab};
ghost use Rattle.net_core.specs.declared.tree.Net.{Net};
ghost use Rattle.net_design.specs.Designs.{Runs};
ghost use Rattle.net_design.specs.Naming.{in_cone};
ghost use Rattle.net_design.specs.Settling.{number_at};
ghost use Rattle.bench_model.specs.Settle.{SettingLaws};
ghost use Rattle.bench_model.specs.TwoMoves.{AlikeWorlds, StaysEnabled, Exchanges, EnabledBefore};
ghost use Rattle.bench_model.specs.Orders.{LogsFormed, EveryOrder, AnyCleanOrder, RealConflicts, OrdersWithin, FirstOrderEnds};
ghost use Rattle.bench_setting.specs.Settings.{AtEachTest};

/// The number of a signal stays as it is where an input outside its cone gets another value.
pub fn number_apart()
    ensures { (e : Elab) (net : Net) (ins regs : List ℕ) (s p v : ℕ) → Runs e net → in_cone e s p ≡ false
        → number_at e (slice_set ins p v) regs s ≡ number_at e ins regs s }
{}

/// The threads of a test and its circuit are what the laws of orders ask for.
pub fn laws_of_orders()
    ensures { AtEachTest SettingLaws }
{}

/// Worlds that are equal but for the order of their records and of their logs have the same enabled threads; the act of one thread
/// gives alike worlds; and settling gives alike worlds, or ends that differ in the order of records alone.
pub fn alike()
    ensures { AtEachTest AlikeWorlds }
{}

/// A thread that is enabled stays enabled while others act, and keeps its next action until it acts itself.
pub fn stays_enabled()
    ensures { AtEachTest StaysEnabled }
{}

/// Of two enabled threads, neither has a next event that is before the other's; what is before the one's next event, and what it
/// conflicts with, is the same after the other's act; and where the two events don't clash, either order gives alike worlds.
pub fn exchange()
    ensures { AtEachTest Exchanges }
{}

/// A thread that is enabled after an act, where no link leads from that act to the thread's next event, was enabled before the act,
/// as the same thread.
pub fn enabled_before()
    ensures { AtEachTest EnabledBefore }
{}

/// The log of each permitted order is formed: forks come before all events of the child, nothing follows an end, a joined child has
/// ended, and regions never fall.
pub fn log_is_formed()
    ensures { AtEachTest LogsFormed }
{}

/// Where one permitted order settles, every permitted order meets no conflict and no limit of a time step, has no more actions in any
/// time step, can be completed to one that settles, and gives the same run if it settles itself.
pub fn every_order()
    ensures { AtEachTest EveryOrder }
{}

/// Where some permitted order settles, the one-thread order is permitted and settles.
pub fn any_clean_order()
    ensures { AtEachTest AnyCleanOrder }
{}

/// Where a permitted order, as the one-thread order, meets a conflict, the two named events stand in the log of the named time step,
/// neither is before the other, and they clash: one pokes an input that the other pokes, or on which a port depends that the other peeks
/// or expects. No earlier event of that log conflicts with another, the first is the earliest that the second conflicts with, and no
/// permitted order settles.
pub fn real_conflict()
    ensures { AtEachTest RealConflicts }
{}

/// Every permitted order has no more actions in any time step than their limit, and no action at or past the limit of time steps. Each
/// of the two limits counts as at least 1.
pub fn orders_within_limits()
    ensures { AtEachTest OrdersWithin }
{}

/// The one-thread order is permitted and has an outcome and a result, after no more actions than the limit of a time step in each of no
/// more time steps than their limit. Each of the two limits counts as at least 1.
pub fn first_order_ends()
    ensures { AtEachTest FirstOrderEnds }
{}
