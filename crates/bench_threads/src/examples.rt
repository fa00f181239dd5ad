//! Small threads, and what is said of them, computed. Each function has no body: its contract is the example.
ghost use Rattle.std.specs.Prelude.{◌≡◌, ℕ, [], ◌∷◌, Some, None, false};
ghost use Rattle.tb_base.specs.declared.path.Region.TheVariants.{Main, Monitor};
ghost use Rattle.bench_threads.specs.declared.entry.Entry.{Entry};
ghost use Rattle.bench_threads.specs.declared.entry.Mode.TheVariants.{Running, AtJoin, AtEdges, AtJoinStep, Spent};
ghost use Rattle.bench_threads.specs.declared.entry.Queue.TheVariants.{Drivers, Monitors, Waiting};
ghost use Rattle.bench_threads.specs.Shelves.{Threads};
ghost use Rattle.bench_threads.specs.Queues.{queue_of};
ghost use Rattle.bench_threads.specs.Threads.{woken_mode, released, tick_mode, first_spent};
ghost use Rattle.bench_threads.specs.Examples.{thread, at_path};

/// The end of a child wakes the thread that waits for it by a join, and nobody who waits for another child or at a joinstep.
pub fn who_is_woken()
    ensures { (woken_mode (0 ∷ 2 ∷ []) (AtJoin (0 ∷ 2 ∷ [])) ≡ Running)
        × (woken_mode (0 ∷ 2 ∷ []) (AtJoin (0 ∷ 1 ∷ [])) ≡ AtJoin (0 ∷ 1 ∷ []))
        × (woken_mode (0 ∷ 2 ∷ []) (AtJoinStep (0 ∷ 2 ∷ [])) ≡ AtJoinStep (0 ∷ 2 ∷ [])) }
{}

/// A thread that waits for two edges waits for one after the first, and runs after the second.
pub fn edges_are_counted()
    ensures { (ts : Threads) (e : Entry) → (tick_mode ts e (AtEdges 2) ≡ record e { mode = AtEdges 1 }) × (tick_mode ts e (AtEdges 1) ≡ released e) }
{}

/// No edge lets a thread go that waits at a join, or is spent.
pub fn edges_end_no_join()
    ensures { (ts : Threads) (e : Entry) → (tick_mode ts e (AtJoin (0 ∷ [])) ≡ e) × (tick_mode ts e (Spent 7) ≡ e) }
{}

/// Where threads stand.
pub fn where_threads_stand()
    ensures { (queue_of (thread [] Main Running) ≡ Drivers) × (queue_of (thread (0 ∷ []) Monitor Running) ≡ Monitors) × (queue_of (thread [] Main (AtEdges 3)) ≡ Waiting) }
{}

/// Of the spent threads one of Main is named before one of Monitor, whatever their paths.
pub fn spent_by_region()
    ensures { first_spent (at_path (0 ∷ []) Monitor (Spent 4) ∷ at_path (1 ∷ []) Main (Spent 9) ∷ at_path (2 ∷ []) Main (Spent 5) ∷ []) ≡ Some (0, 1 ∷ [], 9) }
{}

/// Nobody is spent where all run or wait.
pub fn nobody_spent()
    ensures { first_spent (at_path [] Main Running ∷ at_path (0 ∷ []) Monitor (AtEdges 1) ∷ []) ≡ None }
{}
