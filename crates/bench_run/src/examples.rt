//! What small observations and outcomes tell, computed. Each function has no body: its contract is the example.
ghost use Rattle.std.specs.Prelude.{◌≡◌, [], ◌∷◌, map, None};
ghost use Rattle.tb_base.specs.declared.path.Region.TheVariants.{Main, Monitor};
ghost use Rattle.order_rel.specs.declared.event.Kind.TheVariants.{Poke, Peek};
ghost use Rattle.order_rel.specs.Examples.{acted, watched};
ghost use Rattle.bench_model.specs.Log.Kind.{pokes, peeks};
ghost use Rattle.bench_model.specs.Settle.Ending.{failed, spent_at, finished, thread_limit, record_limit, action_limit, time_limit};
ghost use Rattle.bench_model.specs.Orders.{conflict, step_limit, settles};
ghost use Rattle.bench_model.specs.Sorting.{record_le, sorted};
ghost use Rattle.bench_model.specs.Examples.{event, peeked, failed_expect};
ghost use Rattle.bench_run.specs.declared.outcome.Outcome.TheVariants.{Conflict, StepActions, Failed, Spent, Finished, ThreadLimit, RecordLimit, RunActions, TimeLimit};
ghost use Rattle.bench_run.specs.Told.{record_told, outcome_told, result_told};
ghost use Rattle.bench_run.specs.Examples.{seen, missed, as_seen, in_order};

/// A peek of a monitor, of region 1.
pub fn peek_told()
    ensures { record_told (seen 3 Monitor (0 ∷ 2 ∷ []) 4 17 5 255) ≡ peeked 3 1 (0 ∷ 2 ∷ []) 4 17 5 255 }
{}

/// A failed expect of a Main thread, of region 0, which read 1 and wanted 2.
pub fn failure_told()
    ensures { record_told (missed 0 Main [] 1 6 2 1 2) ≡ failed_expect 0 0 [] 1 6 2 1 2 }
{}

/// Two events that conflict.
pub fn conflict_told()
    ensures { outcome_told (Conflict 2 (acted (0 ∷ []) 4 (Poke (record { 0 = 0 }))) (acted (1 ∷ []) 7 (Peek (record { 0 = 2 }))))
        ≡ conflict 2 (event 0 (0 ∷ []) 4 (pokes 0)) (event 0 (1 ∷ []) 7 (peeks 2)) }
{}

/// The limit of one time step, and the endings of a run that settles.
pub fn other_outcomes_told()
    ensures { (outcome_told (StepActions 1) ≡ step_limit 1)
        × (outcome_told (Failed 2) ≡ settles 2 failed)
        × (outcome_told (Spent 3 (0 ∷ []) 8) ≡ settles 3 (spent_at (0 ∷ []) 8))
        × (outcome_told (Finished 4) ≡ settles 4 finished)
        × (outcome_told (ThreadLimit 5) ≡ settles 5 thread_limit)
        × (outcome_told (RecordLimit 6) ≡ settles 6 record_limit)
        × (outcome_told (RunActions 7) ≡ settles 7 action_limit)
        × (outcome_told (TimeLimit 8) ≡ settles 8 time_limit) }
{}

/// The earlier time step comes first, then Main before Monitor, a path before the longer ones that begin with it, and a thread's own
/// observations in the order of its actions.
pub fn sorted_observations()
    ensures { sorted record_le (map record_told as_seen) ≡ map record_told in_order }
{}

/// A run that ends in its first time step by a failure.
pub fn run_told()
    ensures { result_told (record { observations = missed 0 Main [] 1 2 2 1 2 ∷ []; samples = (1 ∷ 0 ∷ 1 ∷ []) ∷ []; actions = 3; outcome = Failed 0 })
        ≡ record { records = failed_expect 0 0 [] 1 2 2 1 2 ∷ []; samples = (1 ∷ 0 ∷ 1 ∷ []) ∷ []; actions = 3; outcome = settles 0 failed } }
{}
