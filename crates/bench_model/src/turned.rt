//! The definitions turned, one at a time: in each case an example or a law fails. Each function has no body: its contract is the
//! counterexample. Where nothing is turned, the turned runs are those of the bench (`upright_is` and `all_links` in `proofs/`).

ghost use Rattle.std.specs.Prelude.{◌≡◌, [], ◌∷◌, true, false, Some};
ghost use Rattle.bench_model.specs.Log.Kind.{pokes, peeks};
ghost use Rattle.bench_model.specs.Settle.Ending.{failed, finished, time_limit};
ghost use Rattle.bench_model.specs.Orders.{conflict, settles, first_order, replay, run_of};
ghost use Rattle.bench_model.specs.Small.{setting};
ghost use Rattle.bench_model.specs.Examples.{adder, delay, few, monitor, given_by, event, peeked, failed_expect, ends_with, two_pokes, three_pokes, past_register, by_fork, by_join, by_region, failure_beside_peek, pokes_of};
ghost use Rattle.bench_model.specs.Turned.{turned_by, turned_conflicts, outcome_of, with_links, values_count, joins_always_wait, failures_end, late_samples, enabled_in, running_in};

/// Without the link from a fork to the child, a test that is ordered by a fork would conflict.
pub fn without_fork_links()
    ensures { turned_conflicts (setting adder few by_fork) (with_links (setting adder few by_fork) true false true true) ([] ∷ [] ∷ [] ∷ (0 ∷ []) ∷ []) ≡ true }
{}

/// Without the link from the end of a child to its join, a test that is ordered by a join would conflict.
pub fn without_join_links()
    ensures { turned_conflicts (setting adder few by_join) (with_links (setting adder few by_join) true true false true) ([] ∷ [] ∷ (0 ∷ []) ∷ (0 ∷ []) ∷ [] ∷ []) ≡ true }
{}

/// Without the link from lesser to greater regions, a test that is ordered by regions would conflict.
pub fn without_region_links()
    ensures { turned_conflicts (setting adder few by_region) (with_links (setting adder few by_region) true true true false) ([] ∷ [] ∷ [] ∷ (0 ∷ []) ∷ []) ≡ true }
{}

/// Without the link between the events of one thread, a thread that pokes an input twice would conflict with itself.
pub fn without_thread_links()
    ensures { turned_conflicts (setting adder few (pokes_of 2)) (with_links (setting adder few (pokes_of 2)) false true true true) ([] ∷ [] ∷ []) ≡ true }
{}

/// Were pokes of an equal number no conflict, two equal pokes would pass; and of two orders of one test
/// one would settle and the other conflict.
pub fn values_that_count()
    ensures { (outcome_of (turned_by (setting adder few two_pokes) (values_count (setting adder few two_pokes)) ([] ∷ [] ∷ [] ∷ (0 ∷ []) ∷ (0 ∷ []) ∷ [] ∷ (1 ∷ []) ∷ (1 ∷ []) ∷ [] ∷ []))
        ≡ Some (settles 0 finished))
        × (outcome_of (turned_by (setting adder few three_pokes) (values_count (setting adder few three_pokes)) ([] ∷ [] ∷ [] ∷ (0 ∷ []) ∷ (0 ∷ []) ∷ (0 ∷ []) ∷ [] ∷ (1 ∷ []) ∷ (1 ∷ []) ∷ [] ∷ []))
        ≡ Some (settles 0 finished))
        × (outcome_of (turned_by (setting adder few three_pokes) (values_count (setting adder few three_pokes)) ([] ∷ [] ∷ [] ∷ (1 ∷ []) ∷ (0 ∷ []) ∷ []))
        ≡ Some (conflict 0 (event 0 (1 ∷ []) 2 (pokes 0)) (event 0 (0 ∷ []) 1 (pokes 0)))) }
{}

/// Did a join wait for a child that has ended, a thread would wait for ever in one order, where the one-thread order ends at once.
pub fn joins_that_wait()
    ensures { (outcome_of (turned_by (setting adder few by_join) (joins_always_wait (setting adder few by_join)) ([] ∷ (0 ∷ []) ∷ (0 ∷ []) ∷ [] ∷ []))
        ≡ Some (settles 3 time_limit))
        × (outcome_of (turned_by (setting adder few by_join) (joins_always_wait (setting adder few by_join)) ([] ∷ [] ∷ (0 ∷ []) ∷ (0 ∷ []) ∷ [] ∷ [] ∷ []))
        ≡ Some (settles 0 finished)) }
{}

/// Did a failure end the run at once, two permitted orders of one test would give different runs: with the peek beside it and
/// without.
pub fn failures_that_end()
    ensures { (turned_by (setting adder few failure_beside_peek) (failures_end (setting adder few failure_beside_peek)) ([] ∷ [] ∷ [] ∷ (0 ∷ []) ∷ (0 ∷ []) ∷ [])
        ≡ ends_with (failed_expect 0 0 (0 ∷ []) 1 1 2 1 2 ∷ []) ((1 ∷ 0 ∷ 1 ∷ []) ∷ []) 5 (settles 0 failed))
        × (turned_by (setting adder few failure_beside_peek) (failures_end (setting adder few failure_beside_peek)) ([] ∷ [] ∷ (1 ∷ []) ∷ (0 ∷ []) ∷ (0 ∷ []) ∷ [])
        ≡ ends_with (failed_expect 0 0 (0 ∷ []) 1 1 2 1 2 ∷ peeked 0 0 (1 ∷ []) 0 2 1 0 ∷ []) ((1 ∷ 0 ∷ 1 ∷ []) ∷ []) 5 (settles 0 failed)) }
{}

/// Were the edge taken before the ports are sampled, the sample of a time step would show what a register holds only after it.
pub fn edge_before_samples()
    ensures { run_of (late_samples (setting delay few past_register)) (replay (late_samples (setting delay few past_register)) (first_order (late_samples (setting delay few past_register))))
        ≡ ends_with (peeked 0 0 (1 ∷ []) 0 2 1 0 ∷ peeked 1 0 [] 5 6 1 9 ∷ []) ((9 ∷ 9 ∷ []) ∷ (9 ∷ 9 ∷ []) ∷ []) 11 (settles 1 finished) }
{}

/// A monitor is running beside its parent and isn't enabled. Were it enabled there, a test that is ordered by regions would have an
/// order that conflicts.
pub fn monitors_beside_others()
    ensures { (running_in (replay (setting adder few by_region) ([] ∷ [])) (0 ∷ []) ≡ true)
        × (enabled_in (replay (setting adder few by_region) ([] ∷ [])) (0 ∷ []) ≡ false)
        × (outcome_of (given_by adder few by_region ([] ∷ (0 ∷ []) ∷ [] ∷ []))
        ≡ Some (conflict 0 (event monitor (0 ∷ []) 1 (peeks 2)) (event 0 [] 2 (pokes 0)))) }
{}
