//! Small tests over two small circuits, and what they give, computed. Each function has no body: its contract is the example.

ghost use Rattle.std.specs.Prelude.{◌≡◌, [], ◌∷◌};
ghost use Rattle.bench_model.specs.Log.Kind.{pokes, peeks};
ghost use Rattle.bench_model.specs.Settle.Ending.{failed, spent_at, finished, thread_limit, record_limit, action_limit, time_limit};
ghost use Rattle.bench_model.specs.Orders.{conflict, step_limit, settles};
ghost use Rattle.bench_model.specs.Small.{done, stuck};
ghost use Rattle.bench_model.specs.Examples.{adder, delay, few, monitor, given, given_by, event, peeked, failed_expect, ends_with, two_pokes, race, past_register, by_fork, by_join, without_join, by_region, two_monitors, failure_beside_peek, pokes_of, steps_of, children_of, peeks_of, four_actions, three_steps, two_threads, two_records, three_run_actions};

/// A test without a statement ends at once, by the end of its root thread.
pub fn empty_test()
    ensures { given adder few done ≡ ends_with [] ((0 ∷ 0 ∷ 0 ∷ []) ∷ []) 1 (settles 0 finished) }
{}

/// Two pokes of one input conflict, however equal their numbers.
pub fn two_equal_pokes()
    ensures { given adder few two_pokes ≡ ends_with [] [] 7 (conflict 0 (event 0 (0 ∷ []) 1 (pokes 0)) (event 0 (1 ∷ []) 2 (pokes 0))) }
{}

/// A poke conflicts with the peek of a signal that depends on the input.
pub fn poke_beside_peek()
    ensures { given adder few race
        ≡ ends_with (peeked 0 0 (1 ∷ []) 0 2 2 1 ∷ []) [] 7 (conflict 0 (event 0 (0 ∷ []) 1 (pokes 0)) (event 0 (1 ∷ []) 2 (peeks 2))) }
{}

/// What a register holds depends on no input of this time step, so here the poke and the peek don't conflict. Each time step is
/// sampled before its edge.
pub fn cone_ends_at_register()
    ensures { given delay few past_register
        ≡ ends_with (peeked 0 0 (1 ∷ []) 0 2 1 0 ∷ peeked 1 0 [] 5 6 1 9 ∷ []) ((9 ∷ 0 ∷ []) ∷ (9 ∷ 9 ∷ []) ∷ []) 11 (settles 1 finished) }
{}

/// A fork comes before all that its child does.
pub fn ordered_by_fork()
    ensures { given adder few by_fork ≡ ends_with (peeked 0 0 (0 ∷ []) 0 2 2 2 ∷ []) ((2 ∷ 0 ∷ 2 ∷ []) ∷ []) 6 (settles 0 finished) }
{}

/// What a child does comes before the acts of its parent after the join.
pub fn ordered_by_join()
    ensures { given adder few by_join ≡ ends_with (peeked 0 0 [] 2 3 2 2 ∷ []) ((2 ∷ 0 ∷ 2 ∷ []) ∷ []) 6 (settles 0 finished) }
{}

/// Without the join the peek of the parent and the poke of the child conflict.
pub fn not_joined()
    ensures { given adder few without_join
        ≡ ends_with (peeked 0 0 [] 1 2 2 0 ∷ []) [] 4 (conflict 0 (event 0 [] 2 (peeks 2)) (event 0 (0 ∷ []) 1 (pokes 0))) }
{}

/// A monitor acts after all threads of lesser regions.
pub fn ordered_by_region()
    ensures { given adder few by_region ≡ ends_with (peeked 0 monitor (0 ∷ []) 0 1 2 4 ∷ []) ((4 ∷ 0 ∷ 4 ∷ []) ∷ (4 ∷ 0 ∷ 4 ∷ []) ∷ []) 6 (settles 1 finished) }
{}

/// Monitors are not ordered among themselves.
pub fn monitors_conflict()
    ensures { given adder few two_monitors
        ≡ ends_with (peeked 0 monitor (1 ∷ []) 0 2 2 1 ∷ []) [] 6 (conflict 0 (event monitor (0 ∷ []) 1 (pokes 0)) (event monitor (1 ∷ []) 2 (peeks 2))) }
{}

/// A failed expect ends the run at the end of its time step, so the peek beside it is there too.
pub fn failure_goes_on()
    ensures { given adder few failure_beside_peek
        ≡ ends_with (failed_expect 0 0 (0 ∷ []) 1 1 2 1 2 ∷ peeked 0 0 (1 ∷ []) 0 2 1 0 ∷ []) ((1 ∷ 0 ∷ 1 ∷ []) ∷ []) 10 (settles 0 failed) }
{}

/// Another permitted order of the same acts gives the same run.
pub fn another_order()
    ensures { given_by adder few failure_beside_peek
        ([] ∷ [] ∷ (1 ∷ []) ∷ (1 ∷ []) ∷ (0 ∷ []) ∷ (0 ∷ []) ∷ [] ∷ (0 ∷ []) ∷ [] ∷ [] ∷ [])
        ≡ ends_with (failed_expect 0 0 (0 ∷ []) 1 1 2 1 2 ∷ peeked 0 0 (1 ∷ []) 0 2 1 0 ∷ []) ((1 ∷ 0 ∷ 1 ∷ []) ∷ []) 10 (settles 0 failed) }
{}

/// A thread that is spent ends the run, and is named with its line.
pub fn spent_thread()
    ensures { given adder few (stuck 3) ≡ ends_with [] ((0 ∷ 0 ∷ 0 ∷ []) ∷ []) 1 (settles 0 (spent_at [] 3)) }
{}

/// A time step may take as many actions as its limit.
pub fn actions_at_their_limit()
    ensures { given adder four_actions (pokes_of 3) ≡ ends_with [] ((1 ∷ 0 ∷ 1 ∷ []) ∷ []) 4 (settles 0 finished) }
{}

/// It ends the run where somebody may still act then.
pub fn actions_past_their_limit()
    ensures { given adder four_actions (pokes_of 4) ≡ ends_with [] [] 4 (step_limit 0) }
{}

/// A run may take as many time steps as their limit.
pub fn time_at_its_limit()
    ensures { given adder three_steps (steps_of 2) ≡ ends_with [] ((0 ∷ 0 ∷ 0 ∷ []) ∷ (0 ∷ 0 ∷ 0 ∷ []) ∷ (0 ∷ 0 ∷ 0 ∷ []) ∷ []) 3 (settles 2 finished) }
{}

/// The last of them ends the run.
pub fn time_past_its_limit()
    ensures { given adder three_steps (steps_of 3) ≡ ends_with [] ((0 ∷ 0 ∷ 0 ∷ []) ∷ (0 ∷ 0 ∷ 0 ∷ []) ∷ (0 ∷ 0 ∷ 0 ∷ []) ∷ []) 3 (settles 2 time_limit) }
{}

/// As many threads as their limit may be there at the end of a time step.
pub fn threads_at_their_limit()
    ensures { given adder two_threads (children_of 1) ≡ ends_with [] ((0 ∷ 0 ∷ 0 ∷ []) ∷ (0 ∷ 0 ∷ 0 ∷ []) ∷ []) 5 (settles 1 finished) }
{}

/// One more ends the run.
pub fn threads_past_their_limit()
    ensures { given adder two_threads (children_of 2) ≡ ends_with [] ((0 ∷ 0 ∷ 0 ∷ []) ∷ []) 5 (settles 0 thread_limit) }
{}

/// A run may have as many records as their limit at the end of a time step; one more ends it.
pub fn records_past_their_limit()
    ensures { (given adder two_records (peeks_of 2)
        ≡ ends_with (peeked 0 0 [] 0 1 2 0 ∷ peeked 0 0 [] 1 1 2 0 ∷ []) ((0 ∷ 0 ∷ 0 ∷ []) ∷ (0 ∷ 0 ∷ 0 ∷ []) ∷ []) 4 (settles 1 finished))
        × (given adder two_records (peeks_of 3)
        ≡ ends_with (peeked 0 0 [] 0 1 2 0 ∷ peeked 0 0 [] 1 1 2 0 ∷ peeked 0 0 [] 2 1 2 0 ∷ []) ((0 ∷ 0 ∷ 0 ∷ []) ∷ []) 4 (settles 0 record_limit)) }
{}

/// A run may have as many actions as their limit at the end of a time step; one more ends it.
pub fn run_actions_past_their_limit()
    ensures { (given adder three_run_actions (peeks_of 2)
        ≡ ends_with (peeked 0 0 [] 0 1 2 0 ∷ peeked 0 0 [] 1 1 2 0 ∷ []) ((0 ∷ 0 ∷ 0 ∷ []) ∷ (0 ∷ 0 ∷ 0 ∷ []) ∷ []) 4 (settles 1 finished))
        × (given adder three_run_actions (peeks_of 3)
        ≡ ends_with (peeked 0 0 [] 0 1 2 0 ∷ peeked 0 0 [] 1 1 2 0 ∷ peeked 0 0 [] 2 1 2 0 ∷ []) ((0 ∷ 0 ∷ 0 ∷ []) ∷ []) 4 (settles 0 action_limit)) }
{}
