//! Small tests over two small circuits, and what they give, computed. Each function has no body: its contract is the example.

ghost use Rattle.std.specs.Prelude.{◌≡◌, [], ◌∷◌};
ghost use Rattle.net_core.specs.Examples.{delay};
ghost use Rattle.bench_model.specs.Log.Kind.{pokes, peeks};
ghost use Rattle.bench_model.specs.Settle.Ending.{failed, finished};
ghost use Rattle.bench_model.specs.Orders.{conflict, settles};
ghost use Rattle.bench_model.specs.Examples.{event, peeked, failed_expect, ends_with};
ghost use Rattle.bench_setting.specs.Examples.{sum, given, given_by, pokes_and_peek, reads_back, race, apart, joined, watched, fails, past_register, RuleExamples};

/// The tests of the examples keep the rules for the ports of their circuits.
pub fn the_tests_keep_the_rules()
    ensures { RuleExamples }
{}

/// An input takes the low bits of a number, a peek finds the settled number, and the time step is sampled at all ports.
pub fn poke_then_peek()
    ensures { given sum pokes_and_peek ≡ ends_with (peeked 0 0 [] 2 3 2 7 ∷ []) ((3 ∷ 4 ∷ 7 ∷ []) ∷ []) 4 (settles 0 finished) }
{}

/// A peek into a variable makes no record, and the number can be poked again.
pub fn peeked_number_poked()
    ensures { given sum reads_back ≡ ends_with (peeked 0 0 [] 3 5 2 9 ∷ []) ((5 ∷ 4 ∷ 9 ∷ []) ∷ []) 5 (settles 0 finished) }
{}

/// The poke of an input conflicts with the peek of an output that depends on it.
pub fn poke_beside_peek()
    ensures { given sum race
        ≡ ends_with (peeked 0 0 [] 1 3 2 0 ∷ []) [] 4 (conflict 0 (event 0 [] 3 (peeks 2)) (event 0 (0 ∷ []) 2 (pokes 0))) }
{}

/// The peek of another input doesn't conflict with it.
pub fn poke_apart()
    ensures { given sum apart ≡ ends_with (peeked 0 0 [] 1 3 1 0 ∷ []) ((1 ∷ 0 ∷ 1 ∷ []) ∷ []) 5 (settles 0 finished) }
{}

/// Another permitted order of that test gives the same run.
pub fn another_order()
    ensures { given_by sum apart ([] ∷ (0 ∷ []) ∷ (0 ∷ []) ∷ [] ∷ [] ∷ [])
        ≡ ends_with (peeked 0 0 [] 1 3 1 0 ∷ []) ((1 ∷ 0 ∷ 1 ∷ []) ∷ []) 5 (settles 0 finished) }
{}

/// What a child does comes before the acts of its parent after the join.
pub fn ordered_by_join()
    ensures { given sum joined ≡ ends_with (peeked 0 0 [] 2 4 2 2 ∷ []) ((2 ∷ 0 ∷ 2 ∷ []) ∷ []) 6 (settles 0 finished) }
{}

/// A Monitor thread acts after all Main threads.
pub fn ordered_by_region()
    ensures { given sum watched ≡ ends_with (peeked 0 1 (0 ∷ []) 0 2 2 4 ∷ []) ((4 ∷ 0 ∷ 4 ∷ []) ∷ []) 5 (settles 0 finished) }
{}

/// A failed expect ends the run at the end of its time step, so the peek behind it is there too.
pub fn failure_goes_on()
    ensures { given sum fails
        ≡ ends_with (failed_expect 0 0 [] 1 2 2 1 2 ∷ peeked 0 0 [] 2 3 0 1 ∷ []) ((1 ∷ 0 ∷ 1 ∷ []) ∷ []) 4 (settles 0 failed) }
{}

/// What a register holds depends on no input of the time step, so here the poke and the peek don't conflict. The register takes its input
/// at the edge, after the sample.
pub fn cone_ends_at_register()
    ensures { given delay past_register
        ≡ ends_with (peeked 0 0 [] 1 3 2 0 ∷ peeked 1 0 [] 3 5 2 9 ∷ []) ((9 ∷ 0 ∷ 0 ∷ []) ∷ (9 ∷ 0 ∷ 9 ∷ []) ∷ []) 7 (settles 1 finished) }
{}
