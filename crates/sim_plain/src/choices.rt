//! Values of choices. Nothing is allocated.
ghost use Rattle.std.specs.Prelude.{◌≡◌, true};
ghost use Rattle.net_core.specs.Last.{source};
ghost use Rattle.net_core.specs.Nets.{choices_of, one_choice, nothing, chosen};
ghost use Rattle.sim_plain.specs.Words.{at, InWidths, source_fits, choices_fit};

use crate::words::{computed, nothing, number_at};
use net_core::{Choice, GroundExpr, SignalInfo};
use tb_base::Bits;

/// What a Take gives: an invalidation gives 0.
fn source_value(e: &Option<GroundExpr>, signals: &[SignalInfo], values: &[u128]) -> Bits
    ensures { InWidths signals.now (at values.now) → source_fits signals.now (at values.now) e.now ≡ true → result ≡ source signals.now e.now (at values.now) }
{
    match e {
        None => nothing(),
        Some(e) => computed(e, signals, values),
    }
}

/// The value of one choice, or what was before.
#[cycle(choose)]
fn one_value(
    choice: &Choice,
    signals: &[SignalInfo],
    values: &[u128],
    before: Option<Bits>,
) -> Option<Bits>
    ensures { InWidths signals.now (at values.now) → choices_fit signals.now (at values.now) (one_choice choice.now nothing) ≡ true → result ≡ chosen signals.now (at values.now) (one_choice choice.now nothing) before }
{
    match choice {
        Choice::Take(e) => Some(source_value(e, signals, values)),
        Choice::When { cond, taken, other } => {
            if number_at(values, cond.0 as usize) == 1 {
                chosen_value(taken.as_slice(), signals, values, before)
            } else {
                chosen_value(other.as_slice(), signals, values, before)
            }
        }
    }
}

/// The value of the last Take all of whose Whens hold, or what was before, where `values` has the bits of each signal.
/// It takes time linear in the size of the choices at most: of a When only one side is evaluated.
#[cycle(choose)]
pub fn chosen_value(
    choices: &[Choice],
    signals: &[SignalInfo],
    values: &[u128],
    before: Option<Bits>,
) -> Option<Bits>
    ensures { InWidths signals.now (at values.now) → choices_fit signals.now (at values.now) (choices_of choices.now) ≡ true → result ≡ chosen signals.now (at values.now) (choices_of choices.now) before }
{
    let mut so_far = before;
    for choice in choices {
        so_far = one_value(choice, signals, values, so_far);
    }
    so_far
}
