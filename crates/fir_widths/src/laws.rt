//! Laws of least widths.
ghost use Rattle.std.specs.Prelude.{◌≡◌, ℕ, List};
ghost use Rattle.net_core.specs.declared.tree.Elab.{Elab};
ghost use Rattle.net_core.specs.Widths.{IsLeast};
ghost use Rattle.fir_widths.specs.FoundExamples.{FoundExamples};
ghost use Rattle.fir_widths.specs.Least.{least_widths};

use net_core::the_least_widths_work_out;

/// A law: rounds over the connects find the least widths.
pub fn the_least_widths_are_found()
    ensures { (e : Elab) → IsLeast e (least_widths e) }
{}

/// A law: a circuit has no other least widths.
pub fn least_widths_are_one()
    ensures { (e : Elab) (w : List ℕ) → IsLeast e w → w ≡ least_widths e }
{}

/// A law: least widths that the rounds find, worked out.
pub fn the_rounds_work_out()
    ensures { FoundExamples }
{
    the_least_widths_work_out();
}
