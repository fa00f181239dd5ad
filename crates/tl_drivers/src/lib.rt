//! Drivers and resets become core statements.
//!
//! `specs/Rows` has a row for each driver and for `reset n`: the statements that stand for it. `specs/Core` puts them in the place of
//! drivers and resets in a whole test: `core_of`. `expand` computes it: from a test that keeps the rules, a test that keeps them too.
#![tactic(auto)]

mod examples;
mod expansion;
mod rows;

ghost use Rattle.std.specs.Prelude.{◌≡◌, true, ℕ, List};
ghost use Rattle.tl_ast.specs.Tests.{spells_test};
ghost use Rattle.tl_ast.specs.declared.tree.TestText.{TestText};
ghost use Rattle.tl_drivers.specs.OwnNames.{leaves_drivers_handle};

pub use examples::{the_core_form_works_out, the_rows_work_out};
pub use expansion::expand;

/// A law: a test that a text spells, as `tl_text::read_test` finds it, leaves the handle `$d` to drivers, as `expand` asks: its names are
/// words, and no word begins with `$`.
pub fn texts_leave_the_drivers_handle()
    ensures { (text : List ℕ) (test : TestText) → spells_test text test → leaves_drivers_handle test ≡ true }
{}
