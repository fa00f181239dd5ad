//! Laws of reading what is printed: the printed form of a test is a text of the same test.
//!
//! A text is read within limits: so many open parentheses and operators in an expression, so many nested blocks and forks. Where
//! some text spells a test by the grammar and within these limits, so does its printed form, which has no parentheses but those
//! that it needs. `relined` (`specs/Relined.antt`) is the test that the printed form spells: each of its statements has the line on
//! which it is printed. Nothing else changes (`SameButLines`).
//!
//! A law is a function without arguments that does nothing; its contract is the law.
#![tactic(auto)]

mod examples;

ghost use Rattle.std.specs.Prelude.{◌≡◌, List, Some, ℕ};
ghost use Rattle.tl_ast.specs.Printed.{printed_test};
ghost use Rattle.tl_ast.specs.Tests.{test_of, spells_test};
ghost use Rattle.tl_ast.specs.declared.tree.TestText.{TestText};
ghost use Rattle.tl_round.specs.Relined.{relined, SameButLines};

pub use examples::the_new_lines_work_out;

/// A law: a test with the lines of its printed form is the same test but for its lines.
pub fn only_lines_change()
    ensures { (t : TestText) → SameButLines t (relined t) }
{}

/// A law: tests that are the same but for their lines have the same printed form.
pub fn printing_asks_for_no_lines()
    ensures { (s t : TestText) → SameButLines s t → printed_test s ≡ printed_test t }
{}

/// A law: a test with the lines of its printed form is printed in the same way again.
pub fn printed_again()
    ensures { (t : TestText) → printed_test (relined t) ≡ printed_test t }
{}

/// A law: where some text spells a test, the test's printed form spells the same test, with the lines of that form.
pub fn printed_tests_are_spelled()
    ensures { (text : List ℕ) (t : TestText) → spells_test text t → spells_test (printed_test t) (relined t) × SameButLines t (relined t) }
{}

/// A law: reading what was printed of a test that was read gives it again, with the lines of the printed form. `tl_text::read_test`
/// finds the test of a text, and `tl_ast::print_test` puts the printed form of a test.
pub fn printed_tests_read_back()
    ensures { (text : List ℕ) (t : TestText) → test_of text ≡ Some t → test_of (printed_test t) ≡ Some (relined t) }
{}
