//! What a test text can write.
//!
//! A text is read within limits, and token by token. So every test that a text spells has at most so many nested blocks and forks, no
//! long expressions, and no more statements and values of drivers than the text has bytes: `WrittenBy` (`specs/Written.antt`).
#![tactic(auto)]

ghost use Rattle.std.specs.Prelude.{◌≤◌, ℕ, List, length};
ghost use Rattle.tl_ast.specs.Tests.{spells_test};
ghost use Rattle.tl_ast.specs.declared.tree.TestText.{TestText};
ghost use Rattle.tl_check.specs.Bounds.{TestBounds};
ghost use Rattle.tl_written.specs.Written.{WrittenBy, text_limit};

/// A law: a test keeps the limits of the text that spells it.
pub fn spelled_tests_are_written()
    ensures { (text : List ℕ) (test : TestText) → spells_test text test → WrittenBy text test }
{}

/// A law: a test that a text of at most 262,144 bytes spells, as `tl_text::read_test` finds it, keeps the bounds that
/// `tl_check::check_test` asks for.
pub fn texts_spell_written_tests()
    ensures { (text : List ℕ) (test : TestText) → length text ≤ text_limit → spells_test text test → TestBounds test }
{}
