//! Laws that tie the definitions of a test text's tree and faults to each other.
ghost use Rattle.tl_ast.specs.Tests.{SpelledOnce, FaultsWhereNone, FrontsGoOn};

/// A text spells at most one test, the one that `test_of` finds.
pub fn texts_spell_once()
    ensures { SpelledOnce }
{}

/// A text spells a test or has a first fault, and not both.
pub fn fault_where_none()
    ensures { FaultsWhereNone }
{}

/// A front of tests is exactly what some text of the grammar begins with.
pub fn fronts_go_on()
    ensures { FrontsGoOn }
{}
