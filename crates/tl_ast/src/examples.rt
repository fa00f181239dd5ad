//! Laws that say what the definition of the printed form gives.
ghost use Rattle.tl_ast.specs.Examples.{PrintedExamples};
ghost use Rattle.tl_ast.specs.GrammarExamples.{SpelledExamples, FaultyExamples};
ghost use Rattle.tl_ast.specs.Parentheses.{ParenthesesRules};

/// A law: printed trees that a reader can follow, worked out.
pub fn the_printed_form_works_out()
    ensures { PrintedExamples }
{}

/// A law: which operands stand in parentheses, in words of their operators.
pub fn parentheses_stand_by_tightness()
    ensures { ParenthesesRules }
{}

/// A law: texts that a reader can follow, and the tests that they spell.
pub fn spelled_texts_work_out()
    ensures { SpelledExamples }
{}

/// A law: texts that spell no test, and their first faults.
pub fn faults_work_out()
    ensures { FaultyExamples }
{}
