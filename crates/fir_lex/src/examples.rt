//! Laws that say what the definitions give for texts that a reader can follow.
ghost use Rattle.fir_lex.specs.Examples.{Lines, Tokens, Marks, Ends};

/// A law: lines, their ends, and what is faulty on them.
pub fn the_lines_work_out()
    ensures { Lines }
{}

/// A law: comments, locators, strings, numbers and symbols.
pub fn the_tokens_work_out()
    ensures { Tokens }
{}

/// A law: forms and brackets that are marked, and some that are not.
pub fn the_marks_work_out()
    ensures { Marks }
{}

/// A law: places of texts' ends.
pub fn the_ends_work_out()
    ensures { Ends }
{}
