//! Laws that say what the definitions give for values that a reader can follow.
ghost use Rattle.tb_base.specs.Examples.{RowExamples, WidthExamples, TextExamples};

/// A law: rows of the table of operations, worked out.
pub fn the_rows_work_out()
    ensures { RowExamples }
{}

/// A law: widths of results, worked out.
pub fn the_widths_work_out()
    ensures { WidthExamples }
{}

/// A law: numerals, names and printed paths, worked out.
pub fn the_texts_work_out()
    ensures { TextExamples }
{}
