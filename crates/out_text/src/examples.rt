//! Laws that say what the definitions give for circuits that a reader can follow.
ghost use Rattle.out_text.specs.Examples.{SummaryExamples};

/// A law: summaries of an adder and of a delay, worked out.
pub fn the_summaries_work_out()
    ensures { SummaryExamples }
{}
