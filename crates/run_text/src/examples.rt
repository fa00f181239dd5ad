//! Laws that say what the definitions give for runs that a reader can follow.
ghost use Rattle.run_text.specs.Examples.{ReportExamples};

/// A law: reports of runs, worked out.
pub fn the_reports_work_out()
    ensures { ReportExamples }
{}
