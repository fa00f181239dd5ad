//! Laws that say what the definitions give for circuits that a reader can follow.
ghost use Rattle.net_core.specs.DelayExamples.{DelayExamples};
ghost use Rattle.net_core.specs.Examples.{ReadExamples, ValueExamples, WidthExamples};
ghost use Rattle.net_core.specs.FormedExamples.{FormedExamples};
ghost use Rattle.net_core.specs.LeastExamples.{LeastExamples};
ghost use Rattle.net_core.specs.PathExamples.{ConeExamples, PathExamples};
ghost use Rattle.net_core.specs.QueueExamples.{QueueExamples};

/// A law: values and edges, worked out.
pub fn the_values_work_out()
    ensures { ValueExamples }
{}

/// A law: reads, loops and open branches, worked out.
pub fn the_reads_work_out()
    ensures { ReadExamples }
{}

/// A law: widths and their rules, worked out.
pub fn the_widths_work_out()
    ensures { WidthExamples }
{}

/// A law: circuits that are formed and sized, and some that aren't, worked out.
pub fn the_forms_work_out()
    ensures { FormedExamples }
{}

/// A law: settled values and edges of registers, worked out.
pub fn the_delays_work_out()
    ensures { DelayExamples }
{}

/// A law: cones, and a wire that is left open, worked out.
pub fn the_cones_work_out()
    ensures { ConeExamples }
{}

/// A law: chains and loops, worked out.
pub fn the_paths_work_out()
    ensures { PathExamples }
{}

/// A law: least widths, worked out.
pub fn the_least_widths_work_out()
    ensures { LeastExamples }
{}

/// A law: the elaborated circuit of a queue, worked out.
pub fn the_queue_works_out()
    ensures { QueueExamples }
{}
