//! A law that says what the definitions give for graphs that a reader can follow.
ghost use Rattle.net_graph.specs.Examples.{GraphExamples};

/// A law: reads, cones and loops, worked out.
pub fn the_graphs_work_out()
    ensures { GraphExamples }
{}
