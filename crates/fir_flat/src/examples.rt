//! Laws that say what the definitions of the elaboration give for types and circuits that a reader
//! can follow.
ghost use Rattle.fir_flat.specs.Shapes.{LeavesCounted};
ghost use Rattle.fir_flat.specs.Examples.{AdderExamples, BundleExamples, IndexExamples, InstanceExamples, LeafExamples, QueueExamples};

/// A law: ground parts of types, worked out.
pub fn the_leaves_work_out()
    ensures { LeafExamples }
{}

/// A law: the sum of two inputs, worked out.
pub fn the_adder_works_out()
    ensures { AdderExamples }
{}

/// A law: a connect of bundles and an invalidation, worked out.
pub fn the_bundles_work_out()
    ensures { BundleExamples }
{}

/// A law: an instance inside a When, worked out.
pub fn the_instances_work_out()
    ensures { InstanceExamples }
{}

/// A law: computed indices, worked out.
pub fn the_indices_work_out()
    ensures { IndexExamples }
{}

/// A law: the ports, signals and registers of a queue, worked out.
pub fn the_queue_works_out()
    ensures { QueueExamples }
{}

/// A law: the size of a type is the number of its ground parts.
pub fn the_sizes_count_leaves()
    ensures { LeavesCounted }
{}
