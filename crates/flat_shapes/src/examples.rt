//! A law that says what the definitions give for types that a reader can follow.
ghost use Rattle.flat_shapes.specs.Examples.{Shown};

/// A law: the names, directions and counterparts of the ground parts of two bundles.
pub fn the_ground_parts_work_out()
    ensures { Shown }
{}
