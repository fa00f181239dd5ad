//! Laws that say what the definitions give for drivers and tests that a reader can follow.
ghost use Rattle.tl_drivers.specs.Examples.{DriverExamples, CoreExamples};

/// A law: what stands for each driver and for a reset, worked out.
pub fn the_rows_work_out()
    ensures { DriverExamples }
{}

/// A law: the core form of some tests, worked out.
pub fn the_core_form_works_out()
    ensures { CoreExamples }
{}
