//! Laws that say what the grammar of rows gives for lines that a reader can follow.
ghost use Rattle.fir_rows.specs.Examples.{Declarations, Sinks, Names, Verification, Faults, Heads};

/// A law: declarations, worked out, and where a reset may stand.
pub fn declarations_work_out()
    ensures { Declarations }
{}

/// A law: connects and invalidations, worked out.
pub fn sinks_work_out()
    ensures { Sinks }
{}

/// A law: rows whose words are names of what they drive or declare.
pub fn names_work_out()
    ensures { Names }
{}

/// A law: verification statements, worked out.
pub fn verification_works_out()
    ensures { Verification }
{}

/// A law: faulty rows, and where they are faulty first.
pub fn faults_work_out()
    ensures { Faults }
{}

/// A law: ports and heads, worked out.
pub fn heads_work_out()
    ensures { Heads }
{}
