//! Laws that say what the definitions of the rules give for types, circuits and statements that a
//! reader can follow.
ghost use Rattle.fir_check.specs.Examples.{CircuitExamples, LineExamples, OperandExamples, RegisterExamples, ShapeExamples, StatementExamples};

/// A law: shapes of types, worked out.
pub fn the_shapes_work_out()
    ensures { ShapeExamples }
{}

/// A law: circuits that break a rule or two, worked out.
pub fn the_circuits_work_out()
    ensures { CircuitExamples }
{}

/// A law: statements that keep or break a rule, worked out.
pub fn the_statements_work_out()
    ensures { StatementExamples }
{}

/// A law: lines of circuits that break one rule, worked out.
pub fn the_lines_work_out()
    ensures { LineExamples }
{}

/// A law: operands, fields and indices that are of the wrong kind or not, worked out.
pub fn the_operands_work_out()
    ensures { OperandExamples }
{}

/// A law: registers, resets and verification statements, worked out.
pub fn the_registers_work_out()
    ensures { RegisterExamples }
{}
