//! Laws that say what the grammar gives for tokens that a reader can follow.
ghost use Rattle.fir_expr.specs.Examples.{TypesTaken, TypesRefused, ExpressionsTaken, ExpressionsRefused};

/// A law: types, worked out.
pub fn types_work_out()
    ensures { TypesTaken }
{}

/// A law: faults in types, each with its kind and place.
pub fn faults_in_types_work_out()
    ensures { TypesRefused }
{}

/// A law: references, literals and operations, worked out.
pub fn expressions_work_out()
    ensures { ExpressionsTaken }
{}

/// A law: faults in expressions, each with its kind and place.
pub fn faults_in_expressions_work_out()
    ensures { ExpressionsRefused }
{}
