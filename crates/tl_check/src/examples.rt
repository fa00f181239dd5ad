//! Laws that say what the definitions of the rules give for tests that a reader can follow.
ghost use Rattle.tl_check.specs.Examples.{RuleExamples, WidthExamples, ScopeExamples, NameExamples};
ghost use Rattle.tl_check.specs.BoundsExamples.{BoundsExamples};

/// A law: tests that keep the rules, or break one or two, worked out.
pub fn the_rules_work_out()
    ensures { RuleExamples }
{}

/// A law: the literals that a port holds, worked out.
pub fn the_widths_work_out()
    ensures { WidthExamples }
{}

/// A law: where variables and handles are known, and which joins wait for a Monitor thread, worked out.
pub fn the_scopes_work_out()
    ensures { ScopeExamples }
{}

/// A law: when one name too many becomes known, worked out.
pub fn the_names_work_out()
    ensures { NameExamples }
{}

/// A law: how large some tests are, worked out.
pub fn the_bounds_work_out()
    ensures { BoundsExamples }
{}
