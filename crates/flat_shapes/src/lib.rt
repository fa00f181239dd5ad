//! Laws on types: what the rules see of a type, and its ground parts.
//!
//! The rules on a circuit judge its types as they are written (`fir_check`); the elaboration takes each type apart into ground
//! parts (`fir_flat`, `shape_of`). Each law here says that both speak of the same: a field that the rules find is a row of ground
//! parts, types of one shape have counterparts of one sign, and so on. A field whose name an earlier field of its bundle has is
//! passed over by the rules, but has ground parts: laws that would be wrong of it ask that no field name is repeated.
#![tactic(auto)]

mod examples;

ghost use Rattle.flat_shapes.specs.Grounds.{GroundsAgree, InstancesAgree};
ghost use Rattle.flat_shapes.specs.Leaves.{LeavesAgree, WidthsFit};
ghost use Rattle.flat_shapes.specs.Matching.{ShapesMatch};
ghost use Rattle.flat_shapes.specs.Names.{NamesDiffer};
ghost use Rattle.flat_shapes.specs.Parts.{ElementsAgree, FieldsAgree};
ghost use Rattle.flat_shapes.specs.Sizes.{SizesAgree};
ghost use Rattle.flat_shapes.specs.Written.{WrittenTypesFit};

pub use examples::the_ground_parts_work_out;

/// A law: a ground type is one ground part of its sign, a Clock none.
pub fn ground_types_agree()
    ensures { GroundsAgree }
{}

/// A law: an instance has the ground parts of its module's ports, the inputs flipped.
pub fn instances_agree()
    ensures { InstancesAgree }
{}

/// A law: a field that the rules find has its ground parts in a row among those of its bundle.
pub fn fields_agree()
    ensures { FieldsAgree }
{}

/// A law: an element has its ground parts in a row among those of its vector.
pub fn elements_agree()
    ensures { ElementsAgree }
{}

/// A law: in types of one shape each ground part has a counterpart of its sign and its direction.
pub fn shapes_match()
    ensures { ShapesMatch }
{}

/// A law: types of one shape, in which no field name is repeated, have as many ground parts.
pub fn sizes_agree()
    ensures { SizesAgree }
{}

/// A law: what the rules find at no ground part of a type is at none, a flip as well as a width that isn't written.
pub fn leaves_agree()
    ensures { LeavesAgree }
{}

/// A law: where no width that is written is above 128, no ground part's is.
pub fn widths_fit()
    ensures { WidthsFit }
{}

/// A law: a type that a text can write has no width above 128, and the names of its ground parts are told apart.
pub fn written_types_fit()
    ensures { WrittenTypesFit }
{}

/// A law: no two ground parts of a type, and no two of a list of ports, have one name.
pub fn names_differ()
    ensures { NamesDiffer }
{}
