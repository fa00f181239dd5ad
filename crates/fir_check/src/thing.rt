//! What a name or an expression stands for.
ghost use Rattle.std.specs.Prelude.{◌≡◌, ◌&&◌, not, false, true, List, option_map, is_some};
ghost use Rattle.fir_check.specs.Scopes.{turned, may_be_driven, field_thing, element_thing, is_signed_thing};
ghost use Rattle.fir_check.specs.Rules.{is_condition, is_operand, is_value, is_branch, has_element, gives_back, is_sink, is_invalid_sink, has_no_clock, fails, differ};
ghost use Rattle.fir_check.specs.Types.{is_bundle, is_clock, is_ground, is_uint, vector_of};
ghost use Rattle.fir_check.specs.declared.thing.Flow.TheVariants.{Source};
ghost use Rattle.fir_check.specs.Seen.{meant};
ghost use Rattle.fir_ast.specs.declared.tree.Ty.{Ty};

use crate::type_table::TypeTable;
use crate::types::{is_bundle, is_clock, is_ground, is_signed, is_uint, is_unsigned, vector_of};
use std::alloc::Global;

/// How a part may be driven.
#[derive(Clone, Copy)]
pub enum Flow {
    /// A wire or register.
    Free,
    /// An output port, or an input of an instance.
    Sink,
    /// An input port, or an output of an instance.
    Source,
    /// A node, a literal or an operation.
    Fixed,
}

impl Flow {
    /// The flow of a flipped part.
    pub fn turned(self) -> Flow
        ensures { result ≡ turned self }
    {
        match self {
            Flow::Free => Flow::Free,
            Flow::Sink => Flow::Source,
            Flow::Source => Flow::Sink,
            Flow::Fixed => Flow::Fixed,
        }
    }

    pub fn may_be_driven(self) -> bool
        ensures { result ≡ may_be_driven self }
    {
        matches!(self, Flow::Free | Flow::Sink)
    }
}

/// What an expression stands for. Contracts see it by `meant`, with the type in place of its number.
#[derive(Clone, Copy)]
pub struct Thing {
    /// The number of the type.
    pub number: usize,
    pub flow: Flow,
    /// Whether it is an instance itself.
    pub whole: bool,
}

impl Thing {
    /// What isn't a whole instance.
    pub fn new(number: usize, flow: Flow) -> Thing
        ensures { result ≡ record { number = number; flow = flow; whole = false } }
    {
        Thing {
            number,
            flow,
            whole: false,
        }
    }

    /// An instance as a whole, whose type is the bundle of its module's ports.
    pub fn instance(number: usize) -> Thing
        ensures { result ≡ record { number = number; flow = Source; whole = true } }
    {
        Thing {
            number,
            flow: Flow::Source,
            whole: true,
        }
    }

    /// The field of that name, which goes against its bundle where it is flipped. The time is that
    /// of a look-up.
    pub fn field(self, types: &TypeTable, name: &[u8]) -> Option<Thing>
        ensures { option_map (meant types.now) result ≡ field_thing name.now (meant types.now self) }
    {
        match types.field(self.number, name) {
            None => None,
            Some((flip, part)) => {
                if flip {
                    Some(Thing::new(part, self.flow.turned()))
                } else {
                    Some(Thing::new(part, self.flow))
                }
            }
        }
    }

    /// Any element of a vector.
    pub fn element(self, types: &TypeTable) -> Option<Thing>
        ensures { option_map (meant types.now) result ≡ element_thing (meant types.now self) }
    {
        match types.element(self.number) {
            None => None,
            Some((part, _)) => Some(Thing::new(part, self.flow)),
        }
    }

    /// Whether it may be a condition: a UInt or a Reset.
    pub fn is_condition(self, types: &TypeTable) -> bool
        ensures { result ≡ is_condition (meant types.now self) }
    {
        is_unsigned(types.ty(self.number))
    }

    /// Whether it may be an operand of an operation other than a mux.
    pub fn is_operand(self, types: &TypeTable) -> bool
        ensures { result ≡ is_operand (meant types.now self) }
    {
        is_ground(types.ty(self.number)) && !is_clock(types.ty(self.number))
    }

    /// Whether it is a value, and no instance as a whole.
    pub fn is_value(self) -> bool
        ensures { result ≡ not self.whole }
    {
        !self.whole
    }

    /// Whether it may be a branch of a mux.
    pub fn is_branch(self, types: &TypeTable) -> bool
        ensures { result ≡ is_branch (meant types.now self) }
    {
        self.is_value() && !is_clock(types.ty(self.number)) && !types.flips(self.number)
    }

    /// Whether it is a vector with an element at this place.
    pub fn has_element(self, types: &TypeTable, at: u128) -> bool
        ensures { result ≡ has_element at (meant types.now self) }
    {
        match vector_of(types.ty(self.number)) {
            None => false,
            Some((_, len)) => at < u128::from(len),
        }
    }

    /// Whether it may be the source of a connect, which drives its flipped ground parts.
    pub fn gives_back(self, types: &TypeTable) -> bool
        ensures { result ≡ gives_back (meant types.now self) }
    {
        self.flow.turned().may_be_driven() || !types.goes_against(self.number)
    }

    /// Whether it may be the sink of a connect.
    pub fn is_sink(self) -> bool
        ensures { result ≡ may_be_driven self.flow && not self.whole }
    {
        self.flow.may_be_driven() && self.is_value()
    }

    /// Whether it may be invalidated.
    pub fn is_invalid_sink(self, types: &TypeTable) -> bool
        ensures { result ≡ is_invalid_sink (meant types.now self) }
    {
        self.is_value() && (self.flow.may_be_driven() || !is_ground(types.ty(self.number)))
    }

    /// Whether it is no Clock and has none in it.
    pub fn has_no_clock(self, types: &TypeTable) -> bool
        ensures { result ≡ has_no_clock (meant types.now self) }
    {
        !types.holds_clock(self.number)
    }
}

/// Whether it is known, and may not be a condition.
pub fn fails_condition(types: &TypeTable, meaning: Option<Thing>) -> bool
    ensures { result ≡ fails is_condition (option_map (meant types.now) meaning) }
{
    match meaning {
        None => false,
        Some(thing) => !thing.is_condition(types),
    }
}

/// Whether it is known, and may not be an operand of an operation other than a mux.
pub fn fails_operand(types: &TypeTable, meaning: Option<Thing>) -> bool
    ensures { result ≡ fails is_operand (option_map (meant types.now) meaning) }
{
    match meaning {
        None => false,
        Some(thing) => !thing.is_operand(types),
    }
}

/// Whether it is known, and is an instance as a whole.
pub fn fails_value(meaning: Option<Thing>) -> bool
    ensures { (types : List Ty) → result ≡ fails is_value (option_map (meant types) meaning) }
{
    match meaning {
        None => false,
        Some(thing) => !thing.is_value(),
    }
}

/// Whether it is known, and may not be a branch of a mux.
pub fn fails_branch(types: &TypeTable, meaning: Option<Thing>) -> bool
    ensures { result ≡ fails is_branch (option_map (meant types.now) meaning) }
{
    match meaning {
        None => false,
        Some(thing) => !thing.is_branch(types),
    }
}

/// Whether it is known, and may not be the sink of a connect.
pub fn fails_sink(meaning: Option<Thing>) -> bool
    ensures { (types : List Ty) → result ≡ fails is_sink (option_map (meant types) meaning) }
{
    match meaning {
        None => false,
        Some(thing) => !thing.is_sink(),
    }
}

/// Whether it is known, and may not be the source of a connect, which drives its flipped ground parts.
pub fn fails_source(types: &TypeTable, meaning: Option<Thing>) -> bool
    ensures { result ≡ fails gives_back (option_map (meant types.now) meaning) }
{
    match meaning {
        None => false,
        Some(thing) => !thing.gives_back(types),
    }
}

/// Whether it is known, and may not be invalidated.
pub fn fails_invalid_sink(types: &TypeTable, meaning: Option<Thing>) -> bool
    ensures { result ≡ fails is_invalid_sink (option_map (meant types.now) meaning) }
{
    match meaning {
        None => false,
        Some(thing) => !thing.is_invalid_sink(types),
    }
}

/// Whether it is known, and is a Clock or has one in it.
pub fn fails_clockless(types: &TypeTable, meaning: Option<Thing>) -> bool
    ensures { result ≡ fails has_no_clock (option_map (meant types.now) meaning) }
{
    match meaning {
        None => false,
        Some(thing) => !thing.has_no_clock(types),
    }
}

/// Whether it is known, and is no ground thing.
pub fn fails_ground(types: &TypeTable, meaning: Option<Thing>) -> bool
    ensures { result ≡ fails (λ t. is_ground t.ty) (option_map (meant types.now) meaning) }
{
    match meaning {
        None => false,
        Some(thing) => !is_ground(types.ty(thing.number)),
    }
}

/// Whether it is known, and is no Clock.
pub fn fails_clock(types: &TypeTable, meaning: Option<Thing>) -> bool
    ensures { result ≡ fails (λ t. is_clock t.ty) (option_map (meant types.now) meaning) }
{
    match meaning {
        None => false,
        Some(thing) => !is_clock(types.ty(thing.number)),
    }
}

/// Whether it is known, and is no bundle.
pub fn fails_bundle(types: &TypeTable, meaning: Option<Thing>) -> bool
    ensures { result ≡ fails (λ t. is_bundle t.ty) (option_map (meant types.now) meaning) }
{
    match meaning {
        None => false,
        Some(thing) => !is_bundle(types.ty(thing.number)),
    }
}

/// Whether it is known, and is no UInt.
pub fn fails_uint(types: &TypeTable, meaning: Option<Thing>) -> bool
    ensures { result ≡ fails (λ t. is_uint t.ty) (option_map (meant types.now) meaning) }
{
    match meaning {
        None => false,
        Some(thing) => !is_uint(types.ty(thing.number)),
    }
}

/// Whether it is known, and is no vector.
pub fn fails_vector(types: &TypeTable, meaning: Option<Thing>) -> bool
    ensures { result ≡ fails (λ t. is_some (vector_of t.ty)) (option_map (meant types.now) meaning) }
{
    match meaning {
        None => false,
        Some(thing) => vector_of(types.ty(thing.number)).is_none(),
    }
}

/// Whether it is known, and is no vector with an element at this place.
pub fn fails_element(types: &TypeTable, meaning: Option<Thing>, at: u128) -> bool
    ensures { result ≡ fails (has_element at) (option_map (meant types.now) meaning) }
{
    match meaning {
        None => false,
        Some(thing) => !thing.has_element(types, at),
    }
}

/// Whether both are known, and have different shapes. The time is that of `same_shape`.
pub fn differ(alloc: Global, types: &TypeTable, one: Option<Thing>, other: Option<Thing>) -> bool
    ensures { result ≡ differ (option_map (meant types.now) one) (option_map (meant types.now) other) }
{
    match one {
        None => false,
        Some(one) => match other {
            None => false,
            Some(other) => !types.same_shape(alloc, one.number, other.number),
        },
    }
}

/// Whether it is known, and is an SInt.
pub fn is_signed_thing(types: &TypeTable, meaning: Option<Thing>) -> bool
    ensures { result ≡ is_signed_thing (option_map (meant types.now) meaning) }
{
    match meaning {
        None => false,
        Some(thing) => is_signed(types.ty(thing.number)),
    }
}
