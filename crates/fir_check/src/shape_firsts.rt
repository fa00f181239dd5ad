//! The first type of each shape.
//!
//! What is told here is a proposal, which rests on no proof: whoever asks compares the two types once,
//! when a type is added.
use fir_ast::{Field, Ty};
use indexmap::{IndexMap, IndexSet};
use std::alloc::Global;
use tb_base::Memory;

/// A field, by the numbers of its name and of the shape of its type.
#[derive(Clone, Copy, Debug, Hash, PartialEq, Eq, PartialOrd, Ord)]
struct Part {
    name: usize,
    flip: bool,
    shape: usize,
}

/// A shape other than that of a number.
#[derive(Debug, Drop, Hash, PartialEq, Eq)]
enum Shape {
    Clock,
    /// The number of the element's shape, and the length.
    Vector(usize, u32),
    /// The fields that the names mean, in the order of the names' numbers.
    Bundle(Vec<Part>),
}

/// The shapes of types, and the names in them.
#[derive(Drop)]
pub struct ShapeFirsts {
    names: IndexSet<Vec<u8>>,
    /// For each name the number of the last bundle that has it.
    marks: Vec<usize>,
    firsts: IndexMap<Shape, usize>,
}

impl ShapeFirsts {
    /// None. Takes no memory.
    pub fn new(alloc: Global) -> ShapeFirsts {
        ShapeFirsts {
            names: IndexSet::new(alloc),
            marks: Vec::new(alloc),
            firsts: IndexMap::new(alloc),
        }
    }

    /// The number of a name.
    fn name(&mut self, alloc: Global, name: &[u8]) -> Result<usize, Memory> {
        if let Some(number) = self.names.get_index_of(name) {
            return Ok(number);
        }
        let own = Vec::from_slice(alloc, name)?;
        let (number, _) = self.names.insert_full(own)?;
        self.marks.push(usize::MAX)?;
        Ok(number)
    }

    /// Whether a bundle has this name for the first time; the bundle has the number `bundle`.
    fn is_new(&mut self, name: usize, bundle: usize) -> bool {
        match self.marks.get_mut(name) {
            None => true,
            Some(mark) => {
                let is_new = *mark != bundle;
                *mark = bundle;
                is_new
            }
        }
    }

    /// The fields of a bundle that its names mean, where these are the shapes of the types of all; the
    /// bundle has the number `bundle`.
    fn parts(
        &mut self,
        alloc: Global,
        fields: &[Field],
        shapes: &[usize],
        bundle: usize,
    ) -> Result<Vec<Part>, Memory> {
        let mut parts = Vec::new(alloc);
        for (field, shape) in fields.iter().zip(shapes) {
            let name = self.name(alloc, field.name.bytes())?;
            if self.is_new(name, bundle) {
                let part = Part {
                    name,
                    flip: field.flip,
                    shape: *shape,
                };
                parts.push(part)?;
            }
        }
        parts.sort()?;
        Ok(parts)
    }

    /// The first type that was told of this shape, else this one.
    fn first(&mut self, shape: Shape, number: usize) -> Result<usize, Memory> {
        if let Some(first) = self.firsts.get(&shape) {
            return Ok(*first);
        }
        self.firsts.insert(shape, number)?;
        Ok(number)
    }

    /// The number of the first type that may have the shape of this one, which is to have the number
    /// `number`, where `shapes` are those of the types in it. The types of numbers without and with
    /// a sign are the first and the second. The time is that of a look-up for each field, and of a
    /// sort.
    pub fn propose(
        &mut self,
        alloc: Global,
        ty: &Ty,
        shapes: &[usize],
        number: usize,
    ) -> Result<usize, Memory> {
        match ty {
            Ty::UInt(_) | Ty::Reset => Ok(0),
            Ty::SInt(_) => Ok(1),
            Ty::Clock => self.first(Shape::Clock, number),
            Ty::Vector(_, len) => {
                let of = shapes.first().copied().unwrap_or(number);
                self.first(Shape::Vector(of, *len), number)
            }
            Ty::Bundle(fields) => {
                let parts = self.parts(alloc, fields.as_slice(), shapes, number)?;
                self.first(Shape::Bundle(parts), number)
            }
        }
    }
}
