//! Numbers of types that may be written alike.
//!
//! What is told here is a proposal, which rests on no proof: whoever asks compares the two types once.
use fir_ast::{Field, Ty};
use indexmap::IndexMap;
use std::alloc::Global;
use tb_base::Memory;

/// The number of the first type of each digest.
#[derive(Drop)]
pub(crate) struct Digests {
    numbers: IndexMap<u64, usize>,
}

impl Digests {
    /// None. Takes no memory.
    pub(crate) fn new(alloc: Global) -> Digests {
        Digests {
            numbers: IndexMap::new(alloc),
        }
    }

    /// The number of a type that may be written like this one. The time is linear in the size of the
    /// type's text.
    pub(crate) fn propose(&self, ty: &Ty) -> Option<usize> {
        self.numbers.get(&digest(ty, 0)).copied()
    }

    /// Gives a type a number, where none is proposed for it. The time is linear in the size of the
    /// type's text.
    pub(crate) fn give(&mut self, ty: &Ty, number: usize) -> Result<(), Memory> {
        if self.numbers.insert(digest(ty, 0), number).is_err() {
            return Err(Memory);
        }
        Ok(())
    }
}

fn mixed(so_far: u64, part: u64) -> u64 {
    (so_far ^ part)
        .wrapping_mul(0x9e37_79b9_7f4a_7c15)
        .rotate_left(29)
}

fn digest_of_width(width: Option<u8>, so_far: u64) -> u64 {
    match width {
        None => mixed(so_far, 256),
        Some(bits) => mixed(so_far, u64::from(bits)),
    }
}

fn digest_of_name(name: &[u8], so_far: u64) -> u64 {
    let mut value = so_far;
    for byte in name {
        value = mixed(value, u64::from(*byte));
    }
    mixed(value, 256)
}

#[cycle(digest)]
fn digest(ty: &Ty, so_far: u64) -> u64 {
    match ty {
        Ty::UInt(width) => digest_of_width(*width, mixed(so_far, 1)),
        Ty::SInt(width) => digest_of_width(*width, mixed(so_far, 2)),
        Ty::Clock => mixed(so_far, 3),
        Ty::Reset => mixed(so_far, 4),
        Ty::Bundle(fields) => digest_of_fields(fields.as_slice(), mixed(so_far, 5)),
        Ty::Vector(of, len) => digest(of.get(), mixed(mixed(so_far, 6), u64::from(*len))),
    }
}

#[cycle(digest)]
fn digest_of_fields(fields: &[Field], so_far: u64) -> u64 {
    let mut value = so_far;
    for field in fields {
        let named = digest_of_name(field.name.bytes(), mixed(value, u64::from(field.flip)));
        value = digest(&field.ty, named);
    }
    mixed(value, 7)
}
