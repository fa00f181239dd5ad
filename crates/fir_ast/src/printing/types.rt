//! The printed form of types.
ghost use Rattle.std.specs.Prelude.{◌≡◌, ◌++◌, OnOk, codes, map, true};
ghost use Rattle.tb_base.specs.Joined.{joined};
ghost use Rattle.fir_ast.specs.Printed.{type_text, field_text, flip_text, width_text, bundle_text, listed};

use crate::tree::{Field, Ty};
use std::alloc::Global;
use tb_base::{Memory, put, put_decimal, put_gap};

/// Puts `<w>` behind the text, or nothing where no width is written.
pub(crate) fn put_width(alloc: Global, out: &mut Vec<u8>, width: Option<u8>) -> Result<(), Memory>
    ensures { OnOk result (out.new.items ≡ out.old.items ++ width_text width) }
{
    match width {
        None => Ok(()),
        Some(w) => {
            put(out, b"<")?;
            put_decimal(alloc, out, u128::from(w))?;
            put(out, b">")?;
            Ok(())
        }
    }
}

fn flip_word(flip: bool) -> &'static [u8]
    ensures { result.now ≡ flip_text flip }
{
    if flip { b"flip " } else { b"" }
}

/// Puts the type behind the text.
#[cycle(print_type)]
pub(crate) fn put_type(alloc: Global, out: &mut Vec<u8>, ty: &Ty) -> Result<(), Memory>
    ensures { OnOk result (out.new.items ≡ out.old.items ++ type_text ty.now) }
{
    match ty {
        Ty::UInt(width) => {
            put(out, b"UInt")?;
            put_width(alloc, out, *width)?;
            Ok(())
        }
        Ty::SInt(width) => {
            put(out, b"SInt")?;
            put_width(alloc, out, *width)?;
            Ok(())
        }
        Ty::Clock => {
            put(out, b"Clock")?;
            Ok(())
        }
        Ty::Reset => {
            put(out, b"Reset")?;
            Ok(())
        }
        Ty::Bundle(fields) => {
            put_bundle(alloc, out, fields.as_slice())?;
            Ok(())
        }
        Ty::Vector(of, len) => {
            put_type(alloc, out, of.get())?;
            put(out, b"[")?;
            put_decimal(alloc, out, u128::from(*len))?;
            put(out, b"]")?;
            Ok(())
        }
    }
}

#[cycle(print_type)]
fn put_bundle(alloc: Global, out: &mut Vec<u8>, fields: &[Field]) -> Result<(), Memory>
    ensures { OnOk result (out.new.items ≡ out.old.items ++ bundle_text (map field_text fields.now)) }
{
    if fields.is_empty() {
        put(out, b"{}")?;
        return Ok(());
    }
    put(out, b"{ ")?;
    put_fields(alloc, out, fields)?;
    put(out, b" }")?;
    Ok(())
}

#[cycle(print_type)]
fn put_fields(alloc: Global, out: &mut Vec<u8>, fields: &[Field]) -> Result<(), Memory>
    ensures { OnOk result (out.new.items ≡ out.old.items ++ listed (map field_text fields.now)) }
{
    let mut is_first = true;
    for field in fields {
        put_gap(out, b", ", is_first)?;
        put_field(alloc, out, field)?;
        is_first = false;
    }
    Ok(())
}

#[cycle(print_type)]
fn put_field(alloc: Global, out: &mut Vec<u8>, field: &Field) -> Result<(), Memory>
    ensures { OnOk result (out.new.items ≡ out.old.items ++ field_text field.now) }
{
    put(out, flip_word(field.flip))?;
    put(out, field.name.bytes())?;
    put(out, b" : ")?;
    put_type(alloc, out, &field.ty)?;
    Ok(())
}
