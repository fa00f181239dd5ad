//! Types as the rules see them.
//!
//! A field whose name an earlier field of its bundle has is passed over: the name means the first.
//! Every function here goes along the nesting of the type. Where many fields' names have to be looked
//! up, a table of them is made; where there isn't enough memory for it, the fields are looked through
//! each time, and the time is quadratic in their number.
ghost use Rattle.std.specs.Prelude.{◌≡◌, ◌≤◌, ◌&&◌, true, not, option_map, map, take, length, IfOk, IfSome};
ghost use Rattle.std.specs.List.{list_any};
ghost use Rattle.fir_check.specs.Names.{is_among};
ghost use Rattle.fir_check.specs.Types.{is_ground, is_clock, is_signed, is_uint, is_unsigned, is_bundle, vector_of, repeats_field, has_flip, holds_clock, same_shape, leaves};
ghost use Rattle.fir_check.specs.Rules.{has_unsized_input};
ghost use Rattle.fir_check.specs.Tables.{NamesFields, is_below};
ghost use Rattle.fir_check.specs.Fields.{lent_slot, lent_pair, field_name, field_type, named_slot, first_fields, repeats_name, flips, is_wanted, has_wanted, have_matches, have_names, has_match, matches};

use crate::name_table::{NameTable, table_of_fields};
use fir_ast::{Field, Port, Ty};
use indexmap::IndexSet;
use std::alloc::Global;
use tb_base::Memory;

/// Whether it is a type of one value.
pub fn is_ground(ty: &Ty) -> bool
    ensures { result ≡ is_ground ty.now }
{
    matches!(ty, Ty::UInt(_) | Ty::SInt(_) | Ty::Clock | Ty::Reset)
}

/// Whether it is the type Clock.
pub fn is_clock(ty: &Ty) -> bool
    ensures { result ≡ is_clock ty.now }
{
    matches!(ty, Ty::Clock)
}

/// Whether it is an SInt of any width.
pub fn is_signed(ty: &Ty) -> bool
    ensures { result ≡ is_signed ty.now }
{
    matches!(ty, Ty::SInt(_))
}

/// Whether it is a UInt of any width.
pub fn is_uint(ty: &Ty) -> bool
    ensures { result ≡ is_uint ty.now }
{
    matches!(ty, Ty::UInt(_))
}

/// Whether it is a UInt of any width or a Reset, which is a UInt of one bit.
pub fn is_unsigned(ty: &Ty) -> bool
    ensures { result ≡ is_unsigned ty.now }
{
    matches!(ty, Ty::UInt(_) | Ty::Reset)
}

pub fn is_bundle(ty: &Ty) -> bool
    ensures { result ≡ is_bundle ty.now }
{
    matches!(ty, Ty::Bundle(_))
}

/// A vector's element and length.
pub fn vector_of(ty: &Ty) -> Option<(&Ty, u32)>
    ensures { option_map lent_pair result ≡ vector_of ty.now }
{
    match ty {
        Ty::Vector(of, len) => Some((of.get(), *len)),
        _ => None,
    }
}

fn first_named<'a>(name: &[u8], fields: &'a [Field]) -> Option<&'a Field>
    ensures { option_map lent_slot result ≡ named_slot name.now fields.now }
{
    let mut k = 0;
    while k < fields.len() {
        let field = &fields[k];
        if field.name.bytes() == name {
            return Some(field);
        }
        k += 1;
    }
    None
}

/// The field of a name, by the table of the fields' names. The time is that of a look-up.
fn named_in_table<'a>(name: &[u8], fields: &'a [Field], table: &NameTable) -> Option<&'a Field>
    requires { NamesFields fields.now table.now }
    ensures { option_map lent_slot result ≡ named_slot name.now fields.now }
{
    match table.find(name) {
        None => None,
        Some(number) => Some(&fields[number]),
    }
}

/// The field of a name, by the table of the fields' names where there is one.
fn look_up<'a>(name: &[u8], fields: &'a [Field], table: &Option<NameTable>) -> Option<&'a Field>
    requires { IfSome table.now (NamesFields fields.now) }
    ensures { option_map lent_slot result ≡ named_slot name.now fields.now }
{
    match table {
        None => first_named(name, fields),
        Some(table) => named_in_table(name, fields, table),
    }
}

/// Whether none of these fields has the name. The time is linear in their number.
fn is_new(name: &[u8], earlier: &[Field]) -> bool
    ensures { result ≡ not (is_among name.now (map field_name earlier.now)) }
{
    let mut k = 0;
    while k < earlier.len() {
        if earlier[k].name.bytes() == name {
            return false;
        }
        k += 1;
    }
    true
}

/// Whether one of the first `k` fields has the name, by the table of the fields' names where there is
/// one. The time is that of a look-up then, else linear in `k`.
fn is_before(name: &[u8], k: usize, fields: &[Field], table: &Option<NameTable>) -> bool
    requires place { k ≤ length fields.now }
    requires table { IfSome table.now (NamesFields fields.now) }
    ensures { result ≡ is_among name.now (map field_name (take k fields.now)) }
{
    match table {
        None => !is_new(name, &fields[..k]),
        Some(table) => is_below(table.find(name), k),
    }
}

/// Whether there is a number, and it is below this one.
fn is_below(number: Option<usize>, end: usize) -> bool
    ensures { result ≡ is_below end number }
{
    match number {
        None => false,
        Some(number) => number < end,
    }
}

/// Whether it is so of a field of this name and of none of the first `k`. These are looked at only if
/// it is so. If one has the name, a table of the fields' names is made for the next time, so that
/// however many fields are asked for, the time is linear in their number.
fn counts(
    alloc: Global,
    is_so: bool,
    name: &[u8],
    k: usize,
    fields: &[Field],
    table: &mut Option<NameTable>,
) -> bool
    requires place { k ≤ length fields.now }
    requires table { IfSome table.old (NamesFields fields.now) }
    ensures counts { result ≡ is_so && not (is_among name.now (map field_name (take k fields.now))) }
    ensures table { IfSome table.new (NamesFields fields.now) }
{
    if !is_so {
        return false;
    }
    if !is_before(name, k, fields, table) {
        return true;
    }
    if table.is_none() {
        *table = table_of_fields(alloc, fields);
    }
    false
}

/// Whether a bundle in the type has two fields of one name. Takes time and memory linear in the size
/// of the type.
#[cycle(repeats_field)]
pub fn repeats_field(alloc: Global, ty: &Ty) -> Result<bool, Memory>
    ensures { IfOk result (λ b. b ≡ repeats_field ty.now) }
{
    match ty {
        Ty::Bundle(fields) => {
            let is_here = repeats_name(alloc, fields.as_slice())?;
            let is_inside = repeats_inside(alloc, fields.as_slice())?;
            Ok(is_here | is_inside)
        }
        Ty::Vector(of, _) => repeats_field(alloc, of.get()),
        _ => Ok(false),
    }
}

fn repeats_name(alloc: Global, fields: &[Field]) -> Result<bool, Memory>
    ensures { IfOk result (λ b. b ≡ repeats_name fields.now) }
{
    let mut names = IndexSet::new(alloc);
    let mut k = 0;
    while k < fields.len() {
        let field = &fields[k];
        let name = Vec::from_slice(alloc, field.name.bytes())?;
        let is_new = names.insert(name)?;
        if !is_new {
            return Ok(true);
        }
        k += 1;
    }
    Ok(false)
}

#[cycle(repeats_field)]
fn repeats_inside(alloc: Global, fields: &[Field]) -> Result<bool, Memory>
    ensures { IfOk result (λ b. b ≡ list_any (λ f. repeats_field (field_type f)) fields.now) }
{
    let mut k = 0;
    while k < fields.len() {
        if repeats_field(alloc, &fields[k].ty)? {
            return Ok(true);
        }
        k += 1;
    }
    Ok(false)
}

/// Whether a field in the type is flipped. The time is linear in the size of the type.
#[cycle(has_flip)]
pub fn has_flip(alloc: Global, ty: &Ty) -> bool
    ensures { result ≡ has_flip ty.now }
{
    match ty {
        Ty::Bundle(fields) => flips_inside(alloc, fields.as_slice()),
        Ty::Vector(of, _) => has_flip(alloc, of.get()),
        _ => false,
    }
}

/// Whether the field is flipped or has a flip in it.
#[cycle(has_flip)]
fn flips(alloc: Global, field: &Field) -> bool
    ensures { result ≡ flips field.now }
{
    field.flip || has_flip(alloc, &field.ty)
}

#[cycle(has_flip)]
fn flips_inside(alloc: Global, fields: &[Field]) -> bool
    ensures { result ≡ list_any flips (first_fields fields.now) }
{
    let mut table = None;
    let mut k = 0;
    while k < fields.len() {
        let field = &fields[k];
        let is_here = flips(alloc, field);
        if counts(alloc, is_here, field.name.bytes(), k, fields, &mut table) {
            return true;
        }
        k += 1;
    }
    false
}

/// Whether the type is a Clock or has one in it. The time is linear in the size of the type.
#[cycle(holds_clock)]
pub fn holds_clock(alloc: Global, ty: &Ty) -> bool
    ensures { result ≡ holds_clock ty.now }
{
    match ty {
        Ty::Clock => true,
        Ty::Bundle(fields) => clocks_inside(alloc, fields.as_slice()),
        Ty::Vector(of, _) => holds_clock(alloc, of.get()),
        _ => false,
    }
}

#[cycle(holds_clock)]
fn clocks_inside(alloc: Global, fields: &[Field]) -> bool
    ensures { result ≡ list_any (λ f. holds_clock (field_type f)) (first_fields fields.now) }
{
    let mut table = None;
    let mut k = 0;
    while k < fields.len() {
        let field = &fields[k];
        let is_here = holds_clock(alloc, &field.ty);
        if counts(alloc, is_here, field.name.bytes(), k, fields, &mut table) {
            return true;
        }
        k += 1;
    }
    false
}

/// Whether a ground part of the type goes against it, or with it where `turned`, flips counted; if
/// `unsized_only`, one that is a UInt or SInt without width. The time is linear in the size of the
/// type.
#[cycle(has_leaf)]
fn has_leaf(alloc: Global, ty: &Ty, turned: bool, unsized_only: bool) -> bool
    ensures { result ≡ list_any (is_wanted turned unsized_only) (leaves ty.now) }
{
    match ty {
        Ty::UInt(width) => turned && (!unsized_only || width.is_none()),
        Ty::SInt(width) => turned && (!unsized_only || width.is_none()),
        Ty::Clock => turned && !unsized_only,
        Ty::Reset => turned && !unsized_only,
        Ty::Bundle(fields) => has_leaf_inside(alloc, fields.as_slice(), turned, unsized_only),
        Ty::Vector(of, len) => *len != 0 && has_leaf(alloc, of.get(), turned, unsized_only),
    }
}

#[cycle(has_leaf)]
fn has_leaf_inside(alloc: Global, fields: &[Field], turned: bool, unsized_only: bool) -> bool
    ensures { result ≡ list_any (has_wanted turned unsized_only) (first_fields fields.now) }
{
    let mut table = None;
    let mut k = 0;
    while k < fields.len() {
        let field = &fields[k];
        let is_here = has_leaf(alloc, &field.ty, turned != field.flip, unsized_only);
        if counts(alloc, is_here, field.name.bytes(), k, fields, &mut table) {
            return true;
        }
        k += 1;
    }
    false
}

/// Whether a ground part of the type goes against it, flips counted. The time is linear in the size
/// of the type.
pub fn has_against_leaf(alloc: Global, ty: &Ty) -> bool
    ensures { result ≡ list_any (λ l. l.against) (leaves ty.now) }
{
    has_leaf(alloc, ty, false, false)
}

/// Whether a ground part of the port is an input, flips counted, and is a UInt or SInt without width.
/// The time is linear in the size of the type.
pub fn has_unsized_input(alloc: Global, port: &Port) -> bool
    ensures { result ≡ has_unsized_input port.now }
{
    has_leaf(alloc, &port.ty, !port.output, true)
}

/// Whether two types have one shape. The time is linear in the size of the types; where many fields
/// stand in another order, or a name is repeated, tables of the names are made. Where there isn't
/// enough memory for these, each field is looked for among all of its bundle.
#[cycle(same_shape)]
pub fn same_shape(alloc: Global, ty: &Ty, other: &Ty) -> bool
    ensures { result ≡ same_shape ty.now other.now }
{
    match ty {
        Ty::UInt(_) => is_unsigned(other),
        Ty::Reset => is_unsigned(other),
        Ty::SInt(_) => is_signed(other),
        Ty::Clock => is_clock(other),
        Ty::Bundle(fields) => match other {
            Ty::Bundle(others) => same_bundle(alloc, fields.as_slice(), others.as_slice()),
            _ => false,
        },
        Ty::Vector(of, len) => match other {
            Ty::Vector(other_of, other_len) => {
                *len == *other_len && same_shape(alloc, of.get(), other_of.get())
            }
            _ => false,
        },
    }
}

#[cycle(same_shape)]
fn same_bundle(alloc: Global, fields: &[Field], others: &[Field]) -> bool
    ensures { result ≡ have_matches fields.now others.now && have_names others.now fields.now }
{
    if in_one_order(fields, others) {
        return same_in_order(alloc, fields, others);
    }
    let own_table = table_of_fields(alloc, fields);
    let table = table_of_fields(alloc, others);
    same_by_name(alloc, fields, others, &own_table, &table)
        && names_of_all(fields, others, &own_table)
}

/// Whether the bundles have the same names in the same order.
fn in_one_order(fields: &[Field], others: &[Field]) -> bool
    ensures { result ≡ true → map field_name fields.now ≡ map field_name others.now }
{
    if fields.len() != others.len() {
        return false;
    }
    let mut k = 0;
    while k < fields.len() {
        if fields[k].name.bytes() != others[k].name.bytes() {
            return false;
        }
        k += 1;
    }
    true
}

/// Whether each of the bundle's names is one of the fields', of which there is a table.
fn names_of_all(fields: &[Field], others: &[Field], table: &Option<NameTable>) -> bool
    requires { IfSome table.now (NamesFields fields.now) }
    ensures { result ≡ have_names others.now fields.now }
{
    let mut k = 0;
    while k < others.len() {
        let other = &others[k];
        if look_up(other.name.bytes(), fields, table).is_none() {
            return false;
        }
        k += 1;
    }
    true
}

/// Whether each field matches that at its place.
#[cycle(same_shape)]
fn same_in_order(alloc: Global, fields: &[Field], others: &[Field]) -> bool
    requires { map field_name fields.now ≡ map field_name others.now }
    ensures { result ≡ have_matches fields.now others.now }
{
    let mut table = None;
    let mut k = 0;
    while k < fields.len() {
        let field = &fields[k];
        let differs = !same_field(alloc, field, &others[k]);
        if counts(alloc, differs, field.name.bytes(), k, fields, &mut table) {
            return false;
        }
        k += 1;
    }
    true
}

/// Whether each field matches that of its name among the others. There are tables of the fields' own
/// names and of the others'.
#[cycle(same_shape)]
fn same_by_name(
    alloc: Global,
    fields: &[Field],
    others: &[Field],
    own_table: &Option<NameTable>,
    table: &Option<NameTable>,
) -> bool
    requires own { IfSome own_table.now (NamesFields fields.now) }
    requires others { IfSome table.now (NamesFields others.now) }
    ensures { result ≡ have_matches fields.now others.now }
{
    let mut k = 0;
    while k < fields.len() {
        let field = &fields[k];
        let is_old = is_before(field.name.bytes(), k, fields, own_table);
        if lacks_match(alloc, is_old, field, others, table) {
            return false;
        }
        k += 1;
    }
    true
}

/// Whether the field isn't passed over and none of the others matches it. One that is passed over is
/// compared with none.
#[cycle(same_shape)]
fn lacks_match(
    alloc: Global,
    is_old: bool,
    field: &Field,
    others: &[Field],
    table: &Option<NameTable>,
) -> bool
    requires { IfSome table.now (NamesFields others.now) }
    ensures { result ≡ not is_old && not (has_match others.now field.now) }
{
    !is_old && !has_match(alloc, field, others, table)
}

#[cycle(same_shape)]
fn has_match(alloc: Global, field: &Field, others: &[Field], table: &Option<NameTable>) -> bool
    requires { IfSome table.now (NamesFields others.now) }
    ensures { result ≡ has_match others.now field.now }
{
    match look_up(field.name.bytes(), others, table) {
        None => false,
        Some(other) => same_field(alloc, field, other),
    }
}

/// Whether both fields are flipped or neither is, and their types have one shape.
#[cycle(same_shape)]
fn same_field(alloc: Global, field: &Field, other: &Field) -> bool
    ensures { result ≡ matches field.now other.now }
{
    field.flip == other.flip && same_shape(alloc, &field.ty, &other.ty)
}
