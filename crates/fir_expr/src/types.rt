//! Types.

ghost use Rattle.std.specs.Prelude.{◌≡◌, Option, Some, None, [], ◌∷◌, codes, IfOk};
ghost use Rattle.text_grammar.specs.Part.{Reads, carried, cons, optional, many};
ghost use Rattle.text_grammar.specs.Terminals.{is_symbol, is_name};
ghost use Rattle.text_grammar.specs.declared.item.Symbol.TheVariants as s;
ghost use Rattle.fir_ast.specs.declared.tree.Ty.TheVariants as v;
ghost use Rattle.fir_ast.specs.Limits.{limits, opened, grow_up_to};
ghost use Rattle.fir_ast.specs.TypeGrammar as g;

use crate::judged::{is, number_up_to, plain_type};
use crate::{MOST_BRACKETS, MOST_SUFFIXES};
use fir_ast::{Field, Ty};
use sqlite_items::{Boxed, Items};
use std::alloc::{AllocError, Global};
use tb_base::Name;
use text_grammar::{Kind, ReadError, Symbol, Tokens};

/// The greatest width in bits.
const GREATEST_WIDTH: u128 = 128;

/// The greatest number of elements of a vector.
const GREATEST_LENGTH: u128 = 65_536;

/// `<n>`
#[tactic(auto, unfolding(fir_ast::specs::TypeGrammar::width, text_grammar::specs::Part::both))]
pub(crate) fn width(tokens: &mut Tokens<'_>) -> Result<Option<u8>, ReadError>
    ensures { Reads (g.width.reads tokens.old) result tokens.new }
{
    tokens.mark(Symbol::Less)?;
    let width = number_up_to(tokens, GREATEST_WIDTH)?;
    tokens.mark(Symbol::Greater)?;
    Ok(Some(width as u8))
}

/// `<n>`, or nothing.
#[tactic(auto, unfolding(text_grammar::specs::Part::either, text_grammar::specs::Part::nothing))]
fn width_if_any(tokens: &mut Tokens<'_>) -> Result<Option<u8>, ReadError>
    ensures { Reads ((optional (is_symbol s.Less) None g.width).reads tokens.old) result tokens.new }
{
    if tokens.sees(Symbol::Less) {
        return width(tokens);
    }
    Ok(None)
}

#[tactic(auto, unfolding(fir_ast::specs::TypeGrammar::sized, text_grammar::specs::Part::both))]
fn unsigned(tokens: &mut Tokens<'_>) -> Result<Ty, ReadError>
    ensures { Reads ((g.sized (codes "UInt") (λ w. v.UInt w)).reads tokens.old) result tokens.new }
{
    tokens.keyword(b"UInt")?;
    let width = width_if_any(tokens)?;
    Ok(Ty::UInt(width))
}

#[tactic(auto, unfolding(fir_ast::specs::TypeGrammar::sized, text_grammar::specs::Part::both))]
fn signed(tokens: &mut Tokens<'_>) -> Result<Ty, ReadError>
    ensures { Reads ((g.sized (codes "SInt") (λ w. v.SInt w)).reads tokens.old) result tokens.new }
{
    tokens.keyword(b"SInt")?;
    let width = width_if_any(tokens)?;
    Ok(Ty::SInt(width))
}

/// `w : T`, after the w.
#[cycle(ty)]
#[tactic(auto, unfolding(fir_ast::specs::TypeGrammar::plain_field, text_grammar::specs::Part::both))]
fn plain_field(
    alloc: Global,
    tokens: &mut Tokens<'_>,
    depth: usize,
    name: Name,
) -> Result<Field, ReadError>
    ensures { Reads ((g.plain_field (g.ty_inside limits.suffixes depth) name).reads tokens.old) result tokens.new }
{
    tokens.mark(Symbol::Colon)?;
    let ty = inside(alloc, tokens, depth)?;
    Ok(Field {
        flip: false,
        name,
        ty,
    })
}

/// `flip w : T`, after the word `flip`.
#[cycle(ty)]
#[tactic(auto, unfolding(fir_ast::specs::TypeGrammar::flipped_field, text_grammar::specs::Part::both))]
fn flipped_field(alloc: Global, tokens: &mut Tokens<'_>, depth: usize) -> Result<Field, ReadError>
    ensures { Reads ((g.flipped_field (g.ty_inside limits.suffixes depth)).reads tokens.old) result tokens.new }
{
    let name = tokens.name(alloc)?;
    tokens.mark(Symbol::Colon)?;
    let ty = inside(alloc, tokens, depth)?;
    Ok(Field {
        flip: true,
        name,
        ty,
    })
}

/// A field that begins with this word.
#[cycle(ty)]
#[tactic(auto, unfolding(fir_ast::specs::TypeGrammar::field_after, text_grammar::specs::Part::either))]
fn field_after(
    alloc: Global,
    tokens: &mut Tokens<'_>,
    depth: usize,
    word: Name,
) -> Result<Field, ReadError>
    ensures { Reads ((g.field_after (g.ty_inside limits.suffixes depth) word).reads tokens.old) result tokens.new }
{
    if is(&word, b"flip") {
        if tokens.sees_name() {
            return flipped_field(alloc, tokens, depth);
        }
        return plain_field(alloc, tokens, depth, word);
    }
    plain_field(alloc, tokens, depth, word)
}

#[cycle(ty)]
#[tactic(auto, unfolding(fir_ast::specs::TypeGrammar::field, text_grammar::specs::Part::after))]
fn field(alloc: Global, tokens: &mut Tokens<'_>, depth: usize) -> Result<Field, ReadError>
    ensures { Reads ((g.field (g.ty_inside limits.suffixes depth)).reads tokens.old) result tokens.new }
{
    let word = tokens.name(alloc)?;
    field_after(alloc, tokens, depth, word)
}

#[cycle(ty)]
#[tactic(auto, unfolding(fir_ast::specs::TypeGrammar::further_field, text_grammar::specs::Part::both))]
fn further_field(alloc: Global, tokens: &mut Tokens<'_>, depth: usize) -> Result<Field, ReadError>
    ensures { Reads ((g.further_field (g.ty_inside limits.suffixes depth)).reads tokens.old) result tokens.new }
{
    tokens.mark(Symbol::Comma)?;
    field(alloc, tokens, depth)
}

/// The first field, and those that follow it.
#[cycle(ty)]
fn further_fields(
    alloc: Global,
    tokens: &mut Tokens<'_>,
    depth: usize,
    first: Field,
) -> Result<Items<Field>, ReadError>
    ensures { Reads (carried cons first ((many (is_symbol s.Comma) (g.further_field (g.ty_inside limits.suffixes depth))).reads tokens.old)) result tokens.new }
{
    let mut found = Items::new(alloc);
    found.push(first)?;
    for _turn in 0..tokens.left() {
        if !tokens.sees(Symbol::Comma) {
            return Ok(found);
        }
        let next = match further_field(alloc, tokens, depth) {
            Ok(next) => next,
            Err(e) => return Err(e),
        };
        found.push(next)?;
    }
    Ok(found)
}

/// The fields of a bundle, maybe none.
#[cycle(ty)]
#[tactic(auto, unfolding(fir_ast::specs::TypeGrammar::fields, text_grammar::specs::Part::both, text_grammar::specs::Part::either, text_grammar::specs::Part::nothing))]
fn fields(alloc: Global, tokens: &mut Tokens<'_>, depth: usize) -> Result<Items<Field>, ReadError>
    ensures { Reads ((optional is_name [] (g.fields (g.ty_inside limits.suffixes depth))).reads tokens.old) result tokens.new }
{
    if tokens.sees_name() {
        let first = field(alloc, tokens, depth)?;
        return further_fields(alloc, tokens, depth, first);
    }
    Ok(Items::new(alloc))
}

/// `{ f, f }`
#[cycle(ty)]
#[tactic(auto, unfolding(fir_ast::specs::TypeGrammar::bundle, fir_ast::specs::Limits::opened, text_grammar::specs::Part::both, text_grammar::specs::Part::stop))]
fn bundle(alloc: Global, tokens: &mut Tokens<'_>, depth: usize) -> Result<Ty, ReadError>
    ensures { Reads ((opened depth (g.bundle (g.ty_inside limits.suffixes depth))).reads tokens.old) result tokens.new }
{
    if depth == 0 {
        return Err(ReadError::At(Kind::TooDeep, tokens.left()));
    }
    tokens.mark(Symbol::OpenBrace)?;
    let fields = fields(alloc, tokens, depth)?;
    tokens.mark(Symbol::CloseBrace)?;
    Ok(Ty::Bundle(fields))
}

/// A type without its lengths.
#[cycle(ty)]
#[tactic(auto, unfolding(fir_ast::specs::TypeGrammar::base, text_grammar::specs::Part::either))]
fn base(alloc: Global, tokens: &mut Tokens<'_>, depth: usize) -> Result<Ty, ReadError>
    ensures { Reads ((g.base depth (g.ty_inside limits.suffixes depth)).reads tokens.old) result tokens.new }
{
    if tokens.sees_word(b"UInt") {
        return unsigned(tokens);
    }
    if tokens.sees_word(b"SInt") {
        return signed(tokens);
    }
    if tokens.sees(Symbol::OpenBrace) {
        return bundle(alloc, tokens, depth);
    }
    plain_type(tokens)
}

fn vector_of(alloc: Global, of: Ty, len: u32) -> Result<Ty, AllocError>
    ensures { IfOk result (λ t. t ≡ v.Vector of len) }
{
    Ok(Ty::Vector(Boxed::new(alloc, of)?, len))
}

/// `[n]`
#[tactic(auto, unfolding(fir_ast::specs::TypeGrammar::vector, text_grammar::specs::Part::both))]
fn vector(alloc: Global, tokens: &mut Tokens<'_>, of: Ty) -> Result<Ty, ReadError>
    ensures { Reads ((g.vector of).reads tokens.old) result tokens.new }
{
    tokens.mark(Symbol::OpenBracket)?;
    let len = number_up_to(tokens, GREATEST_LENGTH)?;
    tokens.mark(Symbol::CloseBracket)?;
    Ok(vector_of(alloc, of, len as u32)?)
}

/// The type with every length that follows it.
fn vectors(alloc: Global, tokens: &mut Tokens<'_>, first: Ty) -> Result<Ty, ReadError>
    ensures { Reads ((grow_up_to limits.suffixes (is_symbol s.OpenBracket) (λ of. g.vector of) first).reads tokens.old) result tokens.new }
{
    let mut grown = first;
    for _turn in 0..MOST_SUFFIXES {
        if !tokens.sees(Symbol::OpenBracket) {
            return Ok(grown);
        }
        grown = match vector(alloc, tokens, grown) {
            Ok(next) => next,
            Err(e) => return Err(e),
        };
    }
    if tokens.sees(Symbol::OpenBracket) {
        return Err(ReadError::At(Kind::TooDeep, tokens.left()));
    }
    Ok(grown)
}

/// A type, where so many braces may still be opened.
#[cycle(ty)]
#[tactic(auto, unfolding(fir_ast::specs::TypeGrammar::ty_in, text_grammar::specs::Part::after))]
fn ty_at(alloc: Global, tokens: &mut Tokens<'_>, depth: usize) -> Result<Ty, ReadError>
    ensures { Reads ((g.ty_in limits.suffixes depth (g.ty_inside limits.suffixes depth)).reads tokens.old) result tokens.new }
{
    let of = base(alloc, tokens, depth)?;
    vectors(alloc, tokens, of)
}

/// A type in braces, where so many may be opened, these included.
#[cycle(ty)]
#[tactic(auto, unfolding(fir_ast::specs::TypeGrammar::ty_inside, text_grammar::specs::Part::stop))]
fn inside(alloc: Global, tokens: &mut Tokens<'_>, depth: usize) -> Result<Ty, ReadError>
    ensures { Reads ((g.ty_inside limits.suffixes depth).reads tokens.old) result tokens.new }
{
    if depth == 0 {
        return Err(ReadError::At(Kind::TooDeep, tokens.left()));
    }
    ty_at(alloc, tokens, depth - 1)
}

/// A type. The time is linear in the number of its items and the length of its names.
#[tactic(auto, unfolding(fir_ast::specs::TypeGrammar::ty))]
pub fn ty(alloc: Global, tokens: &mut Tokens<'_>) -> Result<Ty, ReadError>
    ensures { Reads ((g.ty limits).reads tokens.old) result tokens.new }
{
    ty_at(alloc, tokens, MOST_BRACKETS)
}
