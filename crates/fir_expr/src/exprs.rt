//! References and expressions, by recursive descent.

ghost use Rattle.std.specs.Prelude.{◌≡◌, Option, Some, None, IfOk};
ghost use Rattle.tb_base.specs.Names.{op_named};
ghost use Rattle.text_grammar.specs.Part.{Reads, carried, cons, both, second, starts, unless};
ghost use Rattle.text_grammar.specs.Terminals.{is_symbol, mark, number};
ghost use Rattle.text_grammar.specs.declared.fault.Kind.TheVariants.{Unsupported};
ghost use Rattle.text_grammar.specs.declared.fault.Form.TheVariants as form;
ghost use Rattle.text_grammar.specs.declared.item.Symbol.TheVariants as s;
ghost use Rattle.fir_ast.specs.declared.tree.Expr.TheVariants as v;
ghost use Rattle.fir_ast.specs.Limits.{limits, opened, grow_up_to};
ghost use Rattle.fir_ast.specs.ExprGrammar as g;

use crate::judged::is;
use crate::literals::literal;
use crate::types::width;
use crate::{MOST_BRACKETS, MOST_SUFFIXES};
use fir_ast::Expr;
use sqlite_items::{Boxed, Items};
use std::alloc::{AllocError, Global};
use tb_base::{Name, Op, Seq};
use text_grammar::{Form, Kind, ReadError, Symbol, Tokens};

// ---- suffixes

fn part_of(alloc: Global, of: Expr, name: Name) -> Result<Expr, AllocError>
    ensures { IfOk result (λ e. e ≡ v.Part of name) }
{
    Ok(Expr::Part(Boxed::new(alloc, of)?, name))
}

fn at_of(alloc: Global, of: Expr, place: u128) -> Result<Expr, AllocError>
    ensures { IfOk result (λ e. e ≡ v.At of place) }
{
    Ok(Expr::At(Boxed::new(alloc, of)?, place))
}

fn index_of(alloc: Global, of: Expr, place: Expr) -> Result<Expr, AllocError>
    ensures { IfOk result (λ e. e ≡ v.Index of place) }
{
    Ok(Expr::Index(Boxed::new(alloc, of)?, Boxed::new(alloc, place)?))
}

/// `.w`
#[tactic(auto, unfolding(fir_ast::specs::ExprGrammar::dotted, text_grammar::specs::Part::both))]
fn dotted(alloc: Global, tokens: &mut Tokens<'_>, of: Expr) -> Result<Expr, ReadError>
    ensures { Reads ((g.dotted of).reads tokens.old) result tokens.new }
{
    tokens.mark(Symbol::Dot)?;
    let name = tokens.name(alloc)?;
    Ok(part_of(alloc, of, name)?)
}

/// `n]`
#[tactic(auto, unfolding(fir_ast::specs::ExprGrammar::fixed_index, text_grammar::specs::Part::both))]
fn fixed_index(alloc: Global, tokens: &mut Tokens<'_>, of: Expr) -> Result<Expr, ReadError>
    ensures { Reads ((g.fixed_index of).reads tokens.old) result tokens.new }
{
    let place = tokens.number()?;
    tokens.mark(Symbol::CloseBracket)?;
    Ok(at_of(alloc, of, place)?)
}

/// `E]`
#[cycle(expr)]
#[tactic(auto, unfolding(fir_ast::specs::ExprGrammar::computed_index, text_grammar::specs::Part::both))]
fn computed_index(
    alloc: Global,
    tokens: &mut Tokens<'_>,
    depth: usize,
    of: Expr,
) -> Result<Expr, ReadError>
    ensures { Reads ((g.computed_index (g.expr_inside limits.suffixes depth) of).reads tokens.old) result tokens.new }
{
    let place = inside(alloc, tokens, depth)?;
    tokens.mark(Symbol::CloseBracket)?;
    Ok(index_of(alloc, of, place)?)
}

/// `[n]` or `[E]`
#[cycle(expr)]
#[tactic(auto, unfolding(fir_ast::specs::ExprGrammar::index, fir_ast::specs::Limits::opened, text_grammar::specs::Part::both, text_grammar::specs::Part::either, text_grammar::specs::Part::stop))]
fn index(alloc: Global, tokens: &mut Tokens<'_>, depth: usize, of: Expr) -> Result<Expr, ReadError>
    ensures { Reads ((opened depth (g.index (g.expr_inside limits.suffixes depth) of)).reads tokens.old) result tokens.new }
{
    if depth == 0 {
        return Err(ReadError::At(Kind::TooDeep, tokens.left()));
    }
    tokens.mark(Symbol::OpenBracket)?;
    if tokens.sees_number() {
        return fixed_index(alloc, tokens, of);
    }
    computed_index(alloc, tokens, depth, of)
}

#[cycle(expr)]
#[tactic(auto, unfolding(fir_ast::specs::ExprGrammar::suffix, text_grammar::specs::Part::either))]
fn suffix(alloc: Global, tokens: &mut Tokens<'_>, depth: usize, of: Expr) -> Result<Expr, ReadError>
    ensures { Reads ((g.suffix depth (g.expr_inside limits.suffixes depth) of).reads tokens.old) result tokens.new }
{
    if tokens.sees(Symbol::Dot) {
        return dotted(alloc, tokens, of);
    }
    index(alloc, tokens, depth, of)
}

/// Whether a suffix begins here.
#[tactic(auto, using(crate::proofs::Judging::either_begins))]
fn begins_suffix(tokens: &Tokens<'_>) -> bool
    ensures { result ≡ starts g.is_suffix tokens.now }
{
    tokens.sees(Symbol::Dot) || tokens.sees(Symbol::OpenBracket)
}

/// The expression with every suffix that follows it.
#[cycle(expr)]
fn suffixes(
    alloc: Global,
    tokens: &mut Tokens<'_>,
    depth: usize,
    first: Expr,
) -> Result<Expr, ReadError>
    ensures { Reads ((grow_up_to limits.suffixes g.is_suffix (λ of. g.suffix depth (g.expr_inside limits.suffixes depth) of) first).reads tokens.old) result tokens.new }
{
    let mut grown = first;
    for _turn in 0..MOST_SUFFIXES {
        if !begins_suffix(tokens) {
            return Ok(grown);
        }
        grown = match suffix(alloc, tokens, depth, grown) {
            Ok(next) => next,
            Err(e) => return Err(e),
        };
    }
    if begins_suffix(tokens) {
        return Err(ReadError::At(Kind::TooDeep, tokens.left()));
    }
    Ok(grown)
}

/// Refuses `<-`, which connects in a way that is not taken.
#[tactic(auto, unfolding(text_grammar::specs::Part::unless))]
fn no_partial_connect(tokens: &Tokens<'_>) -> Result<(), ReadError>
    ensures { Reads ((unless (is_symbol s.LeftArrow) (Unsupported form.Connect)).reads tokens.now) result tokens.now }
{
    if tokens.sees(Symbol::LeftArrow) {
        return Err(ReadError::At(Kind::Unsupported(Form::Connect), tokens.left()));
    }
    Ok(())
}

/// A reference that begins with this word, where so many brackets may still be opened.
#[cycle(expr)]
#[tactic(auto, unfolding(fir_ast::specs::ExprGrammar::reference_in, text_grammar::specs::Part::both))]
fn reference_at(
    alloc: Global,
    tokens: &mut Tokens<'_>,
    depth: usize,
    word: Name,
) -> Result<Expr, ReadError>
    ensures { Reads ((g.reference_in limits.suffixes depth (g.expr_inside limits.suffixes depth) word).reads tokens.old) result tokens.new }
{
    let grown = suffixes(alloc, tokens, depth, Expr::Ident(word))?;
    no_partial_connect(tokens)?;
    Ok(grown)
}

// ---- operations

/// A comma and an operand.
#[cycle(expr)]
#[tactic(auto, unfolding(text_grammar::specs::Part::both))]
fn further_operand(alloc: Global, tokens: &mut Tokens<'_>, depth: usize) -> Result<Expr, ReadError>
    ensures { Reads ((both second (mark s.Comma) (g.expr_inside limits.suffixes depth)).reads tokens.old) result tokens.new }
{
    tokens.mark(Symbol::Comma)?;
    inside(alloc, tokens, depth)
}

/// The first operand, and so many further ones.
#[cycle(expr)]
fn further_operands(
    alloc: Global,
    tokens: &mut Tokens<'_>,
    depth: usize,
    first: Expr,
    count: usize,
) -> Result<Items<Expr>, ReadError>
    ensures { Reads (carried cons first ((g.after_commas count (g.expr_inside limits.suffixes depth)).reads tokens.old)) result tokens.new }
{
    let mut found = Items::new(alloc);
    found.push(first)?;
    for _turn in 0..count {
        let next = match further_operand(alloc, tokens, depth) {
            Ok(next) => next,
            Err(e) => return Err(e),
        };
        found.push(next)?;
    }
    Ok(found)
}

/// So many operands, at least one.
#[cycle(expr)]
#[tactic(auto, unfolding(fir_ast::specs::ExprGrammar::operands, text_grammar::specs::Part::both))]
fn operands(
    alloc: Global,
    tokens: &mut Tokens<'_>,
    depth: usize,
    count: usize,
) -> Result<Items<Expr>, ReadError>
    ensures { Reads ((g.operands count (g.expr_inside limits.suffixes depth)).reads tokens.old) result tokens.new }
{
    let first = inside(alloc, tokens, depth)?;
    further_operands(alloc, tokens, depth, first, count.saturating_sub(1))
}

/// A comma and a number.
#[tactic(auto, unfolding(text_grammar::specs::Part::both))]
fn further_number(tokens: &mut Tokens<'_>) -> Result<u128, ReadError>
    ensures { Reads ((both second (mark s.Comma) number).reads tokens.old) result tokens.new }
{
    tokens.mark(Symbol::Comma)?;
    tokens.number()
}

/// So many numbers, each after a comma.
fn numbers(alloc: Global, tokens: &mut Tokens<'_>, count: usize) -> Result<Seq<u128>, ReadError>
    ensures { Reads ((g.after_commas count number).reads tokens.old) result tokens.new }
{
    let mut found = Vec::new(alloc);
    for _turn in 0..count {
        let next = match further_number(tokens) {
            Ok(next) => next,
            Err(e) => return Err(e),
        };
        found.push(next)?;
    }
    Ok(Seq::of(found))
}

/// `(E, n)`, with as many operands and numbers as the operation has.
#[cycle(expr)]
#[tactic(auto, unfolding(fir_ast::specs::ExprGrammar::operation, fir_ast::specs::Limits::opened, text_grammar::specs::Part::both, text_grammar::specs::Part::stop))]
fn operation(
    alloc: Global,
    tokens: &mut Tokens<'_>,
    depth: usize,
    op: Op,
) -> Result<Expr, ReadError>
    ensures { Reads ((opened depth (g.operation (g.expr_inside limits.suffixes depth) op)).reads tokens.old) result tokens.new }
{
    if depth == 0 {
        return Err(ReadError::At(Kind::TooDeep, tokens.left()));
    }
    tokens.mark(Symbol::OpenParen)?;
    let args = operands(alloc, tokens, depth, op.operands())?;
    let nums = numbers(alloc, tokens, op.numbers())?;
    tokens.mark(Symbol::CloseParen)?;
    Ok(Expr::Apply { op, args, nums })
}

// ---- expressions

/// After `UInt` or `SInt`: a literal, or the reference of that name.
#[cycle(expr)]
#[tactic(auto, unfolding(fir_ast::specs::ExprGrammar::literal_or, text_grammar::specs::Part::either, text_grammar::specs::Part::after))]
fn literal_or(
    alloc: Global,
    tokens: &mut Tokens<'_>,
    depth: usize,
    signed: bool,
    word: Name,
) -> Result<Expr, ReadError>
    ensures { Reads ((g.literal_or signed (g.reference_in limits.suffixes depth (g.expr_inside limits.suffixes depth) word)).reads tokens.old) result tokens.new }
{
    if tokens.sees(Symbol::Less) {
        let width = width(tokens)?;
        return literal(tokens, signed, width);
    }
    if tokens.sees(Symbol::OpenParen) {
        return literal(tokens, signed, None);
    }
    reference_at(alloc, tokens, depth, word)
}

/// After another word: an operation of that name, or the reference.
#[cycle(expr)]
#[tactic(auto, unfolding(fir_ast::specs::ExprGrammar::operation_or, text_grammar::specs::Part::either))]
fn operation_or(
    alloc: Global,
    tokens: &mut Tokens<'_>,
    depth: usize,
    word: Name,
) -> Result<Expr, ReadError>
    ensures { Reads ((g.operation_or depth (g.expr_inside limits.suffixes depth) (op_named word) (g.reference_in limits.suffixes depth (g.expr_inside limits.suffixes depth) word)).reads tokens.old) result tokens.new }
{
    match Op::named(word.bytes()) {
        Some(op) => {
            if tokens.sees(Symbol::OpenParen) {
                return operation(alloc, tokens, depth, op);
            }
            reference_at(alloc, tokens, depth, word)
        }
        None => reference_at(alloc, tokens, depth, word),
    }
}

/// An expression that begins with this word, where so many brackets may still be opened.
#[cycle(expr)]
#[tactic(auto, unfolding(fir_ast::specs::ExprGrammar::expr_in))]
fn expr_at(
    alloc: Global,
    tokens: &mut Tokens<'_>,
    depth: usize,
    word: Name,
) -> Result<Expr, ReadError>
    ensures { Reads ((g.expr_in limits.suffixes depth (g.expr_inside limits.suffixes depth) word).reads tokens.old) result tokens.new }
{
    if is(&word, b"UInt") {
        return literal_or(alloc, tokens, depth, false, word);
    }
    if is(&word, b"SInt") {
        return literal_or(alloc, tokens, depth, true, word);
    }
    operation_or(alloc, tokens, depth, word)
}

/// An expression in brackets, where so many may be opened, these included.
#[cycle(expr)]
#[tactic(auto, unfolding(fir_ast::specs::ExprGrammar::expr_inside, text_grammar::specs::Part::after, text_grammar::specs::Part::stop))]
fn inside(alloc: Global, tokens: &mut Tokens<'_>, depth: usize) -> Result<Expr, ReadError>
    ensures { Reads ((g.expr_inside limits.suffixes depth).reads tokens.old) result tokens.new }
{
    if depth == 0 {
        return Err(ReadError::At(Kind::TooDeep, tokens.left()));
    }
    let word = tokens.name(alloc)?;
    expr_at(alloc, tokens, depth - 1, word)
}

// ---- the parts that rows are made of

/// A reference that begins with this word. The time is linear in the number of its items and the length of its names.
#[tactic(auto, unfolding(fir_ast::specs::ExprGrammar::reference_from))]
pub fn reference_from(alloc: Global, tokens: &mut Tokens<'_>, word: Name) -> Result<Expr, ReadError>
    ensures { Reads ((g.reference_from limits word).reads tokens.old) result tokens.new }
{
    reference_at(alloc, tokens, MOST_BRACKETS, word)
}

/// A reference, as `a.b[3]`: what a row drives, too. The time is linear in the number of its items and the length of its names.
#[tactic(auto, unfolding(fir_ast::specs::ExprGrammar::reference, text_grammar::specs::Part::after))]
pub fn reference(alloc: Global, tokens: &mut Tokens<'_>) -> Result<Expr, ReadError>
    ensures { Reads ((g.reference limits).reads tokens.old) result tokens.new }
{
    let word = tokens.name(alloc)?;
    reference_from(alloc, tokens, word)
}

/// An expression that begins with this word. The time is linear in the number of its items and the length of its names.
#[tactic(auto, unfolding(fir_ast::specs::ExprGrammar::expr_from))]
pub fn expr_from(alloc: Global, tokens: &mut Tokens<'_>, word: Name) -> Result<Expr, ReadError>
    ensures { Reads ((g.expr_from limits word).reads tokens.old) result tokens.new }
{
    expr_at(alloc, tokens, MOST_BRACKETS, word)
}

/// An expression. The time is linear in the number of its items and the length of its names.
#[tactic(auto, unfolding(fir_ast::specs::ExprGrammar::expr, text_grammar::specs::Part::after))]
pub fn expr(alloc: Global, tokens: &mut Tokens<'_>) -> Result<Expr, ReadError>
    ensures { Reads ((g.expr limits).reads tokens.old) result tokens.new }
{
    let word = tokens.name(alloc)?;
    expr_from(alloc, tokens, word)
}
