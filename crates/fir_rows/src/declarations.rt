//! Rows whose first word has a name behind it: declarations, `connect` and `invalidate`, from that name on.

ghost use Rattle.std.specs.Prelude.{◌≡◌};
ghost use Rattle.text_grammar.specs.Part.{Reads};
ghost use Rattle.fir_ast.specs.Limits.{limits};
ghost use Rattle.fir_ast.specs.RowGrammar as g;

use crate::resets::with_reset;
use crate::words::{last, operand};
use fir_ast::{Expr, ResetPair, Stmt, Ty};
use fir_expr::{expr, reference_from};
use std::alloc::Global;
use tb_base::Name;
use text_grammar::{ReadError, Symbol, Tokens};

/// `: T`
#[tactic(auto, unfolding(fir_ast::specs::RowGrammar::typed, text_grammar::specs::Part::both))]
pub(crate) fn typed(alloc: Global, tokens: &mut Tokens<'_>) -> Result<Ty, ReadError>
    ensures { Reads ((g.typed limits).reads tokens.old) result tokens.new }
{
    tokens.mark(Symbol::Colon)?;
    let ty = fir_expr::ty(alloc, tokens)?;
    Ok(ty)
}

/// `: T,`
#[tactic(auto, unfolding(fir_ast::specs::RowGrammar::typed_operand, text_grammar::specs::Part::both))]
fn typed_operand(alloc: Global, tokens: &mut Tokens<'_>) -> Result<Ty, ReadError>
    ensures { Reads ((g.typed_operand limits).reads tokens.old) result tokens.new }
{
    let ty = typed(alloc, tokens)?;
    tokens.mark(Symbol::Comma)?;
    Ok(ty)
}

/// `: T`, after `wire n`.
#[tactic(auto, unfolding(fir_ast::specs::RowGrammar::wire, text_grammar::specs::Part::both))]
pub(crate) fn wire(
    alloc: Global,
    tokens: &mut Tokens<'_>,
    line: u32,
    name: Name,
) -> Result<Stmt, ReadError>
    ensures { Reads ((g.wire limits line name).reads tokens.old) result tokens.new }
{
    let ty = typed(alloc, tokens)?;
    tokens.mark(Symbol::LineEnd)?;
    Ok(Stmt::Wire { line, name, ty })
}

/// `= E`, after `node n`.
#[tactic(auto, unfolding(fir_ast::specs::RowGrammar::node, text_grammar::specs::Part::both))]
pub(crate) fn node(
    alloc: Global,
    tokens: &mut Tokens<'_>,
    line: u32,
    name: Name,
) -> Result<Stmt, ReadError>
    ensures { Reads ((g.node limits line name).reads tokens.old) result tokens.new }
{
    tokens.mark(Symbol::Equal)?;
    let value = last(alloc, tokens)?;
    Ok(Stmt::Node { line, name, value })
}

/// `of m`, after `inst n`.
#[tactic(auto, unfolding(fir_ast::specs::RowGrammar::instance, text_grammar::specs::Part::both))]
pub(crate) fn instance(
    alloc: Global,
    tokens: &mut Tokens<'_>,
    line: u32,
    name: Name,
) -> Result<Stmt, ReadError>
    ensures { Reads ((g.instance line name).reads tokens.old) result tokens.new }
{
    tokens.keyword(b"of")?;
    let module = tokens.name(alloc)?;
    tokens.mark(Symbol::LineEnd)?;
    Ok(Stmt::Inst { line, name, module })
}

/// `: T, E`, and maybe a reset, after `reg n`.
#[tactic(auto, unfolding(fir_ast::specs::RowGrammar::register, text_grammar::specs::Part::both))]
pub(crate) fn register(
    alloc: Global,
    tokens: &mut Tokens<'_>,
    column: u32,
    line: u32,
    name: Name,
) -> Result<Stmt, ReadError>
    ensures { Reads ((g.register limits column line name).reads tokens.old) result tokens.new }
{
    let ty = typed_operand(alloc, tokens)?;
    let clock = expr(alloc, tokens)?;
    let reset = with_reset(alloc, tokens, column)?;
    Ok(Stmt::Reg {
        line,
        name,
        ty,
        clock,
        reset,
    })
}

/// `: T, E, E, E`, after `regreset n`.
#[tactic(auto, unfolding(fir_ast::specs::RowGrammar::register_reset, text_grammar::specs::Part::both))]
pub(crate) fn register_reset(
    alloc: Global,
    tokens: &mut Tokens<'_>,
    line: u32,
    name: Name,
) -> Result<Stmt, ReadError>
    ensures { Reads ((g.register_reset limits line name).reads tokens.old) result tokens.new }
{
    let ty = typed_operand(alloc, tokens)?;
    let clock = operand(alloc, tokens)?;
    let signal = operand(alloc, tokens)?;
    let init = last(alloc, tokens)?;
    Ok(Stmt::Reg {
        line,
        name,
        ty,
        clock,
        reset: Some(ResetPair { signal, init }),
    })
}

/// `, E` behind the sink of a `connect`.
#[tactic(auto, unfolding(fir_ast::specs::RowGrammar::connected, text_grammar::specs::Part::both))]
fn connected(
    alloc: Global,
    tokens: &mut Tokens<'_>,
    line: u32,
    sink: Expr,
) -> Result<Stmt, ReadError>
    ensures { Reads ((g.connected limits line sink).reads tokens.old) result tokens.new }
{
    tokens.mark(Symbol::Comma)?;
    let value = last(alloc, tokens)?;
    Ok(Stmt::Connect { line, sink, value })
}

/// What follows `connect n`.
#[tactic(auto, unfolding(fir_ast::specs::RowGrammar::connect, text_grammar::specs::Part::after))]
pub(crate) fn connect(
    alloc: Global,
    tokens: &mut Tokens<'_>,
    line: u32,
    name: Name,
) -> Result<Stmt, ReadError>
    ensures { Reads ((g.connect limits line name).reads tokens.old) result tokens.new }
{
    let sink = reference_from(alloc, tokens, name)?;
    connected(alloc, tokens, line, sink)
}

/// The line's end behind the sink of an `invalidate`.
#[tactic(auto, unfolding(fir_ast::specs::RowGrammar::dropped, fir_ast::specs::RowGrammar::ended, text_grammar::specs::Part::both, text_grammar::specs::Part::nothing))]
fn dropped(tokens: &mut Tokens<'_>, line: u32, sink: Expr) -> Result<Stmt, ReadError>
    ensures { Reads ((g.dropped line sink).reads tokens.old) result tokens.new }
{
    tokens.mark(Symbol::LineEnd)?;
    Ok(Stmt::Invalid { line, sink })
}

/// What follows `invalidate n`.
#[tactic(auto, unfolding(fir_ast::specs::RowGrammar::invalidate, text_grammar::specs::Part::after))]
pub(crate) fn invalidate(
    alloc: Global,
    tokens: &mut Tokens<'_>,
    line: u32,
    name: Name,
) -> Result<Stmt, ReadError>
    ensures { Reads ((g.invalidate limits line name).reads tokens.old) result tokens.new }
{
    let sink = reference_from(alloc, tokens, name)?;
    dropped(tokens, line, sink)
}
