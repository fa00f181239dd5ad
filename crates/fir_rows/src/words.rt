//! What the rows share: comparing words, and expressions with what stands behind them.

ghost use Rattle.std.specs.Prelude.{◌≡◌};
ghost use Rattle.std.specs.Str.{bytes_eq};
ghost use Rattle.text_grammar.specs.Part.{Reads};
ghost use Rattle.fir_ast.specs.Limits.{limits};
ghost use Rattle.fir_ast.specs.RowGrammar as g;

use fir_ast::Expr;
use fir_expr::expr;
use std::alloc::Global;
use tb_base::Name;
use text_grammar::{ReadError, Symbol, Tokens};

/// Whether a word has these bytes.
pub(crate) fn is(word: &Name, text: &[u8]) -> bool
    ensures { result ≡ bytes_eq word.now text.now }
{
    word.bytes() == text
}

/// `E,`
#[tactic(auto, unfolding(fir_ast::specs::RowGrammar::operand, text_grammar::specs::Part::both))]
pub(crate) fn operand(alloc: Global, tokens: &mut Tokens<'_>) -> Result<Expr, ReadError>
    ensures { Reads ((g.operand limits).reads tokens.old) result tokens.new }
{
    let operand = expr(alloc, tokens)?;
    tokens.mark(Symbol::Comma)?;
    Ok(operand)
}

/// `E` and the line's end.
#[tactic(auto, unfolding(fir_ast::specs::RowGrammar::last, text_grammar::specs::Part::both))]
pub(crate) fn last(alloc: Global, tokens: &mut Tokens<'_>) -> Result<Expr, ReadError>
    ensures { Reads ((g.last limits).reads tokens.old) result tokens.new }
{
    let last = expr(alloc, tokens)?;
    tokens.mark(Symbol::LineEnd)?;
    Ok(last)
}
