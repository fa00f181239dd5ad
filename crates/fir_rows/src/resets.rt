//! The reset of a register, behind its `with :`, on the same line or alone on a line below.

ghost use Rattle.std.specs.Prelude.{◌≡◌};
ghost use Rattle.text_grammar.specs.Part.{Reads, starts, flag};
ghost use Rattle.fir_ast.specs.Limits.{limits};
ghost use Rattle.fir_ast.specs.RowGrammar as g;

use crate::words::operand;
use fir_ast::ResetPair;
use fir_expr::expr;
use std::alloc::Global;
use text_grammar::{ReadError, Symbol, Tokens};

/// `=> (E, E)`
#[tactic(auto, unfolding(fir_ast::specs::RowGrammar::reset_pair, text_grammar::specs::Part::both))]
fn reset_pair(alloc: Global, tokens: &mut Tokens<'_>) -> Result<ResetPair, ReadError>
    ensures { Reads ((g.reset_pair limits).reads tokens.old) result tokens.new }
{
    tokens.mark(Symbol::Arrow)?;
    tokens.mark(Symbol::OpenParen)?;
    let signal = operand(alloc, tokens)?;
    let init = expr(alloc, tokens)?;
    tokens.mark(Symbol::CloseParen)?;
    Ok(ResetPair { signal, init })
}

/// Whether a `(` comes next, deeper than this column.
#[tactic(auto, using(crate::proofs::RowReading::both_start))]
fn opens_reset(tokens: &Tokens<'_>, column: u32) -> bool
    ensures { result ≡ starts (g.opens_reset column) tokens.now }
{
    tokens.is_deeper(column) && tokens.sees(Symbol::OpenParen)
}

/// Whether the word `reset` comes next, deeper than this column.
#[tactic(auto, using(crate::proofs::RowReading::both_start))]
fn leads_reset(tokens: &Tokens<'_>, column: u32) -> bool
    ensures { result ≡ starts (g.leads_reset column) tokens.now }
{
    tokens.is_deeper(column) && tokens.sees_word(b"reset")
}

/// Takes that `(`.
#[tactic(auto, using(text_grammar::proofs::Reading::flag_taken, text_grammar::proofs::Reading::flag_refused))]
fn open_reset(tokens: &mut Tokens<'_>, column: u32) -> Result<(), ReadError>
    ensures { Reads ((flag (g.opens_reset column)).reads tokens.old) result tokens.new }
{
    if opens_reset(tokens, column) {
        tokens.skip();
        Ok(())
    } else {
        Err(tokens.refuse())
    }
}

/// Takes that word.
#[tactic(auto, using(text_grammar::proofs::Reading::flag_taken, text_grammar::proofs::Reading::flag_refused))]
fn lead_reset(tokens: &mut Tokens<'_>, column: u32) -> Result<(), ReadError>
    ensures { Reads ((flag (g.leads_reset column)).reads tokens.old) result tokens.new }
{
    if leads_reset(tokens, column) {
        tokens.skip();
        Ok(())
    } else {
        Err(tokens.refuse())
    }
}

/// `(reset => (E, E))`
#[tactic(auto, unfolding(fir_ast::specs::RowGrammar::reset_in_parens, text_grammar::specs::Part::both))]
fn reset_in_parens(
    alloc: Global,
    tokens: &mut Tokens<'_>,
    column: u32,
) -> Result<ResetPair, ReadError>
    ensures { Reads ((g.reset_in_parens limits column).reads tokens.old) result tokens.new }
{
    open_reset(tokens, column)?;
    tokens.keyword(b"reset")?;
    let reset = reset_pair(alloc, tokens)?;
    tokens.mark(Symbol::CloseParen)?;
    Ok(reset)
}

/// `reset => (E, E)`
#[tactic(auto, unfolding(fir_ast::specs::RowGrammar::reset_bare, text_grammar::specs::Part::both))]
fn reset_bare(alloc: Global, tokens: &mut Tokens<'_>, column: u32) -> Result<ResetPair, ReadError>
    ensures { Reads ((g.reset_bare limits column).reads tokens.old) result tokens.new }
{
    lead_reset(tokens, column)?;
    let reset = reset_pair(alloc, tokens)?;
    Ok(reset)
}

/// Either form.
#[tactic(auto, unfolding(fir_ast::specs::RowGrammar::reset, text_grammar::specs::Part::either))]
fn reset(alloc: Global, tokens: &mut Tokens<'_>, column: u32) -> Result<ResetPair, ReadError>
    ensures { Reads ((g.reset limits column).reads tokens.old) result tokens.new }
{
    if opens_reset(tokens, column) {
        return reset_in_parens(alloc, tokens, column);
    }
    reset_bare(alloc, tokens, column)
}

/// Either form, and the line's end.
#[tactic(auto, unfolding(fir_ast::specs::RowGrammar::reset_line, text_grammar::specs::Part::both))]
fn reset_line(alloc: Global, tokens: &mut Tokens<'_>, column: u32) -> Result<ResetPair, ReadError>
    ensures { Reads ((g.reset_line limits column).reads tokens.old) result tokens.new }
{
    let reset = reset(alloc, tokens, column)?;
    tokens.mark(Symbol::LineEnd)?;
    Ok(reset)
}

/// The reset on a line below.
#[tactic(auto, unfolding(fir_ast::specs::RowGrammar::reset_below, text_grammar::specs::Part::both))]
fn reset_below(alloc: Global, tokens: &mut Tokens<'_>, column: u32) -> Result<ResetPair, ReadError>
    ensures { Reads ((g.reset_below limits column).reads tokens.old) result tokens.new }
{
    tokens.mark(Symbol::LineEnd)?;
    let reset = reset_line(alloc, tokens, column)?;
    Ok(reset)
}

#[tactic(auto, unfolding(fir_ast::specs::RowGrammar::reset_place, text_grammar::specs::Part::either))]
fn reset_place(alloc: Global, tokens: &mut Tokens<'_>, column: u32) -> Result<ResetPair, ReadError>
    ensures { Reads ((g.reset_place limits column).reads tokens.old) result tokens.new }
{
    if tokens.sees(Symbol::LineEnd) {
        return reset_below(alloc, tokens, column);
    }
    reset_line(alloc, tokens, column)
}

/// `with : R`
#[tactic(auto, unfolding(fir_ast::specs::RowGrammar::some_reset, text_grammar::specs::Part::both))]
fn some_reset(
    alloc: Global,
    tokens: &mut Tokens<'_>,
    column: u32,
) -> Result<Option<ResetPair>, ReadError>
    ensures { Reads ((g.some_reset limits column).reads tokens.old) result tokens.new }
{
    tokens.keyword(b"with")?;
    tokens.mark(Symbol::Colon)?;
    let reset = reset_place(alloc, tokens, column)?;
    Ok(Some(reset))
}

/// No reset: the line's end.
#[tactic(auto, unfolding(fir_ast::specs::RowGrammar::ended, text_grammar::specs::Part::both, text_grammar::specs::Part::nothing))]
fn no_reset(tokens: &mut Tokens<'_>) -> Result<Option<ResetPair>, ReadError>
    ensures { Reads (g.no_reset.reads tokens.old) result tokens.new }
{
    tokens.mark(Symbol::LineEnd)?;
    Ok(None)
}

/// The reset of a register in this column, where it has one.
#[tactic(auto, unfolding(fir_ast::specs::RowGrammar::with_reset, text_grammar::specs::Part::either))]
pub(crate) fn with_reset(
    alloc: Global,
    tokens: &mut Tokens<'_>,
    column: u32,
) -> Result<Option<ResetPair>, ReadError>
    ensures { Reads ((g.with_reset limits column).reads tokens.old) result tokens.new }
{
    if tokens.sees_word(b"with") {
        return some_reset(alloc, tokens, column);
    }
    no_reset(tokens)
}
