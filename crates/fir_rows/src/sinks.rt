//! Rows that begin with what they drive: `S <= E` and `S is invalid`.

ghost use Rattle.std.specs.Prelude.{◌≡◌};
ghost use Rattle.text_grammar.specs.Part.{Reads};
ghost use Rattle.fir_ast.specs.Limits.{limits};
ghost use Rattle.fir_ast.specs.RowGrammar as g;

use crate::words::last;
use fir_ast::{Expr, Stmt};
use fir_expr::reference_from;
use std::alloc::Global;
use tb_base::Name;
use text_grammar::{ReadError, Symbol, Tokens};

/// `<= E`
#[tactic(auto, unfolding(fir_ast::specs::RowGrammar::driven, text_grammar::specs::Part::both))]
fn driven(alloc: Global, tokens: &mut Tokens<'_>, line: u32, sink: Expr) -> Result<Stmt, ReadError>
    ensures { Reads ((g.driven limits line sink).reads tokens.old) result tokens.new }
{
    tokens.mark(Symbol::LessEqual)?;
    let value = last(alloc, tokens)?;
    Ok(Stmt::Connect { line, sink, value })
}

/// `invalid` and the line's end, behind `S is`.
#[tactic(auto, unfolding(fir_ast::specs::RowGrammar::invalidated, fir_ast::specs::RowGrammar::ended, text_grammar::specs::Part::both, text_grammar::specs::Part::nothing))]
pub fn invalidated(tokens: &mut Tokens<'_>, line: u32, sink: Expr) -> Result<Stmt, ReadError>
    ensures { Reads ((g.invalidated line sink).reads tokens.old) result tokens.new }
{
    tokens.keyword(b"invalid")?;
    tokens.mark(Symbol::LineEnd)?;
    Ok(Stmt::Invalid { line, sink })
}

/// `is invalid`
#[tactic(auto, unfolding(fir_ast::specs::RowGrammar::is_invalid, text_grammar::specs::Part::both))]
fn is_invalid(tokens: &mut Tokens<'_>, line: u32, sink: Expr) -> Result<Stmt, ReadError>
    ensures { Reads ((g.is_invalid line sink).reads tokens.old) result tokens.new }
{
    tokens.keyword(b"is")?;
    let row = invalidated(tokens, line, sink)?;
    Ok(row)
}

/// `<= E` or `is invalid`
#[tactic(auto, unfolding(fir_ast::specs::RowGrammar::sink_end, text_grammar::specs::Part::either))]
fn sink_end(
    alloc: Global,
    tokens: &mut Tokens<'_>,
    line: u32,
    sink: Expr,
) -> Result<Stmt, ReadError>
    ensures { Reads ((g.sink_end limits line sink).reads tokens.old) result tokens.new }
{
    if tokens.sees_word(b"is") {
        return is_invalid(tokens, line, sink);
    }
    driven(alloc, tokens, line, sink)
}

/// A row of a sink that begins with this word: `w.. <= E` or `w.. is invalid`, and the line's end. Any word may be a
/// sink's name.
#[tactic(auto, unfolding(fir_ast::specs::RowGrammar::sink_row, text_grammar::specs::Part::after))]
pub fn sink_row(
    alloc: Global,
    tokens: &mut Tokens<'_>,
    line: u32,
    word: Name,
) -> Result<Stmt, ReadError>
    ensures { Reads ((g.sink_row limits line word).reads tokens.old) result tokens.new }
{
    let sink = reference_from(alloc, tokens, word)?;
    sink_end(alloc, tokens, line, sink)
}

/// Whether a reference is a word without suffixes.
fn is_plain(sink: &Expr) -> bool
    ensures { result ≡ g.is_plain sink.now }
{
    matches!(sink, Expr::Ident(_))
}

#[tactic(auto, unfolding(fir_ast::specs::RowGrammar::marked_end))]
fn marked_end(
    alloc: Global,
    tokens: &mut Tokens<'_>,
    line: u32,
    sink: Expr,
) -> Result<Stmt, ReadError>
    ensures { Reads ((g.marked_end limits line sink).reads tokens.old) result tokens.new }
{
    if is_plain(&sink) {
        return driven(alloc, tokens, line, sink);
    }
    sink_end(alloc, tokens, line, sink)
}

/// A row of a sink that begins with this word, but for `w is invalid`: whoever takes a name behind the word has taken
/// that `is` as a name.
#[tactic(auto, unfolding(fir_ast::specs::RowGrammar::sink_marked, text_grammar::specs::Part::after))]
pub fn sink_marked(
    alloc: Global,
    tokens: &mut Tokens<'_>,
    line: u32,
    word: Name,
) -> Result<Stmt, ReadError>
    ensures { Reads ((g.sink_marked limits line word).reads tokens.old) result tokens.new }
{
    let sink = reference_from(alloc, tokens, word)?;
    marked_end(alloc, tokens, line, sink)
}
