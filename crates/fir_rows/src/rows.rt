//! Which row a line is, from its first word on.

ghost use Rattle.std.specs.Prelude.{◌≡◌};
ghost use Rattle.text_grammar.specs.Part.{Reads};
ghost use Rattle.fir_ast.specs.Limits.{limits};
ghost use Rattle.fir_ast.specs.RowGrammar as g;

use crate::declarations::{connect, instance, invalidate, node, register, register_reset, wire};
use crate::sinks::{invalidated, sink_marked, sink_row};
use crate::verification::{verification, verifies};
use crate::words::is;
use fir_ast::{Expr, Stmt};
use std::alloc::Global;
use tb_base::Name;
use text_grammar::{ReadError, Symbol, Tokens};

/// Whether a name may stand behind a first word.
fn leads_name(word: &Name) -> bool
    ensures { result ≡ g.leads_name word.now }
{
    is(word, b"wire")
        || is(word, b"node")
        || is(word, b"reg")
        || is(word, b"regreset")
        || is(word, b"inst")
        || is(word, b"connect")
        || is(word, b"invalidate")
}

/// What follows such a word and the name behind it.
#[tactic(auto, unfolding(fir_ast::specs::RowGrammar::named))]
fn named(
    alloc: Global,
    tokens: &mut Tokens<'_>,
    column: u32,
    line: u32,
    word: &Name,
    name: Name,
) -> Result<Stmt, ReadError>
    ensures { Reads ((g.named limits column line word.now name).reads tokens.old) result tokens.new }
{
    if is(word, b"wire") {
        return wire(alloc, tokens, line, name);
    }
    if is(word, b"node") {
        return node(alloc, tokens, line, name);
    }
    if is(word, b"reg") {
        return register(alloc, tokens, column, line, name);
    }
    if is(word, b"regreset") {
        return register_reset(alloc, tokens, line, name);
    }
    if is(word, b"inst") {
        return instance(alloc, tokens, line, name);
    }
    if is(word, b"connect") {
        return connect(alloc, tokens, line, name);
    }
    invalidate(alloc, tokens, line, name)
}

/// The same, but for `w is invalid`, which is a row of the sink `w`.
#[tactic(auto, unfolding(fir_ast::specs::RowGrammar::with_name, text_grammar::specs::Part::either))]
fn with_name(
    alloc: Global,
    tokens: &mut Tokens<'_>,
    column: u32,
    line: u32,
    word: Name,
    name: Name,
) -> Result<Stmt, ReadError>
    ensures { Reads ((g.with_name limits column line word name).reads tokens.old) result tokens.new }
{
    if is(&name, b"is") {
        if tokens.sees_word(b"invalid") {
            return invalidated(tokens, line, Expr::Ident(word));
        }
        return named(alloc, tokens, column, line, &word, name);
    }
    named(alloc, tokens, column, line, &word, name)
}

/// What follows a first word that has a name behind it.
#[tactic(auto, unfolding(fir_ast::specs::RowGrammar::name_row, text_grammar::specs::Part::after))]
fn name_row(
    alloc: Global,
    tokens: &mut Tokens<'_>,
    column: u32,
    line: u32,
    word: Name,
) -> Result<Stmt, ReadError>
    ensures { Reads ((g.name_row limits column line word).reads tokens.old) result tokens.new }
{
    let name = tokens.name(alloc)?;
    with_name(alloc, tokens, column, line, word, name)
}

#[tactic(auto, unfolding(fir_ast::specs::RowGrammar::two_words, text_grammar::specs::Part::either))]
fn two_words(
    alloc: Global,
    tokens: &mut Tokens<'_>,
    column: u32,
    line: u32,
    word: Name,
) -> Result<Stmt, ReadError>
    ensures { Reads ((g.two_words limits column line word).reads tokens.old) result tokens.new }
{
    if tokens.sees_name() {
        return name_row(alloc, tokens, column, line, word);
    }
    sink_marked(alloc, tokens, line, word)
}

/// The end of a line that is `skip`.
#[tactic(auto, unfolding(fir_ast::specs::RowGrammar::skipped, fir_ast::specs::RowGrammar::ended, text_grammar::specs::Part::both, text_grammar::specs::Part::nothing))]
fn skipped(tokens: &mut Tokens<'_>, line: u32) -> Result<Stmt, ReadError>
    ensures { Reads ((g.skipped line).reads tokens.old) result tokens.new }
{
    tokens.mark(Symbol::LineEnd)?;
    Ok(Stmt::Skip { line })
}

/// A statement other than `when`, from its first word on, which stands in this column and this line, to the line's end,
/// or to that of the line below where the reset of a register stands alone. A line that begins with a word of no other
/// row, `when` and `else` among them, is a row of a sink. Both spellings of a connect, of an invalidation and of a register
/// with reset give one tree.
#[tactic(auto, unfolding(fir_ast::specs::RowGrammar::row_from, text_grammar::specs::Part::either))]
pub fn row_from(
    alloc: Global,
    tokens: &mut Tokens<'_>,
    column: u32,
    line: u32,
    word: Name,
) -> Result<Stmt, ReadError>
    ensures { Reads ((g.row_from limits column line word).reads tokens.old) result tokens.new }
{
    if leads_name(&word) {
        return two_words(alloc, tokens, column, line, word);
    }
    if is(&word, b"skip") {
        if tokens.sees(Symbol::LineEnd) {
            return skipped(tokens, line);
        }
        return sink_row(alloc, tokens, line, word);
    }
    if verifies(&word) {
        if tokens.sees(Symbol::OpenParen) {
            return verification(alloc, tokens, line, &word);
        }
        return sink_row(alloc, tokens, line, word);
    }
    sink_row(alloc, tokens, line, word)
}
