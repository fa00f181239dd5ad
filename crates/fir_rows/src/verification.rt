//! Verification statements, from their opening parenthesis on.

ghost use Rattle.std.specs.Prelude.{◌≡◌, ◌++◌, IfOk};
ghost use Rattle.text_grammar.specs.Part.{Reads, many};
ghost use Rattle.text_grammar.specs.Terminals.{is_symbol};
ghost use Rattle.text_grammar.specs.declared.item.Symbol.TheVariants as s;
ghost use Rattle.fir_ast.specs.Limits.{limits};
ghost use Rattle.fir_ast.specs.RowGrammar as g;

use crate::words::{is, operand};
use fir_ast::{Expr, Stmt, VerifKind};
use fir_expr::expr;
use std::alloc::Global;
use tb_base::{Memory, Name, Seq};
use text_grammar::{Item, ReadError, Symbol, Token, Tokens};

/// A string: the bytes between its quotes.
#[tactic(auto, unfolding(fir_ast::specs::RowGrammar::text_token, text_grammar::specs::Part::one_by))]
fn text_token(alloc: Global, tokens: &mut Tokens<'_>) -> Result<Name, ReadError>
    ensures { Reads (g.text_token.reads tokens.old) result tokens.new }
{
    match tokens.peek() {
        Some(
            Item {
                token: Token::Text(bytes),
                ..
            },
        ) => {
            let text = bytes.copy(alloc)?;
            tokens.skip();
            Ok(text)
        }
        _ => Err(tokens.refuse()),
    }
}

/// `: w` and the line's end.
#[tactic(auto, unfolding(fir_ast::specs::RowGrammar::some_label, text_grammar::specs::Part::both))]
fn some_label(alloc: Global, tokens: &mut Tokens<'_>) -> Result<Option<Name>, ReadError>
    ensures { Reads (g.some_label.reads tokens.old) result tokens.new }
{
    tokens.mark(Symbol::Colon)?;
    let name = tokens.name(alloc)?;
    tokens.mark(Symbol::LineEnd)?;
    Ok(Some(name))
}

/// No label: the line's end.
#[tactic(auto, unfolding(fir_ast::specs::RowGrammar::ended, text_grammar::specs::Part::both, text_grammar::specs::Part::nothing))]
fn no_label(tokens: &mut Tokens<'_>) -> Result<Option<Name>, ReadError>
    ensures { Reads (g.no_label.reads tokens.old) result tokens.new }
{
    tokens.mark(Symbol::LineEnd)?;
    Ok(None)
}

#[tactic(auto, unfolding(fir_ast::specs::RowGrammar::label, text_grammar::specs::Part::either))]
fn label(alloc: Global, tokens: &mut Tokens<'_>) -> Result<Option<Name>, ReadError>
    ensures { Reads (g.label.reads tokens.old) result tokens.new }
{
    if tokens.sees(Symbol::Colon) {
        return some_label(alloc, tokens);
    }
    no_label(tokens)
}

/// `)`, and maybe a label.
#[tactic(auto, unfolding(fir_ast::specs::RowGrammar::closes, text_grammar::specs::Part::both))]
fn closes(alloc: Global, tokens: &mut Tokens<'_>) -> Result<Option<Name>, ReadError>
    ensures { Reads (g.closes.reads tokens.old) result tokens.new }
{
    tokens.mark(Symbol::CloseParen)?;
    let label = label(alloc, tokens)?;
    Ok(label)
}

/// `, E`
#[tactic(auto, unfolding(fir_ast::specs::RowGrammar::value, text_grammar::specs::Part::both))]
fn value(alloc: Global, tokens: &mut Tokens<'_>) -> Result<Expr, ReadError>
    ensures { Reads ((g.value limits).reads tokens.old) result tokens.new }
{
    tokens.mark(Symbol::Comma)?;
    let value = expr(alloc, tokens)?;
    Ok(value)
}

/// The expressions behind a string.
fn values(alloc: Global, tokens: &mut Tokens<'_>) -> Result<Seq<Expr>, ReadError>
    ensures { Reads ((many (is_symbol s.Comma) (g.value limits)).reads tokens.old) result tokens.new }
{
    let mut found = Vec::new(alloc);
    for _turn in 0..tokens.left() {
        if !tokens.sees(Symbol::Comma) {
            return Ok(Seq::of(found));
        }
        let next = match value(alloc, tokens) {
            Ok(next) => next,
            Err(e) => return Err(e),
        };
        found.push(next)?;
    }
    Ok(Seq::of(found))
}

/// `E, E,`
#[tactic(auto, unfolding(fir_ast::specs::RowGrammar::two_operands, text_grammar::specs::Part::both))]
fn two_operands(alloc: Global, tokens: &mut Tokens<'_>) -> Result<Seq<Expr>, ReadError>
    ensures { Reads ((g.two_operands limits).reads tokens.old) result tokens.new }
{
    let clock = operand(alloc, tokens)?;
    let condition = operand(alloc, tokens)?;
    let mut found = Vec::new(alloc);
    found.push(clock)?;
    found.push(condition)?;
    Ok(Seq::of(found))
}

/// `E, E, E,`
#[tactic(auto, unfolding(fir_ast::specs::RowGrammar::three_operands, fir_ast::specs::RowGrammar::two_operands, text_grammar::specs::Part::both))]
fn three_operands(alloc: Global, tokens: &mut Tokens<'_>) -> Result<Seq<Expr>, ReadError>
    ensures { Reads ((g.three_operands limits).reads tokens.old) result tokens.new }
{
    let clock = operand(alloc, tokens)?;
    let predicate = operand(alloc, tokens)?;
    let enable = operand(alloc, tokens)?;
    let mut found = Vec::new(alloc);
    found.push(clock)?;
    found.push(predicate)?;
    found.push(enable)?;
    Ok(Seq::of(found))
}

/// The expressions of both lists.
fn joined(before: Seq<Expr>, more: Seq<Expr>) -> Result<Seq<Expr>, Memory>
    ensures { IfOk result (λ all. all ≡ before ++ more) }
{
    let mut all = before.into_vec();
    all.append(&mut more.into_vec())?;
    Ok(Seq::of(all))
}

/// `"s", E ..)`, behind the expressions before.
#[tactic(auto, unfolding(fir_ast::specs::RowGrammar::told, text_grammar::specs::Part::both))]
fn told(
    alloc: Global,
    tokens: &mut Tokens<'_>,
    line: u32,
    kind: VerifKind,
    before: Seq<Expr>,
) -> Result<Stmt, ReadError>
    ensures { Reads ((g.told limits line kind before).reads tokens.old) result tokens.new }
{
    let text = text_token(alloc, tokens)?;
    let values = values(alloc, tokens)?;
    let label = closes(alloc, tokens)?;
    let args = joined(before, values)?;
    Ok(Stmt::Verif {
        line,
        kind,
        args,
        code: 0,
        text,
        label,
    })
}

/// `n)`, behind the expressions before.
#[tactic(auto, unfolding(fir_ast::specs::RowGrammar::stopped, text_grammar::specs::Part::both))]
fn stopped(
    alloc: Global,
    tokens: &mut Tokens<'_>,
    line: u32,
    before: Seq<Expr>,
) -> Result<Stmt, ReadError>
    ensures { Reads ((g.stopped line before).reads tokens.old) result tokens.new }
{
    let code = tokens.number()?;
    let label = closes(alloc, tokens)?;
    Ok(Stmt::Verif {
        line,
        kind: VerifKind::Stop,
        args: before,
        code,
        text: Name::of(Vec::new(alloc)),
        label,
    })
}

/// The arguments of an `assert`, `assume` or `cover`.
#[tactic(auto, unfolding(fir_ast::specs::RowGrammar::checked, text_grammar::specs::Part::after))]
fn checked(
    alloc: Global,
    tokens: &mut Tokens<'_>,
    line: u32,
    kind: VerifKind,
) -> Result<Stmt, ReadError>
    ensures { Reads ((g.checked limits line kind).reads tokens.old) result tokens.new }
{
    let before = three_operands(alloc, tokens)?;
    told(alloc, tokens, line, kind, before)
}

/// The arguments of a `printf`.
#[tactic(auto, unfolding(fir_ast::specs::RowGrammar::printing, text_grammar::specs::Part::after))]
fn printing(alloc: Global, tokens: &mut Tokens<'_>, line: u32) -> Result<Stmt, ReadError>
    ensures { Reads ((g.printing limits line).reads tokens.old) result tokens.new }
{
    let before = two_operands(alloc, tokens)?;
    told(alloc, tokens, line, VerifKind::Printf, before)
}

/// The arguments of a `stop`.
#[tactic(auto, unfolding(fir_ast::specs::RowGrammar::stopping, text_grammar::specs::Part::after))]
fn stopping(alloc: Global, tokens: &mut Tokens<'_>, line: u32) -> Result<Stmt, ReadError>
    ensures { Reads ((g.stopping limits line).reads tokens.old) result tokens.new }
{
    let before = two_operands(alloc, tokens)?;
    stopped(alloc, tokens, line, before)
}

/// Whether a word begins a verification statement where `(` follows.
pub(crate) fn verifies(word: &Name) -> bool
    ensures { result ≡ g.verifies word.now }
{
    is(word, b"printf")
        || is(word, b"stop")
        || is(word, b"assert")
        || is(word, b"assume")
        || is(word, b"cover")
}

#[tactic(auto, unfolding(fir_ast::specs::RowGrammar::arguments))]
fn arguments(
    alloc: Global,
    tokens: &mut Tokens<'_>,
    line: u32,
    word: &Name,
) -> Result<Stmt, ReadError>
    ensures { Reads ((g.arguments limits line word.now).reads tokens.old) result tokens.new }
{
    if is(word, b"printf") {
        return printing(alloc, tokens, line);
    }
    if is(word, b"stop") {
        return stopping(alloc, tokens, line);
    }
    if is(word, b"assert") {
        return checked(alloc, tokens, line, VerifKind::Assert);
    }
    if is(word, b"assume") {
        return checked(alloc, tokens, line, VerifKind::Assume);
    }
    checked(alloc, tokens, line, VerifKind::Cover)
}

/// What follows such a word, from its `(` on.
#[tactic(auto, unfolding(fir_ast::specs::RowGrammar::verification, text_grammar::specs::Part::both))]
pub(crate) fn verification(
    alloc: Global,
    tokens: &mut Tokens<'_>,
    line: u32,
    word: &Name,
) -> Result<Stmt, ReadError>
    ensures { Reads ((g.verification limits line word.now).reads tokens.old) result tokens.new }
{
    tokens.mark(Symbol::OpenParen)?;
    let row = arguments(alloc, tokens, line, word)?;
    Ok(row)
}
