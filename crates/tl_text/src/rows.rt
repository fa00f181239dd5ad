//! Statements without blocks, behind their first word.

ghost use Rattle.std.specs.Prelude.{◌≡◌, ◌==◌, ◌&&◌};
ghost use Rattle.text_grammar.specs.Part.{Reads};
ghost use Rattle.tl_ast.specs.ExprGrammar.{expr_limits, expr as expr_part};
ghost use Rattle.tl_ast.specs.TestGrammar as g;

use crate::exprs::expr;
use crate::lists::listed;
use crate::ports::port;
use std::alloc::Global;
use tb_base::{Name, Seq};
use text_grammar::{Kind, ReadError, Symbol, Token, Tokens};
use tl_ast::{DriverKind, StmtWord, TestExpr, TestStmt};

// ---- first words

/// What statement a token begins, if it begins one.
pub(crate) fn token_stmt_word(token: &Token) -> Option<StmtWord>
    ensures { result ≡ g.token_stmt_word token.now }
{
    match token {
        Token::Word(name) => StmtWord::named(name.bytes()),
        _ => None,
    }
}

fn is_forking(word: StmtWord) -> bool
    ensures { result ≡ g.is_forking word }
{
    matches!(word, StmtWord::Fork | StmtWord::Driver(_))
}

/// Whether the word begins a fork where no fork may stand.
fn is_one_too_many(forks: usize, word: StmtWord) -> bool
    ensures { result ≡ (forks == 0 && g.is_forking word) }
{
    forks == 0 && is_forking(word)
}

/// Takes a word that begins a statement, where so many forks may still be nested, and gives its line.
#[tactic(auto, using(crate::proofs::Words::word_taken, crate::proofs::Words::word_too_deep, crate::proofs::Words::word_refused, crate::proofs::Words::word_none))]
pub(crate) fn first_word(
    tokens: &mut Tokens<'_>,
    forks: usize,
) -> Result<(u32, StmtWord), ReadError>
    ensures { Reads ((g.first_word forks).reads tokens.old) result tokens.new }
{
    match tokens.peek() {
        Some(item) => match token_stmt_word(&item.token) {
            Some(word) => {
                if is_one_too_many(forks, word) {
                    return Err(ReadError::At(Kind::TooDeep, tokens.left()));
                }
                let line = item.place.line;
                tokens.skip();
                Ok((line, word))
            }
            None => Err(tokens.refuse()),
        },
        None => Err(tokens.refuse()),
    }
}

// ---- rows

/// `E;`
#[tactic(auto, unfolding(tl_ast::specs::TestGrammar::ended, text_grammar::specs::Part::both))]
fn ended(alloc: Global, tokens: &mut Tokens<'_>) -> Result<TestExpr, ReadError>
    ensures { Reads ((g.ended (expr_part expr_limits)).reads tokens.old) result tokens.new }
{
    let value = expr(alloc, tokens)?;
    tokens.mark(Symbol::Semicolon)?;
    Ok(value)
}

/// `= E;`
#[tactic(auto, unfolding(tl_ast::specs::TestGrammar::assigned, text_grammar::specs::Part::both))]
fn assigned(alloc: Global, tokens: &mut Tokens<'_>) -> Result<TestExpr, ReadError>
    ensures { Reads ((g.assigned expr_limits).reads tokens.old) result tokens.new }
{
    tokens.mark(Symbol::Equal)?;
    let value = ended(alloc, tokens)?;
    Ok(value)
}

#[tactic(auto, unfolding(tl_ast::specs::TestGrammar::poke, text_grammar::specs::Part::both))]
pub(crate) fn poke(alloc: Global, tokens: &mut Tokens<'_>, line: u32) -> Result<TestStmt, ReadError>
    ensures { Reads ((g.poke expr_limits line).reads tokens.old) result tokens.new }
{
    let port = port(alloc, tokens)?;
    tokens.mark(Symbol::Equal)?;
    let value = ended(alloc, tokens)?;
    Ok(TestStmt::Poke { line, port, value })
}

#[tactic(auto, unfolding(tl_ast::specs::TestGrammar::expect, text_grammar::specs::Part::both))]
pub(crate) fn expect(
    alloc: Global,
    tokens: &mut Tokens<'_>,
    line: u32,
) -> Result<TestStmt, ReadError>
    ensures { Reads ((g.expect expr_limits line).reads tokens.old) result tokens.new }
{
    let port = port(alloc, tokens)?;
    tokens.mark(Symbol::EqualEqual)?;
    let value = ended(alloc, tokens)?;
    Ok(TestStmt::Expect { line, port, value })
}

#[tactic(auto, unfolding(tl_ast::specs::TestGrammar::let_row, text_grammar::specs::Part::both))]
pub(crate) fn let_row(
    alloc: Global,
    tokens: &mut Tokens<'_>,
    line: u32,
) -> Result<TestStmt, ReadError>
    ensures { Reads ((g.let_row expr_limits line).reads tokens.old) result tokens.new }
{
    let name = tokens.name(alloc)?;
    let value = assigned(alloc, tokens)?;
    Ok(TestStmt::Let { line, name, value })
}

#[tactic(auto, unfolding(tl_ast::specs::TestGrammar::set_row, text_grammar::specs::Part::both))]
pub(crate) fn set_row(
    alloc: Global,
    tokens: &mut Tokens<'_>,
    line: u32,
) -> Result<TestStmt, ReadError>
    ensures { Reads ((g.set_row expr_limits line).reads tokens.old) result tokens.new }
{
    let name = tokens.name(alloc)?;
    let value = assigned(alloc, tokens)?;
    Ok(TestStmt::Set { line, name, value })
}

/// `into w`, if it stands there.
#[tactic(auto, unfolding(tl_ast::specs::TestGrammar::into, text_grammar::specs::Part::either, text_grammar::specs::Part::both, text_grammar::specs::Part::nothing))]
fn into(alloc: Global, tokens: &mut Tokens<'_>) -> Result<Option<Name>, ReadError>
    ensures { Reads (g.into.reads tokens.old) result tokens.new }
{
    if tokens.sees_word(b"into") {
        tokens.keyword(b"into")?;
        let name = tokens.name(alloc)?;
        return Ok(Some(name));
    }
    Ok(None)
}

#[tactic(auto, unfolding(tl_ast::specs::TestGrammar::peek, tl_ast::specs::TestGrammar::ended, text_grammar::specs::Part::both))]
pub(crate) fn peek(alloc: Global, tokens: &mut Tokens<'_>, line: u32) -> Result<TestStmt, ReadError>
    ensures { Reads ((g.peek line).reads tokens.old) result tokens.new }
{
    let port = port(alloc, tokens)?;
    let into = into(alloc, tokens)?;
    tokens.mark(Symbol::Semicolon)?;
    Ok(TestStmt::Peek { line, port, into })
}

#[tactic(auto, unfolding(tl_ast::specs::TestGrammar::step, text_grammar::specs::Part::both))]
pub(crate) fn step(tokens: &mut Tokens<'_>, line: u32) -> Result<TestStmt, ReadError>
    ensures { Reads ((g.step line).reads tokens.old) result tokens.new }
{
    let count = tokens.number()?;
    tokens.mark(Symbol::Semicolon)?;
    Ok(TestStmt::Step { line, count })
}

#[tactic(auto, unfolding(tl_ast::specs::TestGrammar::reset, text_grammar::specs::Part::both))]
pub(crate) fn reset(tokens: &mut Tokens<'_>, line: u32) -> Result<TestStmt, ReadError>
    ensures { Reads ((g.reset line).reads tokens.old) result tokens.new }
{
    let count = tokens.number()?;
    tokens.mark(Symbol::Semicolon)?;
    Ok(TestStmt::ResetFor { line, count })
}

#[tactic(auto, unfolding(tl_ast::specs::TestGrammar::join, text_grammar::specs::Part::both))]
pub(crate) fn join(alloc: Global, tokens: &mut Tokens<'_>, line: u32) -> Result<TestStmt, ReadError>
    ensures { Reads ((g.join line).reads tokens.old) result tokens.new }
{
    let handle = tokens.name(alloc)?;
    tokens.mark(Symbol::Semicolon)?;
    Ok(TestStmt::Join { line, handle })
}

#[tactic(auto, unfolding(tl_ast::specs::TestGrammar::join_step, text_grammar::specs::Part::both))]
pub(crate) fn join_step(
    alloc: Global,
    tokens: &mut Tokens<'_>,
    line: u32,
) -> Result<TestStmt, ReadError>
    ensures { Reads ((g.join_step line).reads tokens.old) result tokens.new }
{
    let handle = tokens.name(alloc)?;
    tokens.mark(Symbol::Semicolon)?;
    Ok(TestStmt::JoinStep { line, handle })
}

// ---- drivers

#[tactic(auto, unfolding(tl_ast::specs::TestGrammar::list_driver, text_grammar::specs::Part::both))]
fn list_driver(
    alloc: Global,
    tokens: &mut Tokens<'_>,
    line: u32,
    kind: DriverKind,
) -> Result<TestStmt, ReadError>
    ensures { Reads ((g.list_driver expr_limits line kind).reads tokens.old) result tokens.new }
{
    let listed = listed(alloc, tokens)?;
    tokens.mark(Symbol::Semicolon)?;
    Ok(TestStmt::Driver {
        line,
        kind,
        port: listed.name,
        values: listed.values,
    })
}

#[tactic(auto, unfolding(tl_ast::specs::TestGrammar::bare_driver, text_grammar::specs::Part::both))]
fn bare_driver(
    alloc: Global,
    tokens: &mut Tokens<'_>,
    line: u32,
    kind: DriverKind,
) -> Result<TestStmt, ReadError>
    ensures { Reads ((g.bare_driver line kind).reads tokens.old) result tokens.new }
{
    let port = port(alloc, tokens)?;
    tokens.mark(Symbol::Semicolon)?;
    Ok(TestStmt::Driver {
        line,
        kind,
        port,
        values: Seq::of(Vec::new(alloc)),
    })
}

#[tactic(auto, unfolding(tl_ast::specs::TestGrammar::value_driver, text_grammar::specs::Part::both))]
fn value_driver(
    alloc: Global,
    tokens: &mut Tokens<'_>,
    line: u32,
    kind: DriverKind,
) -> Result<TestStmt, ReadError>
    ensures { Reads ((g.value_driver expr_limits line kind).reads tokens.old) result tokens.new }
{
    let port = port(alloc, tokens)?;
    let value = ended(alloc, tokens)?;
    let mut values = Vec::new(alloc);
    values.push(value)?;
    Ok(TestStmt::Driver {
        line,
        kind,
        port,
        values: Seq::of(values),
    })
}

#[tactic(auto, unfolding(tl_ast::specs::TestGrammar::driver))]
pub(crate) fn driver(
    alloc: Global,
    tokens: &mut Tokens<'_>,
    line: u32,
    kind: DriverKind,
) -> Result<TestStmt, ReadError>
    ensures { Reads ((g.driver expr_limits line kind).reads tokens.old) result tokens.new }
{
    match kind {
        DriverKind::EnqueueSeq => list_driver(alloc, tokens, line, DriverKind::EnqueueSeq),
        DriverKind::ExpectDequeueSeq => {
            list_driver(alloc, tokens, line, DriverKind::ExpectDequeueSeq)
        }
        DriverKind::ExpectInvalid => bare_driver(alloc, tokens, line, DriverKind::ExpectInvalid),
        DriverKind::Enqueue => value_driver(alloc, tokens, line, DriverKind::Enqueue),
        DriverKind::EnqueueNow => value_driver(alloc, tokens, line, DriverKind::EnqueueNow),
        DriverKind::ExpectDequeue => value_driver(alloc, tokens, line, DriverKind::ExpectDequeue),
        DriverKind::ExpectDequeueNow => {
            value_driver(alloc, tokens, line, DriverKind::ExpectDequeueNow)
        }
    }
}
