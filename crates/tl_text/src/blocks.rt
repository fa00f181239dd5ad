//! Statements with blocks, blocks, and whole tests.

ghost use Rattle.std.specs.Prelude.{◌≡◌};
ghost use Rattle.std.specs.Str.{bytes_eq};
ghost use Rattle.text_grammar.specs.Part.{Reads, Fails, starts, whole};
ghost use Rattle.tl_ast.specs.ExprGrammar.{expr_limits};
ghost use Rattle.tl_ast.specs.TestGrammar as g;

use crate::exprs::expr;
use crate::rows::{
    driver, expect, first_word, join, join_step, let_row, peek, poke, reset, set_row, step,
    token_stmt_word,
};
use sqlite_items::Items;
use std::alloc::Global;
use tb_base::{Name, Region, Seq};
use text_grammar::{Kind, ReadError, Symbol, Tokens};
use tl_ast::{StmtWord, TestStmt, TestText};

/// How many blocks may be nested.
const MOST_BLOCKS: usize = 32;

/// How many forks may be nested.
const MOST_FORKS: usize = 8;

/// Whether a statement begins here.
#[tactic(auto, using(crate::proofs::Peeking::starts_some, crate::proofs::Peeking::starts_none))]
fn sees_stmt(tokens: &Tokens<'_>) -> bool
    ensures { result ≡ starts g.begins_stmt tokens.now }
{
    match tokens.peek() {
        Some(item) => token_stmt_word(&item.token).is_some(),
        None => false,
    }
}

fn is(name: &Name, text: &[u8]) -> bool
    ensures { result ≡ bytes_eq name.now text.now }
{
    name.bytes() == text
}

/// The region that a word names.
fn region_named(name: &Name) -> Option<Region>
    ensures { result ≡ g.region_named name.now }
{
    if is(name, b"main") {
        return Some(Region::Main);
    }
    if is(name, b"monitor") {
        return Some(Region::Monitor);
    }
    None
}

// ---- rows, whose blocks may hold so many blocks and forks

/// Maybe `else B`.
#[cycle(stmt)]
#[tactic(auto, unfolding(tl_ast::specs::TestGrammar::else_block, text_grammar::specs::Part::either, text_grammar::specs::Part::both, text_grammar::specs::Part::nothing))]
fn else_block(
    alloc: Global,
    tokens: &mut Tokens<'_>,
    blocks: usize,
    forks: usize,
) -> Result<Items<TestStmt>, ReadError>
    ensures { Reads ((g.else_block (g.block_within expr_limits blocks forks)).reads tokens.old) result tokens.new }
{
    if tokens.sees_word(b"else") {
        tokens.keyword(b"else")?;
        let other = block(alloc, tokens, blocks, forks)?;
        return Ok(other);
    }
    Ok(Items::new(alloc))
}

#[cycle(stmt)]
#[tactic(auto, unfolding(tl_ast::specs::TestGrammar::if_row, text_grammar::specs::Part::both))]
fn if_row(
    alloc: Global,
    tokens: &mut Tokens<'_>,
    blocks: usize,
    forks: usize,
    line: u32,
) -> Result<TestStmt, ReadError>
    ensures { Reads ((g.if_row expr_limits (g.block_within expr_limits blocks forks) line).reads tokens.old) result tokens.new }
{
    let cond = expr(alloc, tokens)?;
    let taken = block(alloc, tokens, blocks, forks)?;
    let other = else_block(alloc, tokens, blocks, forks)?;
    Ok(TestStmt::If {
        line,
        cond,
        taken,
        other,
    })
}

#[cycle(stmt)]
#[tactic(auto, unfolding(tl_ast::specs::TestGrammar::while_row, text_grammar::specs::Part::both))]
fn while_row(
    alloc: Global,
    tokens: &mut Tokens<'_>,
    blocks: usize,
    forks: usize,
    line: u32,
) -> Result<TestStmt, ReadError>
    ensures { Reads ((g.while_row expr_limits (g.block_within expr_limits blocks forks) line).reads tokens.old) result tokens.new }
{
    let cond = expr(alloc, tokens)?;
    let body = block(alloc, tokens, blocks, forks)?;
    Ok(TestStmt::While { line, cond, body })
}

#[cycle(stmt)]
#[tactic(auto, unfolding(tl_ast::specs::TestGrammar::repeat_row, text_grammar::specs::Part::both))]
fn repeat_row(
    alloc: Global,
    tokens: &mut Tokens<'_>,
    blocks: usize,
    forks: usize,
    line: u32,
) -> Result<TestStmt, ReadError>
    ensures { Reads ((g.repeat_row expr_limits (g.block_within expr_limits blocks forks) line).reads tokens.old) result tokens.new }
{
    let count = expr(alloc, tokens)?;
    let body = block(alloc, tokens, blocks, forks)?;
    Ok(TestStmt::Repeat { line, count, body })
}

/// The block of a fork, where so many forks may be nested, this one included.
#[cycle(stmt)]
#[tactic(auto, unfolding(tl_ast::specs::TestGrammar::fork_block, text_grammar::specs::Part::stop))]
fn fork_block(
    alloc: Global,
    tokens: &mut Tokens<'_>,
    blocks: usize,
    forks: usize,
) -> Result<Items<TestStmt>, ReadError>
    ensures { Reads ((g.fork_block (g.block_within expr_limits blocks) forks).reads tokens.old) result tokens.new }
{
    if forks == 0 {
        return Err(ReadError::At(Kind::TooDeep, tokens.left()));
    }
    block(alloc, tokens, blocks, forks - 1)
}

#[cycle(stmt)]
#[tactic(auto, unfolding(tl_ast::specs::TestGrammar::forked, text_grammar::specs::Part::both, text_grammar::specs::Part::nothing))]
fn forked(
    alloc: Global,
    tokens: &mut Tokens<'_>,
    blocks: usize,
    forks: usize,
    line: u32,
    region: Option<Region>,
    handle: Name,
) -> Result<TestStmt, ReadError>
    ensures { Reads ((g.forked (g.fork_block (g.block_within expr_limits blocks) forks) line region handle).reads tokens.old) result tokens.new }
{
    let body = fork_block(alloc, tokens, blocks, forks)?;
    Ok(TestStmt::Fork {
        line,
        region,
        handle,
        body,
    })
}

/// A fork behind its first word, which may name a region.
#[cycle(stmt)]
#[tactic(auto, unfolding(tl_ast::specs::TestGrammar::fork_in, text_grammar::specs::Part::either, text_grammar::specs::Part::after))]
fn fork_in(
    alloc: Global,
    tokens: &mut Tokens<'_>,
    blocks: usize,
    forks: usize,
    line: u32,
    word: Name,
) -> Result<TestStmt, ReadError>
    ensures { Reads ((g.fork_in (g.fork_block (g.block_within expr_limits blocks) forks) line (g.region_named word) word).reads tokens.old) result tokens.new }
{
    match region_named(&word) {
        Some(region) => {
            if tokens.sees_name() {
                let handle = tokens.name(alloc)?;
                return forked(alloc, tokens, blocks, forks, line, Some(region), handle);
            }
            forked(alloc, tokens, blocks, forks, line, None, word)
        }
        None => forked(alloc, tokens, blocks, forks, line, None, word),
    }
}

#[cycle(stmt)]
#[tactic(auto, unfolding(tl_ast::specs::TestGrammar::fork_row, text_grammar::specs::Part::after))]
fn fork_row(
    alloc: Global,
    tokens: &mut Tokens<'_>,
    blocks: usize,
    forks: usize,
    line: u32,
) -> Result<TestStmt, ReadError>
    ensures { Reads ((g.fork_row (g.fork_block (g.block_within expr_limits blocks) forks) line).reads tokens.old) result tokens.new }
{
    let word = tokens.name(alloc)?;
    fork_in(alloc, tokens, blocks, forks, line, word)
}

/// A statement behind its first word.
#[cycle(stmt)]
#[tactic(auto, unfolding(tl_ast::specs::TestGrammar::row))]
fn row(
    alloc: Global,
    tokens: &mut Tokens<'_>,
    blocks: usize,
    forks: usize,
    line: u32,
    word: StmtWord,
) -> Result<TestStmt, ReadError>
    ensures { Reads ((g.row expr_limits (g.block_within expr_limits blocks forks) (g.fork_block (g.block_within expr_limits blocks) forks) line word).reads tokens.old) result tokens.new }
{
    match word {
        StmtWord::Poke => poke(alloc, tokens, line),
        StmtWord::Peek => peek(alloc, tokens, line),
        StmtWord::Expect => expect(alloc, tokens, line),
        StmtWord::Step => step(tokens, line),
        StmtWord::Let => let_row(alloc, tokens, line),
        StmtWord::Set => set_row(alloc, tokens, line),
        StmtWord::If => if_row(alloc, tokens, blocks, forks, line),
        StmtWord::While => while_row(alloc, tokens, blocks, forks, line),
        StmtWord::Repeat => repeat_row(alloc, tokens, blocks, forks, line),
        StmtWord::Fork => fork_row(alloc, tokens, blocks, forks, line),
        StmtWord::Join => join(alloc, tokens, line),
        StmtWord::JoinStep => join_step(alloc, tokens, line),
        StmtWord::Reset => reset(tokens, line),
        StmtWord::Driver(kind) => driver(alloc, tokens, line, kind),
    }
}

// ---- statements and blocks

#[cycle(stmt)]
#[tactic(auto, unfolding(tl_ast::specs::TestGrammar::stmt_in, text_grammar::specs::Part::after))]
fn stmt(
    alloc: Global,
    tokens: &mut Tokens<'_>,
    blocks: usize,
    forks: usize,
) -> Result<TestStmt, ReadError>
    ensures { Reads ((g.stmt_in expr_limits (g.block_within expr_limits blocks) forks).reads tokens.old) result tokens.new }
{
    let (line, word) = first_word(tokens, forks)?;
    row(alloc, tokens, blocks, forks, line, word)
}

/// Any number of statements.
#[cycle(stmt)]
fn stmts(
    alloc: Global,
    tokens: &mut Tokens<'_>,
    blocks: usize,
    forks: usize,
) -> Result<Items<TestStmt>, ReadError>
    ensures { Reads ((g.stmts_in expr_limits (g.block_within expr_limits blocks) forks).reads tokens.old) result tokens.new }
{
    let mut found = Items::new(alloc);
    for _turn in 0..tokens.left() {
        if !sees_stmt(tokens) {
            return Ok(found);
        }
        let next = match stmt(alloc, tokens, blocks, forks) {
            Ok(next) => next,
            Err(e) => return Err(e),
        };
        found.push(next)?;
    }
    Ok(found)
}

/// Why there is no block here, where none may stand.
#[tactic(auto, using(crate::proofs::Words::brace_too_deep, crate::proofs::Words::brace_refused))]
fn no_brace(tokens: &Tokens<'_>) -> ReadError
    ensures { Fails (g.no_brace.reads tokens.now) result }
{
    if tokens.sees(Symbol::OpenBrace) {
        return ReadError::At(Kind::TooDeep, tokens.left());
    }
    tokens.refuse()
}

/// `{`, statements, `}`, where so many blocks may be nested, this one included.
#[cycle(stmt)]
#[tactic(auto, unfolding(tl_ast::specs::TestGrammar::block_within, text_grammar::specs::Part::both), using(crate::proofs::Words::block_none))]
fn block(
    alloc: Global,
    tokens: &mut Tokens<'_>,
    blocks: usize,
    forks: usize,
) -> Result<Items<TestStmt>, ReadError>
    ensures { Reads ((g.block_within expr_limits blocks forks).reads tokens.old) result tokens.new }
{
    if blocks == 0 {
        return Err(no_brace(tokens));
    }
    tokens.mark(Symbol::OpenBrace)?;
    let body = stmts(alloc, tokens, blocks - 1, forks)?;
    tokens.mark(Symbol::CloseBrace)?;
    Ok(body)
}

// ---- whole tests

/// The statements of a test.
fn body(alloc: Global, tokens: &mut Tokens<'_>) -> Result<Seq<TestStmt>, ReadError>
    ensures { Reads ((g.stmts_in expr_limits (g.block_within expr_limits 32) 8).reads tokens.old) result tokens.new }
{
    let mut found = Vec::new(alloc);
    for _turn in 0..tokens.left() {
        if !sees_stmt(tokens) {
            return Ok(Seq::of(found));
        }
        let next = match stmt(alloc, tokens, MOST_BLOCKS, MOST_FORKS) {
            Ok(next) => next,
            Err(e) => return Err(e),
        };
        found.push(next)?;
    }
    Ok(Seq::of(found))
}

#[tactic(auto, unfolding(tl_ast::specs::TestGrammar::test_within, text_grammar::specs::Part::both, text_grammar::specs::Part::nothing))]
fn test(alloc: Global, tokens: &mut Tokens<'_>) -> Result<TestText, ReadError>
    ensures { Reads (g.test.reads tokens.old) result tokens.new }
{
    let body = body(alloc, tokens)?;
    Ok(TestText { body })
}

/// A test, and nothing behind it.
#[tactic(auto, using(text_grammar::proofs::Reading::whole_taken, text_grammar::proofs::Reading::whole_rest, text_grammar::proofs::Reading::whole_fails))]
pub(crate) fn whole_test(alloc: Global, tokens: &mut Tokens<'_>) -> Result<TestText, ReadError>
    ensures { Reads ((whole g.test).reads tokens.old) result tokens.new }
{
    let test = test(alloc, tokens)?;
    if tokens.left() > 0 {
        return Err(tokens.refuse());
    }
    Ok(test)
}
