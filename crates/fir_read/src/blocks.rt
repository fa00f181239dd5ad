//! Blocks of statements: `when` and `else`, by the columns of their lines.
//!
//! Each function takes how many blocks may still be nested here, and the column of the line that it reads or of the head that
//! it stands below. Where a `when` is too deep shows behind its first word; its line is refused at that word.

ghost use Rattle.std.specs.Prelude.{◌≡◌};
ghost use Rattle.text_grammar.specs.Part.{Reads, carried, many, starts};
ghost use Rattle.fir_ast.specs.Limits.{limits};
ghost use Rattle.fir_ast.specs.ExprGrammar as x;
ghost use Rattle.fir_ast.specs.RowGrammar as r;
ghost use Rattle.fir_ast.specs.Lines as n;
ghost use Rattle.fir_ast.specs.CircuitGrammar as g;
ghost use Rattle.fir_ast.specs.CircuitGrammar.{nested_within};
ghost use Rattle.fir_ast.specs.declared.tree.Expr.TheVariants as e;

use crate::words::{
    add_rows, at_head, begins_else, begins_row, else_word, first_word, is, joined, opens,
};
use fir_ast::{Expr, Stmt};
use fir_expr::{expr, expr_from, reference_from};
use fir_rows::{invalidated, row_from, sink_marked, sink_row};
use sqlite_items::Items;
use std::alloc::Global;
use tb_base::{Name, Seq};
use text_grammar::{Form, Kind, ReadError, Symbol, Tokens};

/// A row of a sink called `else`.
#[tactic(auto, unfolding(fir_ast::specs::CircuitGrammar::else_row, text_grammar::specs::Part::after))]
pub fn else_row(alloc: Global, tokens: &mut Tokens<'_>, column: u32) -> Result<Stmt, ReadError>
    ensures { Reads ((g.else_row limits column).reads tokens.old) result tokens.new }
{
    let (line, word) = else_word(alloc, tokens, column)?;
    sink_row(alloc, tokens, line, word)
}

/// The rows of a sink called `else` that follow.
pub fn else_rows(
    alloc: Global,
    tokens: &mut Tokens<'_>,
    column: u32,
) -> Result<Seq<Stmt>, ReadError>
    ensures { Reads ((g.else_rows limits column).reads tokens.old) result tokens.new }
{
    let mut found = Vec::new(alloc);
    for _turn in 0..tokens.left() {
        if !begins_else(tokens, column) {
            return Ok(Seq::of(found));
        }
        let row = match else_row(alloc, tokens, column) {
            Ok(row) => row,
            Err(e) => return Err(e),
        };
        found.push(row)?;
    }
    Ok(Seq::of(found))
}

/// `invalid` behind the words `w is`, and what is read with that row.
#[tactic(auto, unfolding(fir_ast::specs::CircuitGrammar::and_else_rows, text_grammar::specs::Part::both))]
pub fn invalid_row(
    alloc: Global,
    tokens: &mut Tokens<'_>,
    column: u32,
    line: u32,
    word: Name,
) -> Result<(Stmt, Seq<Stmt>), ReadError>
    ensures { Reads ((g.and_else_rows limits column (r.invalidated line (e.Ident word))).reads tokens.old) result tokens.new }
{
    let row = invalidated(tokens, line, Expr::Ident(word))?;
    let more = else_rows(alloc, tokens, column)?;
    Ok((row, more))
}

/// A row of a sink called so, but for `w is invalid`, and what is read with it.
#[tactic(auto, unfolding(fir_ast::specs::CircuitGrammar::and_else_rows, text_grammar::specs::Part::both))]
pub fn marked_row(
    alloc: Global,
    tokens: &mut Tokens<'_>,
    column: u32,
    line: u32,
    word: Name,
) -> Result<(Stmt, Seq<Stmt>), ReadError>
    ensures { Reads ((g.and_else_rows limits column (r.sink_marked limits line word)).reads tokens.old) result tokens.new }
{
    let row = sink_marked(alloc, tokens, line, word)?;
    let more = else_rows(alloc, tokens, column)?;
    Ok((row, more))
}

/// A statement but `when`, after its first word, and what is read with it.
#[tactic(auto, unfolding(fir_ast::specs::CircuitGrammar::and_else_rows, text_grammar::specs::Part::both))]
fn plain_row(
    alloc: Global,
    tokens: &mut Tokens<'_>,
    column: u32,
    line: u32,
    word: Name,
) -> Result<(Stmt, Seq<Stmt>), ReadError>
    ensures { Reads ((g.and_else_rows limits column (r.row_from limits column line word)).reads tokens.old) result tokens.new }
{
    let row = row_from(alloc, tokens, column, line, word)?;
    let more = else_rows(alloc, tokens, column)?;
    Ok((row, more))
}

/// The rows of a sink called `else` at the head of a block.
#[tactic(auto, unfolding(fir_ast::specs::CircuitGrammar::and_else_rows, text_grammar::specs::Part::both))]
pub fn first_else_rows(
    alloc: Global,
    tokens: &mut Tokens<'_>,
    column: u32,
) -> Result<(Stmt, Seq<Stmt>), ReadError>
    ensures { Reads ((g.and_else_rows limits column (g.else_row limits column)).reads tokens.old) result tokens.new }
{
    let row = else_row(alloc, tokens, column)?;
    let more = else_rows(alloc, tokens, column)?;
    Ok((row, more))
}

/// A row of a sink called `else` behind a `when` that has no branch.
#[tactic(auto, unfolding(fir_ast::specs::CircuitGrammar::else_sink, text_grammar::specs::Part::both))]
fn else_sink(
    alloc: Global,
    tokens: &mut Tokens<'_>,
    column: u32,
    line: u32,
    word: Name,
) -> Result<(Items<Stmt>, Seq<Stmt>), ReadError>
    ensures { Reads ((g.else_sink limits column line word).reads tokens.old) result tokens.new }
{
    let row = sink_row(alloc, tokens, line, word)?;
    let more = else_rows(alloc, tokens, column)?;
    let more = joined(alloc, row, more)?;
    Ok((Items::new(alloc), more))
}

/// No item, where `<-` doesn't follow: that is a connection of another kind.
#[tactic(auto, unfolding(fir_ast::specs::CircuitGrammar::no_connect, text_grammar::specs::Part::unless))]
fn no_other_connect(tokens: &Tokens<'_>) -> Result<(), ReadError>
    ensures { Reads (g.no_connect.reads tokens.now) result tokens.now }
{
    if tokens.sees(Symbol::LeftArrow) {
        return Err(ReadError::At(Kind::Unsupported(Form::Connect), tokens.left()));
    }
    Ok(())
}

/// Whether a condition goes on here with its first name `is`.
#[tactic(auto, using(crate::proofs::LineReading::three_start))]
fn goes_on_is(tokens: &Tokens<'_>) -> bool
    ensures { result ≡ starts g.goes_on_is tokens.now }
{
    tokens.sees(Symbol::Dot) || tokens.sees(Symbol::OpenBracket) || tokens.sees(Symbol::Colon)
}

/// A `when` from its condition on, whose first word was taken.
#[cycle(blocks)]
#[tactic(auto, unfolding(fir_ast::specs::CircuitGrammar::nested_within, fir_ast::specs::CircuitGrammar::opened, text_grammar::specs::Part::both, text_grammar::specs::Part::stop))]
fn when_word(
    alloc: Global,
    tokens: &mut Tokens<'_>,
    depth: usize,
    column: u32,
    line: u32,
    word: Name,
) -> Result<(Stmt, Seq<Stmt>), ReadError>
    ensures { Reads ((nested_within limits depth column line (x.expr_from limits word)).reads tokens.old) result tokens.new }
{
    if depth == 0 {
        return Err(ReadError::At(Kind::HeadTooDeep, tokens.left()));
    }
    let cond = expr_from(alloc, tokens, word)?;
    let (taken, (other, more)) = branches(alloc, tokens, depth - 1, column)?;
    Ok((
        Stmt::When {
            line,
            cond,
            taken,
            other,
        },
        more,
    ))
}

/// The same, where the first word of the condition is `is`.
#[cycle(blocks)]
#[tactic(auto, unfolding(fir_ast::specs::CircuitGrammar::nested_within, fir_ast::specs::CircuitGrammar::opened, text_grammar::specs::Part::both, text_grammar::specs::Part::stop))]
fn when_reference(
    alloc: Global,
    tokens: &mut Tokens<'_>,
    depth: usize,
    column: u32,
    line: u32,
    word: Name,
) -> Result<(Stmt, Seq<Stmt>), ReadError>
    ensures { Reads ((nested_within limits depth column line (x.reference_from limits word)).reads tokens.old) result tokens.new }
{
    if depth == 0 {
        return Err(ReadError::At(Kind::HeadTooDeep, tokens.left()));
    }
    let cond = reference_from(alloc, tokens, word)?;
    let (taken, (other, more)) = branches(alloc, tokens, depth - 1, column)?;
    Ok((
        Stmt::When {
            line,
            cond,
            taken,
            other,
        },
        more,
    ))
}

/// The same with any condition, behind `else when`.
#[cycle(blocks)]
#[tactic(auto, unfolding(fir_ast::specs::CircuitGrammar::nested_within, fir_ast::specs::CircuitGrammar::opened, text_grammar::specs::Part::both, text_grammar::specs::Part::stop))]
fn when_any(
    alloc: Global,
    tokens: &mut Tokens<'_>,
    depth: usize,
    column: u32,
    line: u32,
) -> Result<(Stmt, Seq<Stmt>), ReadError>
    ensures { Reads ((nested_within limits depth column line (x.expr limits)).reads tokens.old) result tokens.new }
{
    if depth == 0 {
        return Err(ReadError::At(Kind::HeadTooDeep, tokens.left()));
    }
    let cond = expr(alloc, tokens)?;
    let (taken, (other, more)) = branches(alloc, tokens, depth - 1, column)?;
    Ok((
        Stmt::When {
            line,
            cond,
            taken,
            other,
        },
        more,
    ))
}

/// After `when is`: a condition that begins with the name `is`, or `invalid`.
#[cycle(blocks)]
#[tactic(auto, unfolding(fir_ast::specs::CircuitGrammar::when_is, text_grammar::specs::Part::both, text_grammar::specs::Part::either))]
fn when_is(
    alloc: Global,
    tokens: &mut Tokens<'_>,
    depth: usize,
    column: u32,
    line: u32,
    word: Name,
    name: Name,
) -> Result<(Stmt, Seq<Stmt>), ReadError>
    ensures { Reads ((g.when_is limits (nested_within limits depth) column line word name).reads tokens.old) result tokens.new }
{
    no_other_connect(tokens)?;
    if goes_on_is(tokens) {
        return when_reference(alloc, tokens, depth, column, line, name);
    }
    invalid_row(alloc, tokens, column, line, word)
}

/// After the word `when` and another.
#[cycle(blocks)]
#[tactic(auto, unfolding(fir_ast::specs::CircuitGrammar::when_named))]
fn when_named(
    alloc: Global,
    tokens: &mut Tokens<'_>,
    depth: usize,
    column: u32,
    line: u32,
    word: Name,
    name: Name,
) -> Result<(Stmt, Seq<Stmt>), ReadError>
    ensures { Reads ((g.when_named limits (nested_within limits depth) column line word name).reads tokens.old) result tokens.new }
{
    if is(&name, b"is") {
        return when_is(alloc, tokens, depth, column, line, word, name);
    }
    when_word(alloc, tokens, depth, column, line, name)
}

/// After the word `when`, which may be a sink's name.
#[cycle(blocks)]
#[tactic(auto, unfolding(fir_ast::specs::CircuitGrammar::when_from, text_grammar::specs::Part::either, text_grammar::specs::Part::after))]
fn when_from(
    alloc: Global,
    tokens: &mut Tokens<'_>,
    depth: usize,
    column: u32,
    line: u32,
    word: Name,
) -> Result<(Stmt, Seq<Stmt>), ReadError>
    ensures { Reads ((g.when_from limits (nested_within limits depth) column line word).reads tokens.old) result tokens.new }
{
    if tokens.sees_name() {
        let name = tokens.name(alloc)?;
        return when_named(alloc, tokens, depth, column, line, word, name);
    }
    marked_row(alloc, tokens, column, line, word)
}

/// A statement after its first word, and what is read with it.
#[cycle(blocks)]
#[tactic(auto, unfolding(fir_ast::specs::CircuitGrammar::statement))]
pub fn statement(
    alloc: Global,
    tokens: &mut Tokens<'_>,
    depth: usize,
    column: u32,
    line: u32,
    word: Name,
) -> Result<(Stmt, Seq<Stmt>), ReadError>
    ensures { Reads ((g.statement limits (nested_within limits depth) column line word).reads tokens.old) result tokens.new }
{
    if is(&word, b"when") {
        return when_from(alloc, tokens, depth, column, line, word);
    }
    plain_row(alloc, tokens, column, line, word)
}

/// A statement from its first word on.
#[cycle(blocks)]
#[tactic(auto, unfolding(fir_ast::specs::CircuitGrammar::headed, text_grammar::specs::Part::after))]
fn headed(
    alloc: Global,
    tokens: &mut Tokens<'_>,
    depth: usize,
    column: u32,
) -> Result<(Stmt, Seq<Stmt>), ReadError>
    ensures { Reads ((g.headed limits (nested_within limits depth) column).reads tokens.old) result tokens.new }
{
    let (line, word) = first_word(alloc, tokens, column)?;
    statement(alloc, tokens, depth, column, line, word)
}

/// A statement at this column; one that is too deep is refused at its first word.
#[cycle(blocks)]
#[tactic(auto, using(crate::proofs::LineReading::head_read, crate::proofs::LineReading::head_fails), unfolding(fir_ast::specs::CircuitGrammar::row))]
fn row(
    alloc: Global,
    tokens: &mut Tokens<'_>,
    depth: usize,
    column: u32,
) -> Result<(Stmt, Seq<Stmt>), ReadError>
    ensures { Reads ((g.row limits (nested_within limits depth) column).reads tokens.old) result tokens.new }
{
    let left = tokens.left();
    match headed(alloc, tokens, depth, column) {
        Ok(row) => Ok(row),
        Err(e) => Err(at_head(e, left)),
    }
}

/// The first statement of a block, and what is read with it.
#[cycle(blocks)]
#[tactic(auto, unfolding(fir_ast::specs::CircuitGrammar::first_row, text_grammar::specs::Part::either))]
fn first_row(
    alloc: Global,
    tokens: &mut Tokens<'_>,
    depth: usize,
    column: u32,
) -> Result<(Stmt, Seq<Stmt>), ReadError>
    ensures { Reads ((g.first_row limits (nested_within limits depth) column).reads tokens.old) result tokens.new }
{
    if begins_else(tokens, column) {
        return first_else_rows(alloc, tokens, column);
    }
    row(alloc, tokens, depth, column)
}

/// The statements that follow the first of a block.
#[cycle(blocks)]
fn more_rows(
    alloc: Global,
    tokens: &mut Tokens<'_>,
    depth: usize,
    column: u32,
    first: (Stmt, Seq<Stmt>),
) -> Result<Items<Stmt>, ReadError>
    ensures { Reads (carried g.rows_with first ((many (n.is_line column) (g.row limits (nested_within limits depth) column)).reads tokens.old)) result tokens.new }
{
    let mut found = Vec::new(alloc);
    add_rows(&mut found, first)?;
    for _turn in 0..tokens.left() {
        if !begins_row(tokens, column) {
            return Ok(Items::from_vec(found));
        }
        let next = match row(alloc, tokens, depth, column) {
            Ok(next) => next,
            Err(e) => return Err(e),
        };
        add_rows(&mut found, next)?;
    }
    Ok(Items::from_vec(found))
}

/// The statements of a block, at the column that the first of them sets.
#[cycle(blocks)]
#[tactic(auto, unfolding(fir_ast::specs::CircuitGrammar::rows, text_grammar::specs::Part::both))]
fn rows(
    alloc: Global,
    tokens: &mut Tokens<'_>,
    depth: usize,
    column: u32,
) -> Result<Items<Stmt>, ReadError>
    ensures { Reads ((g.rows limits (nested_within limits depth) column).reads tokens.old) result tokens.new }
{
    let first = first_row(alloc, tokens, depth, column)?;
    more_rows(alloc, tokens, depth, column, first)
}

/// A block of at least one statement, deeper than the head at this column.
#[cycle(blocks)]
#[tactic(auto, unfolding(fir_ast::specs::CircuitGrammar::block, fir_ast::specs::Lines::indented))]
fn block(
    alloc: Global,
    tokens: &mut Tokens<'_>,
    depth: usize,
    column: u32,
) -> Result<Items<Stmt>, ReadError>
    ensures { Reads ((g.block limits (nested_within limits depth) column).reads tokens.old) result tokens.new }
{
    if tokens.is_deeper(column) {
        let inner = tokens.column();
        return rows(alloc, tokens, depth, inner);
    }
    Err(tokens.refuse())
}

/// `:`, the line's end, and such a block.
#[cycle(blocks)]
#[tactic(auto, unfolding(fir_ast::specs::CircuitGrammar::opened_block, text_grammar::specs::Part::both))]
fn opened_block(
    alloc: Global,
    tokens: &mut Tokens<'_>,
    depth: usize,
    column: u32,
) -> Result<Items<Stmt>, ReadError>
    ensures { Reads ((g.opened_block limits (nested_within limits depth) column).reads tokens.old) result tokens.new }
{
    opens(tokens)?;
    block(alloc, tokens, depth, column)
}

/// Both branches of a `when`, and the rows of a sink called `else` behind them.
#[cycle(blocks)]
#[tactic(auto, unfolding(fir_ast::specs::CircuitGrammar::branches, text_grammar::specs::Part::both))]
fn branches(
    alloc: Global,
    tokens: &mut Tokens<'_>,
    depth: usize,
    column: u32,
) -> Result<(Items<Stmt>, (Items<Stmt>, Seq<Stmt>)), ReadError>
    ensures { Reads ((g.branches limits (nested_within limits depth) column).reads tokens.old) result tokens.new }
{
    let taken = opened_block(alloc, tokens, depth, column)?;
    let branch = branch(alloc, tokens, depth, column)?;
    Ok((taken, branch))
}

/// The branch of an `else`, if there is one.
#[cycle(blocks)]
#[tactic(auto, unfolding(fir_ast::specs::CircuitGrammar::branch, text_grammar::specs::Part::either, text_grammar::specs::Part::nothing))]
fn branch(
    alloc: Global,
    tokens: &mut Tokens<'_>,
    depth: usize,
    column: u32,
) -> Result<(Items<Stmt>, Seq<Stmt>), ReadError>
    ensures { Reads ((g.branch limits (nested_within limits depth) column).reads tokens.old) result tokens.new }
{
    if begins_else(tokens, column) {
        return else_line(alloc, tokens, depth, column);
    }
    Ok((Items::new(alloc), Seq::of(Vec::new(alloc))))
}

/// A line that begins with `else`; one that is too deep is refused at that word.
#[cycle(blocks)]
#[tactic(auto, using(crate::proofs::LineReading::head_read, crate::proofs::LineReading::head_fails), unfolding(fir_ast::specs::CircuitGrammar::else_line))]
fn else_line(
    alloc: Global,
    tokens: &mut Tokens<'_>,
    depth: usize,
    column: u32,
) -> Result<(Items<Stmt>, Seq<Stmt>), ReadError>
    ensures { Reads ((g.else_line limits (nested_within limits depth) column).reads tokens.old) result tokens.new }
{
    let left = tokens.left();
    match else_headed(alloc, tokens, depth, column) {
        Ok(branch) => Ok(branch),
        Err(e) => Err(at_head(e, left)),
    }
}

#[cycle(blocks)]
#[tactic(auto, unfolding(fir_ast::specs::CircuitGrammar::else_headed, text_grammar::specs::Part::after))]
fn else_headed(
    alloc: Global,
    tokens: &mut Tokens<'_>,
    depth: usize,
    column: u32,
) -> Result<(Items<Stmt>, Seq<Stmt>), ReadError>
    ensures { Reads ((g.else_headed limits (nested_within limits depth) column).reads tokens.old) result tokens.new }
{
    let (line, word) = else_word(alloc, tokens, column)?;
    else_from(alloc, tokens, depth, column, line, word)
}

/// After the first `else` behind the block of a `when`.
#[cycle(blocks)]
#[tactic(auto, unfolding(fir_ast::specs::CircuitGrammar::else_from, text_grammar::specs::Part::either))]
fn else_from(
    alloc: Global,
    tokens: &mut Tokens<'_>,
    depth: usize,
    column: u32,
    line: u32,
    word: Name,
) -> Result<(Items<Stmt>, Seq<Stmt>), ReadError>
    ensures { Reads ((g.else_from limits (nested_within limits depth) column line word).reads tokens.old) result tokens.new }
{
    if tokens.sees(Symbol::Colon) {
        return else_block(alloc, tokens, depth, column);
    }
    if tokens.sees_word(b"when") {
        return else_when(alloc, tokens, depth, column, line);
    }
    else_sink(alloc, tokens, column, line, word)
}

/// The block of an `else`.
#[cycle(blocks)]
#[tactic(auto, unfolding(fir_ast::specs::CircuitGrammar::else_block, text_grammar::specs::Part::both))]
fn else_block(
    alloc: Global,
    tokens: &mut Tokens<'_>,
    depth: usize,
    column: u32,
) -> Result<(Items<Stmt>, Seq<Stmt>), ReadError>
    ensures { Reads ((g.else_block limits (nested_within limits depth) column).reads tokens.old) result tokens.new }
{
    let other = opened_block(alloc, tokens, depth, column)?;
    let more = else_rows(alloc, tokens, column)?;
    Ok((other, more))
}

/// An `else` whose block is one `when`.
#[cycle(blocks)]
#[tactic(auto, unfolding(fir_ast::specs::CircuitGrammar::else_when, text_grammar::specs::Part::both))]
fn else_when(
    alloc: Global,
    tokens: &mut Tokens<'_>,
    depth: usize,
    column: u32,
    line: u32,
) -> Result<(Items<Stmt>, Seq<Stmt>), ReadError>
    ensures { Reads ((g.else_when limits (nested_within limits depth) column line).reads tokens.old) result tokens.new }
{
    tokens.keyword(b"when")?;
    let (row, more) = when_any(alloc, tokens, depth, column, line)?;
    let mut other = Items::new(alloc);
    other.push(row)?;
    Ok((other, more))
}
