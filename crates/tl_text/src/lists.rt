//! A port with a list of expressions behind it: each bracket that `.` or `[` follows is an index, and the last one is the list.

ghost use Rattle.std.specs.Prelude.{◌≡◌, ◌<◌, ◌&&◌, length, drop};
ghost use Rattle.text_grammar.specs.Part.{Reads, carried, cons, starts};
ghost use Rattle.tl_ast.specs.ExprGrammar.{expr_limits};
ghost use Rattle.tl_ast.specs.TestGrammar as g;

use crate::exprs::{expr, expr_from_number, other_expr};
use crate::ports::{fields, sees_suffix, with_index};
use std::alloc::Global;
use tb_base::{Name, Seq};
use text_grammar::{ReadError, Symbol, Tokens};
use tl_ast::{Listed, TestExpr};

/// A comma and an expression.
#[tactic(auto, unfolding(tl_ast::specs::TestGrammar::further, text_grammar::specs::Part::both))]
fn further(alloc: Global, tokens: &mut Tokens<'_>) -> Result<TestExpr, ReadError>
    ensures { Reads ((g.further expr_limits).reads tokens.old) result tokens.new }
{
    tokens.mark(Symbol::Comma)?;
    let value = expr(alloc, tokens)?;
    Ok(value)
}

/// The first expression, and any number of further ones.
fn furthers(
    alloc: Global,
    tokens: &mut Tokens<'_>,
    first: TestExpr,
) -> Result<Seq<TestExpr>, ReadError>
    ensures { Reads (carried cons first ((g.furthers expr_limits).reads tokens.old)) result tokens.new }
{
    let mut found = Vec::new(alloc);
    found.push(first)?;
    for _turn in 0..tokens.left() {
        if !tokens.sees(Symbol::Comma) {
            return Ok(Seq::of(found));
        }
        let next = match further(alloc, tokens) {
            Ok(next) => next,
            Err(e) => return Err(e),
        };
        found.push(next)?;
    }
    Ok(Seq::of(found))
}

/// The number, where it has no operator and nothing follows it.
fn alone_if(is_alone: bool, number: u128, values: &Seq<TestExpr>) -> Option<u128>
    requires { 0 < length values.now }
    ensures { result ≡ g.alone_if is_alone number (drop 1 values.now) }
{
    match values.items() {
        [_] if is_alone => Some(number),
        _ => None,
    }
}

/// A list that begins with a number, behind it.
#[tactic(auto, unfolding(tl_ast::specs::TestGrammar::numbered_values, text_grammar::specs::Part::both))]
fn numbered_values(
    alloc: Global,
    tokens: &mut Tokens<'_>,
    name: Name,
    number: u128,
) -> Result<Listed, ReadError>
    ensures { Reads ((g.numbered_values expr_limits name number).reads tokens.old) result tokens.new }
{
    let (first, operators) = expr_from_number(alloc, tokens, number)?;
    let values = furthers(alloc, tokens, first)?;
    tokens.mark(Symbol::CloseBracket)?;
    let alone = alone_if(operators == 0, number, &values);
    Ok(Listed {
        name,
        values,
        alone,
    })
}

/// A list that begins with no number.
#[tactic(auto, unfolding(tl_ast::specs::TestGrammar::other_values, text_grammar::specs::Part::both))]
fn other_values(alloc: Global, tokens: &mut Tokens<'_>, name: Name) -> Result<Listed, ReadError>
    ensures { Reads ((g.other_values expr_limits name).reads tokens.old) result tokens.new }
{
    let first = other_expr(alloc, tokens)?;
    let values = furthers(alloc, tokens, first)?;
    tokens.mark(Symbol::CloseBracket)?;
    Ok(Listed {
        name,
        values,
        alone: None,
    })
}

/// An empty list.
#[tactic(auto, unfolding(tl_ast::specs::TestGrammar::no_values, text_grammar::specs::Part::both, text_grammar::specs::Part::nothing))]
fn no_values(alloc: Global, tokens: &mut Tokens<'_>, name: Name) -> Result<Listed, ReadError>
    ensures { Reads ((g.no_values name).reads tokens.old) result tokens.new }
{
    tokens.mark(Symbol::CloseBracket)?;
    Ok(Listed {
        name,
        values: Seq::of(Vec::new(alloc)),
        alone: None,
    })
}

/// A list behind its `[`.
#[tactic(auto, unfolding(tl_ast::specs::TestGrammar::values, text_grammar::specs::Part::either, text_grammar::specs::Part::after))]
fn values(alloc: Global, tokens: &mut Tokens<'_>, name: Name) -> Result<Listed, ReadError>
    ensures { Reads ((g.values expr_limits name).reads tokens.old) result tokens.new }
{
    if tokens.sees(Symbol::CloseBracket) {
        return no_values(alloc, tokens, name);
    }
    if tokens.sees_number() {
        let number = tokens.number()?;
        return numbered_values(alloc, tokens, name, number);
    }
    other_values(alloc, tokens, name)
}

#[tactic(auto, unfolding(tl_ast::specs::TestGrammar::bracket, text_grammar::specs::Part::both))]
fn bracket(alloc: Global, tokens: &mut Tokens<'_>, name: Name) -> Result<Listed, ReadError>
    ensures { Reads ((g.bracket expr_limits name).reads tokens.old) result tokens.new }
{
    tokens.mark(Symbol::OpenBracket)?;
    let listed = values(alloc, tokens, name)?;
    Ok(listed)
}

/// Any number of `.w`, and a bracket.
#[tactic(auto, unfolding(tl_ast::specs::TestGrammar::listed_from, text_grammar::specs::Part::after))]
fn listed_from(alloc: Global, tokens: &mut Tokens<'_>, name: Name) -> Result<Listed, ReadError>
    ensures { Reads ((g.listed_from expr_limits name).reads tokens.old) result tokens.new }
{
    let longer = fields(alloc, tokens, name)?;
    bracket(alloc, tokens, longer)
}

/// Takes what was a list for an index, and reads on to the next bracket.
#[tactic(auto, unfolding(tl_ast::specs::TestGrammar::listed_further))]
fn listed_further(
    alloc: Global,
    tokens: &mut Tokens<'_>,
    listed: Listed,
) -> Result<Listed, ReadError>
    ensures { Reads ((g.listed_further expr_limits listed).reads tokens.old) result tokens.new }
{
    let Listed { name, alone, .. } = listed;
    let name = with_index(alloc, name, alone)?;
    listed_from(alloc, tokens, name)
}

/// Whether what was a list is an index.
fn goes_on(tokens: &Tokens<'_>, listed: &Listed) -> bool
    ensures { result ≡ (g.may_be_index listed.now && starts g.is_suffix tokens.now) }
{
    listed.alone.is_some() && sees_suffix(tokens)
}

/// Reads on as long as what was a list is an index.
fn listed_behind(alloc: Global, tokens: &mut Tokens<'_>, first: Listed) -> Result<Listed, ReadError>
    ensures { Reads ((g.listed_behind expr_limits first).reads tokens.old) result tokens.new }
{
    let mut listed = first;
    for _turn in 0..tokens.left() {
        if !goes_on(tokens, &listed) {
            return Ok(listed);
        }
        listed = match listed_further(alloc, tokens, listed) {
            Ok(next) => next,
            Err(e) => return Err(e),
        };
    }
    Ok(listed)
}

/// A port with a list of expressions behind it. The time is linear in the number of its items and the length of its names.
#[tactic(auto, unfolding(tl_ast::specs::TestGrammar::listed, text_grammar::specs::Part::after))]
pub(crate) fn listed(alloc: Global, tokens: &mut Tokens<'_>) -> Result<Listed, ReadError>
    ensures { Reads ((g.listed expr_limits).reads tokens.old) result tokens.new }
{
    let word = tokens.name(alloc)?;
    let first = listed_from(alloc, tokens, word)?;
    listed_behind(alloc, tokens, first)
}
