//! Expressions, by recursive descent.
//!
//! The operators of an expression are counted from left to right. Each function is told how many stand in front of what it reads,
//! and answers how many there are with its own.

ghost use Rattle.std.specs.Prelude.{◌≡◌, ◌<◌, Some, IfOk};
ghost use Rattle.text_grammar.specs.Part.{Reads, starts};
ghost use Rattle.tl_ast.specs.declared.tree.TestExpr.TheVariants as v;
ghost use Rattle.tl_ast.specs.Limits.{always, grow, room as room_part};
ghost use Rattle.tl_ast.specs.ExprGrammar as g;
ghost use Rattle.tl_ast.specs.ExprGrammar.{expr_limits};

use sqlite_items::Boxed;
use std::alloc::{AllocError, Global};
use text_grammar::{Kind, ReadError, Symbol, Token, Tokens};
use tl_ast::{TestExpr, TestOp};

/// How many operators an expression may have.
const MOST_OPERATORS: usize = 64;

/// How many parentheses may be open at once.
const MOST_PARENS: usize = 32;

/// How loosely comparisons bind; all other operators are tighter.
const COMPARISON: usize = 6;

/// An expression, and how many operators there are up to its end.
pub(crate) type Counted = (TestExpr, usize);

// ---- operators

fn symbol_operator(symbol: Symbol) -> Option<TestOp>
    ensures { result ≡ g.symbol_operator symbol }
{
    match symbol {
        Symbol::Plus => Some(TestOp::Add),
        Symbol::Minus => Some(TestOp::Sub),
        Symbol::Star => Some(TestOp::Mul),
        Symbol::And => Some(TestOp::And),
        Symbol::Or => Some(TestOp::Or),
        Symbol::Xor => Some(TestOp::Xor),
        Symbol::ShiftLeft => Some(TestOp::Shl),
        Symbol::ShiftRight => Some(TestOp::Shr),
        Symbol::EqualEqual => Some(TestOp::Eq),
        Symbol::NotEqual => Some(TestOp::Neq),
        Symbol::Less => Some(TestOp::Lt),
        Symbol::LessEqual => Some(TestOp::Leq),
        Symbol::Greater => Some(TestOp::Gt),
        Symbol::GreaterEqual => Some(TestOp::Geq),
        _ => None,
    }
}

/// How loosely an operator binds: 0 is tightest.
fn looseness(op: TestOp) -> usize
    ensures { result ≡ g.looseness op }
{
    match op {
        TestOp::Mul => 0,
        TestOp::Add | TestOp::Sub => 1,
        TestOp::Shl | TestOp::Shr => 2,
        TestOp::And => 3,
        TestOp::Xor => 4,
        TestOp::Or => 5,
        _ => COMPARISON,
    }
}

/// The operator that a token is, if it binds so loosely.
fn token_operator(token: &Token, loose: usize) -> Option<TestOp>
    ensures { result ≡ g.token_operator loose token.now }
{
    match token {
        Token::Symbol(symbol) => match symbol_operator(*symbol) {
            Some(op) => {
                if looseness(op) == loose {
                    Some(op)
                } else {
                    None
                }
            }
            None => None,
        },
        _ => None,
    }
}

/// Whether an operator that binds so loosely stands here.
#[tactic(auto, using(crate::proofs::Peeking::starts_some, crate::proofs::Peeking::starts_none))]
fn sees_operator(tokens: &Tokens<'_>, loose: usize) -> bool
    ensures { result ≡ starts (g.is_operator loose) tokens.now }
{
    match tokens.peek() {
        Some(item) => token_operator(&item.token, loose).is_some(),
        None => false,
    }
}

/// Takes an operator that binds so loosely.
#[tactic(auto, using(crate::proofs::Peeking::operator_taken, crate::proofs::Peeking::operator_refused, crate::proofs::Peeking::operator_none))]
fn operator(tokens: &mut Tokens<'_>, loose: usize) -> Result<TestOp, ReadError>
    ensures { Reads ((g.operator loose).reads tokens.old) result tokens.new }
{
    match tokens.peek() {
        Some(item) => match token_operator(&item.token, loose) {
            Some(op) => {
                tokens.skip();
                Ok(op)
            }
            None => Err(tokens.refuse()),
        },
        None => Err(tokens.refuse()),
    }
}

/// Refuses an operator for which there is no room.
#[tactic(auto, unfolding(tl_ast::specs::Limits::room, text_grammar::specs::Part::stop, text_grammar::specs::Part::nothing), using(crate::proofs::Peeking::full_is, crate::proofs::Peeking::room_is))]
fn room(tokens: &Tokens<'_>, count: usize) -> Result<(), ReadError>
    ensures value { Reads ((room_part expr_limits.operators count).reads tokens.now) result tokens.now }
    ensures bound { IfOk result (λ _. count < 64) }
{
    if count < MOST_OPERATORS {
        Ok(())
    } else {
        Err(ReadError::At(Kind::TooDeep, tokens.left()))
    }
}

// ---- operands

fn neg_of(alloc: Global, of: TestExpr) -> Result<TestExpr, AllocError>
    ensures { IfOk result (λ e. e ≡ v.Neg of) }
{
    Ok(TestExpr::Neg(Boxed::new(alloc, of)?))
}

fn two_of(
    alloc: Global,
    op: TestOp,
    left: TestExpr,
    right: TestExpr,
) -> Result<TestExpr, AllocError>
    ensures { IfOk result (λ e. e ≡ v.Two op left right) }
{
    Ok(TestExpr::Two(op, Boxed::new(alloc, left)?, Boxed::new(alloc, right)?))
}

/// The expression, negated so often.
fn negated(alloc: Global, of: TestExpr, times: usize) -> Result<TestExpr, AllocError>
    ensures { IfOk result (λ e. e ≡ g.negated times of) }
{
    let mut grown = of;
    for _turn in 0..times {
        grown = neg_of(alloc, grown)?;
    }
    Ok(grown)
}

#[tactic(auto, unfolding(tl_ast::specs::ExprGrammar::literal, text_grammar::specs::Part::both, text_grammar::specs::Part::nothing))]
fn literal(tokens: &mut Tokens<'_>, count: usize) -> Result<Counted, ReadError>
    ensures { Reads ((g.literal count).reads tokens.old) result tokens.new }
{
    let number = tokens.number()?;
    Ok((TestExpr::Num(number), count))
}

#[tactic(auto, unfolding(tl_ast::specs::ExprGrammar::variable, text_grammar::specs::Part::both, text_grammar::specs::Part::nothing))]
fn variable(alloc: Global, tokens: &mut Tokens<'_>, count: usize) -> Result<Counted, ReadError>
    ensures { Reads ((g.variable count).reads tokens.old) result tokens.new }
{
    let name = tokens.name(alloc)?;
    Ok((TestExpr::Var(name), count))
}

/// A variable, or an expression in parentheses.
#[cycle(expr)]
#[tactic(auto, unfolding(tl_ast::specs::ExprGrammar::plain, text_grammar::specs::Part::either))]
fn plain(
    alloc: Global,
    tokens: &mut Tokens<'_>,
    depth: usize,
    count: usize,
) -> Result<Counted, ReadError>
    ensures { Reads ((g.plain (g.parens expr_limits.operators depth) count).reads tokens.old) result tokens.new }
{
    if tokens.sees(Symbol::OpenParen) {
        return parens(alloc, tokens, depth, count);
    }
    variable(alloc, tokens, count)
}

/// A number, a variable, or an expression in parentheses.
#[cycle(expr)]
#[tactic(auto, unfolding(tl_ast::specs::ExprGrammar::atom, text_grammar::specs::Part::either))]
fn atom(
    alloc: Global,
    tokens: &mut Tokens<'_>,
    depth: usize,
    count: usize,
) -> Result<Counted, ReadError>
    ensures { Reads ((g.atom (g.parens expr_limits.operators depth) count).reads tokens.old) result tokens.new }
{
    if tokens.sees_number() {
        return literal(tokens, count);
    }
    plain(alloc, tokens, depth, count)
}

/// Takes a `-` in front of an operand.
#[tactic(auto, unfolding(tl_ast::specs::ExprGrammar::minus, text_grammar::specs::Part::both, text_grammar::specs::Part::nothing))]
fn minus(tokens: &mut Tokens<'_>, count: usize) -> Result<usize, ReadError>
    ensures { Reads ((g.minus expr_limits.operators count).reads tokens.old) result tokens.new }
{
    room(tokens, count)?;
    tokens.mark(Symbol::Minus)?;
    Ok(count + 1)
}

/// Takes each `-` that stands here.
fn minuses(tokens: &mut Tokens<'_>, first: usize) -> Result<usize, ReadError>
    ensures { Reads ((g.minuses expr_limits.operators first).reads tokens.old) result tokens.new }
{
    let mut count = first;
    for _turn in 0..tokens.left() {
        if !tokens.sees(Symbol::Minus) {
            return Ok(count);
        }
        count = match minus(tokens, count) {
            Ok(next) => next,
            Err(e) => return Err(e),
        };
    }
    Ok(count)
}

/// What stands behind signs, of which the last is the operator of number `now`.
#[cycle(expr)]
#[tactic(auto, unfolding(tl_ast::specs::ExprGrammar::behind_signs, text_grammar::specs::Part::both, text_grammar::specs::Part::nothing))]
fn behind_signs(
    alloc: Global,
    tokens: &mut Tokens<'_>,
    depth: usize,
    count: usize,
    now: usize,
) -> Result<Counted, ReadError>
    ensures { Reads ((g.behind_signs (g.parens expr_limits.operators depth) count now).reads tokens.old) result tokens.new }
{
    let (of, total) = atom(alloc, tokens, depth, now)?;
    Ok((negated(alloc, of, now.saturating_sub(count))?, total))
}

/// A `-`, any number of further ones, and what they negate.
#[cycle(expr)]
#[tactic(auto, unfolding(tl_ast::specs::ExprGrammar::signed, text_grammar::specs::Part::after))]
fn signed(
    alloc: Global,
    tokens: &mut Tokens<'_>,
    depth: usize,
    count: usize,
) -> Result<Counted, ReadError>
    ensures { Reads ((g.signed expr_limits.operators (g.parens expr_limits.operators depth) count).reads tokens.old) result tokens.new }
{
    let first = minus(tokens, count)?;
    let now = minuses(tokens, first)?;
    behind_signs(alloc, tokens, depth, count, now)
}

/// An operand that does not begin with a number.
#[cycle(expr)]
#[tactic(auto, unfolding(tl_ast::specs::ExprGrammar::other_operand, text_grammar::specs::Part::either))]
fn other_operand(
    alloc: Global,
    tokens: &mut Tokens<'_>,
    depth: usize,
    count: usize,
) -> Result<Counted, ReadError>
    ensures { Reads ((g.other_operand expr_limits.operators (g.parens expr_limits.operators depth) count).reads tokens.old) result tokens.new }
{
    if tokens.sees(Symbol::Minus) {
        return signed(alloc, tokens, depth, count);
    }
    plain(alloc, tokens, depth, count)
}

#[cycle(expr)]
#[tactic(auto, unfolding(tl_ast::specs::ExprGrammar::operand, text_grammar::specs::Part::either))]
fn operand(
    alloc: Global,
    tokens: &mut Tokens<'_>,
    depth: usize,
    count: usize,
) -> Result<Counted, ReadError>
    ensures { Reads ((g.operand expr_limits.operators (g.parens expr_limits.operators depth) count).reads tokens.old) result tokens.new }
{
    if tokens.sees_number() {
        return literal(tokens, count);
    }
    other_operand(alloc, tokens, depth, count)
}

// ---- operators and what stands on their right

/// An operator that binds so loosely, and its right side, behind the left one.
#[cycle(expr)]
#[tactic(auto, unfolding(tl_ast::specs::ExprGrammar::one_more, text_grammar::specs::Part::both))]
fn one_more(
    alloc: Global,
    tokens: &mut Tokens<'_>,
    depth: usize,
    loose: usize,
    left: Counted,
) -> Result<Counted, ReadError>
    ensures { Reads ((g.one_more expr_limits.operators loose (g.level expr_limits.operators (g.parens expr_limits.operators depth) loose) left).reads tokens.old) result tokens.new }
{
    let (value, count) = left;
    room(tokens, count)?;
    let op = operator(tokens, loose)?;
    let (right, total) = level(alloc, tokens, depth, loose, count + 1)?;
    Ok((two_of(alloc, op, value, right)?, total))
}

/// The value with every operator that binds so loosely and follows it.
#[cycle(expr)]
fn chain(
    alloc: Global,
    tokens: &mut Tokens<'_>,
    depth: usize,
    loose: usize,
    first: Counted,
) -> Result<Counted, ReadError>
    ensures { Reads ((grow always (g.is_operator loose) (g.one_more expr_limits.operators loose (g.level expr_limits.operators (g.parens expr_limits.operators depth) loose)) first).reads tokens.old) result tokens.new }
{
    let mut grown = first;
    for _turn in 0..tokens.left() {
        if !sees_operator(tokens, loose) {
            return Ok(grown);
        }
        grown = match one_more(alloc, tokens, depth, loose, grown) {
            Ok(next) => next,
            Err(e) => return Err(e),
        };
    }
    Ok(grown)
}

/// What follows a first operand, where all operators bind tighter than `loose`.
#[cycle(expr)]
#[tactic(auto, unfolding(tl_ast::specs::ExprGrammar::behind, text_grammar::specs::Part::after, text_grammar::specs::Part::nothing))]
fn behind(
    alloc: Global,
    tokens: &mut Tokens<'_>,
    depth: usize,
    loose: usize,
    first: Counted,
) -> Result<Counted, ReadError>
    ensures { Reads ((g.behind expr_limits.operators (g.parens expr_limits.operators depth) loose first).reads tokens.old) result tokens.new }
{
    if loose == 0 {
        return Ok(first);
    }
    let left = behind(alloc, tokens, depth, loose - 1, first)?;
    chain(alloc, tokens, depth, loose - 1, left)
}

/// Operands and operators that bind tighter than `loose`.
#[cycle(expr)]
#[tactic(auto, unfolding(tl_ast::specs::ExprGrammar::level, text_grammar::specs::Part::after))]
fn level(
    alloc: Global,
    tokens: &mut Tokens<'_>,
    depth: usize,
    loose: usize,
    count: usize,
) -> Result<Counted, ReadError>
    ensures { Reads ((g.level expr_limits.operators (g.parens expr_limits.operators depth) loose count).reads tokens.old) result tokens.new }
{
    let first = operand(alloc, tokens, depth, count)?;
    behind(alloc, tokens, depth, loose, first)
}

/// The value with the comparison that follows it, if one does.
#[cycle(expr)]
#[tactic(auto, unfolding(tl_ast::specs::ExprGrammar::compared, text_grammar::specs::Part::either, text_grammar::specs::Part::nothing))]
fn compared(
    alloc: Global,
    tokens: &mut Tokens<'_>,
    depth: usize,
    left: Counted,
) -> Result<Counted, ReadError>
    ensures { Reads ((g.compared expr_limits.operators (g.parens expr_limits.operators depth) left).reads tokens.old) result tokens.new }
{
    if sees_operator(tokens, COMPARISON) {
        return one_more(alloc, tokens, depth, COMPARISON, left);
    }
    Ok(left)
}

/// What follows a first operand.
#[cycle(expr)]
#[tactic(auto, unfolding(tl_ast::specs::ExprGrammar::expr_behind, text_grammar::specs::Part::after))]
fn expr_behind(
    alloc: Global,
    tokens: &mut Tokens<'_>,
    depth: usize,
    first: Counted,
) -> Result<Counted, ReadError>
    ensures { Reads ((g.expr_behind expr_limits.operators (g.parens expr_limits.operators depth) first).reads tokens.old) result tokens.new }
{
    let left = behind(alloc, tokens, depth, COMPARISON, first)?;
    compared(alloc, tokens, depth, left)
}

#[cycle(expr)]
#[tactic(auto, unfolding(tl_ast::specs::ExprGrammar::expr_in, text_grammar::specs::Part::after))]
fn expr_in(
    alloc: Global,
    tokens: &mut Tokens<'_>,
    depth: usize,
    count: usize,
) -> Result<Counted, ReadError>
    ensures { Reads ((g.expr_in expr_limits.operators (g.parens expr_limits.operators depth) count).reads tokens.old) result tokens.new }
{
    let first = operand(alloc, tokens, depth, count)?;
    expr_behind(alloc, tokens, depth, first)
}

/// `( E )`, where so many parentheses may be opened, these included.
#[cycle(expr)]
#[tactic(auto, unfolding(tl_ast::specs::ExprGrammar::parens, text_grammar::specs::Part::both, text_grammar::specs::Part::stop))]
fn parens(
    alloc: Global,
    tokens: &mut Tokens<'_>,
    depth: usize,
    count: usize,
) -> Result<Counted, ReadError>
    ensures { Reads ((g.parens expr_limits.operators depth count).reads tokens.old) result tokens.new }
{
    if depth == 0 {
        return Err(ReadError::At(Kind::TooDeep, tokens.left()));
    }
    tokens.mark(Symbol::OpenParen)?;
    let inner = expr_in(alloc, tokens, depth - 1, count)?;
    tokens.mark(Symbol::CloseParen)?;
    Ok(inner)
}

// ---- the parts that statements are made of

/// An expression. The time is linear in the number of its items and the length of its names.
#[tactic(auto, unfolding(tl_ast::specs::ExprGrammar::expr, tl_ast::specs::ExprGrammar::uncounted, text_grammar::specs::Part::both, text_grammar::specs::Part::nothing))]
pub(crate) fn expr(alloc: Global, tokens: &mut Tokens<'_>) -> Result<TestExpr, ReadError>
    ensures { Reads ((g.expr expr_limits).reads tokens.old) result tokens.new }
{
    let (value, _count) = expr_in(alloc, tokens, MOST_PARENS, 0)?;
    Ok(value)
}

/// What follows a number that an expression begins with: the whole expression, and how many operators it has.
#[tactic(auto, unfolding(tl_ast::specs::ExprGrammar::expr_from_number))]
pub(crate) fn expr_from_number(
    alloc: Global,
    tokens: &mut Tokens<'_>,
    number: u128,
) -> Result<Counted, ReadError>
    ensures { Reads ((g.expr_from_number expr_limits number).reads tokens.old) result tokens.new }
{
    expr_behind(alloc, tokens, MOST_PARENS, (TestExpr::Num(number), 0))
}

/// An expression that does not begin with a number.
#[tactic(auto, unfolding(tl_ast::specs::ExprGrammar::other_expr, tl_ast::specs::ExprGrammar::uncounted, text_grammar::specs::Part::both, text_grammar::specs::Part::after, text_grammar::specs::Part::nothing))]
pub(crate) fn other_expr(alloc: Global, tokens: &mut Tokens<'_>) -> Result<TestExpr, ReadError>
    ensures { Reads ((g.other_expr expr_limits).reads tokens.old) result tokens.new }
{
    let first = other_operand(alloc, tokens, MOST_PARENS, 0)?;
    let (value, _count) = expr_behind(alloc, tokens, MOST_PARENS, first)?;
    Ok(value)
}
