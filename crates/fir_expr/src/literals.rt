//! Literals, from what follows the word `UInt` or `SInt`.

ghost use Rattle.std.specs.Prelude.{◌≡◌, Option, Some, None, false, true};
ghost use Rattle.text_grammar.specs.Part.{Reads};
ghost use Rattle.fir_ast.specs.ExprGrammar as g;

use crate::judged::literal_number;
use fir_ast::Expr;
use text_grammar::{ReadError, Symbol, Tokens};

/// `-n`
#[tactic(auto, unfolding(fir_ast::specs::ExprGrammar::negated, text_grammar::specs::Part::both))]
fn negated(tokens: &mut Tokens<'_>) -> Result<(bool, u128), ReadError>
    ensures { Reads (g.negated.reads tokens.old) result tokens.new }
{
    tokens.mark(Symbol::Minus)?;
    let magnitude = tokens.number()?;
    Ok((magnitude > 0, magnitude))
}

/// The number of a literal: whether it is below zero, and its magnitude.
#[tactic(auto, unfolding(fir_ast::specs::ExprGrammar::literal_value, text_grammar::specs::Part::either))]
fn value(tokens: &mut Tokens<'_>, signed: bool) -> Result<(bool, u128), ReadError>
    ensures { Reads ((g.literal_value signed).reads tokens.old) result tokens.new }
{
    if signed {
        if tokens.sees(Symbol::Minus) {
            return negated(tokens);
        }
        return literal_number(tokens, true);
    }
    literal_number(tokens, false)
}

/// `(v)`, behind a width or none.
#[tactic(auto, unfolding(fir_ast::specs::ExprGrammar::literal, text_grammar::specs::Part::both))]
pub(crate) fn literal(
    tokens: &mut Tokens<'_>,
    signed: bool,
    width: Option<u8>,
) -> Result<Expr, ReadError>
    ensures { Reads ((g.literal signed width).reads tokens.old) result tokens.new }
{
    tokens.mark(Symbol::OpenParen)?;
    let (negative, magnitude) = value(tokens, signed)?;
    tokens.mark(Symbol::CloseParen)?;
    Ok(Expr::Lit {
        signed,
        width,
        negative,
        magnitude,
    })
}
