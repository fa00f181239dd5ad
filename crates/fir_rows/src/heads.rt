//! Ports, and the heads of modules and of the circuit, from their second word on.

ghost use Rattle.std.specs.Prelude.{◌≡◌};
ghost use Rattle.text_grammar.specs.Part.{Reads};
ghost use Rattle.fir_ast.specs.Limits.{limits};
ghost use Rattle.fir_ast.specs.RowGrammar as g;

use crate::declarations::typed;
use std::alloc::Global;
use tb_base::Name;
use text_grammar::{Form, Kind, ReadError, Symbol, Tokens};

/// `: T` and the line's end, after `input n` or `output n`.
#[tactic(auto, unfolding(fir_ast::specs::RowGrammar::port, text_grammar::specs::Part::both))]
pub fn port(
    alloc: Global,
    tokens: &mut Tokens<'_>,
    line: u32,
    output: bool,
    name: Name,
) -> Result<fir_ast::Port, ReadError>
    ensures { Reads ((g.port limits line output name).reads tokens.old) result tokens.new }
{
    let ty = typed(alloc, tokens)?;
    tokens.mark(Symbol::LineEnd)?;
    Ok(fir_ast::Port {
        line,
        output,
        name,
        ty,
    })
}

/// The name, the colon and the line's end, after `module`.
#[tactic(auto, unfolding(fir_ast::specs::RowGrammar::module_head, text_grammar::specs::Part::both))]
pub fn module_head(alloc: Global, tokens: &mut Tokens<'_>) -> Result<Name, ReadError>
    ensures { Reads (g.module_head.reads tokens.old) result tokens.new }
{
    let name = tokens.name(alloc)?;
    tokens.mark(Symbol::Colon)?;
    tokens.mark(Symbol::LineEnd)?;
    Ok(name)
}

/// An annotation may not follow.
#[tactic(auto, unfolding(fir_ast::specs::RowGrammar::no_annotation, text_grammar::specs::Part::unless))]
fn no_annotation(tokens: &Tokens<'_>) -> Result<(), ReadError>
    ensures { Reads (g.no_annotation.reads tokens.now) result tokens.now }
{
    if tokens.sees(Symbol::Percent) {
        return Err(ReadError::At(Kind::Unsupported(Form::Annotation), tokens.left()));
    }
    Ok(())
}

/// The name, the colon and the line's end, after `circuit`. A `%` behind the colon is the unsupported annotation.
#[tactic(auto, unfolding(fir_ast::specs::RowGrammar::circuit_head, text_grammar::specs::Part::both))]
pub fn circuit_head(alloc: Global, tokens: &mut Tokens<'_>) -> Result<Name, ReadError>
    ensures { Reads (g.circuit_head.reads tokens.old) result tokens.new }
{
    let name = tokens.name(alloc)?;
    tokens.mark(Symbol::Colon)?;
    no_annotation(tokens)?;
    tokens.mark(Symbol::LineEnd)?;
    Ok(name)
}
