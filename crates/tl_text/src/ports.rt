//! Ports, and ports with a list of expressions behind them.

ghost use Rattle.std.specs.Prelude.{◌≡◌, ◌++◌, IfOk, codes};
ghost use Rattle.std.specs.Fmt.{decimal};
ghost use Rattle.text_grammar.specs.Part.{Reads, carried, many, starts};
ghost use Rattle.text_grammar.specs.Terminals.{is_symbol};
ghost use Rattle.text_grammar.specs.declared.item.Symbol.TheVariants as s;
ghost use Rattle.tl_ast.specs.TestGrammar as g;

use std::alloc::Global;
use tb_base::{Memory, Name, put, put_decimal};
use text_grammar::{ReadError, Symbol, Tokens};

/// `.w`
fn dotted(alloc: Global, name: &Name) -> Result<Name, Memory>
    ensures { IfOk result (λ n. n ≡ codes "." ++ name.now) }
{
    let mut text = Vec::new(alloc);
    put(&mut text, b".")?;
    put(&mut text, name.bytes())?;
    Ok(Name::of(text))
}

/// `[n]`, in decimal
fn indexed(alloc: Global, number: u128) -> Result<Name, Memory>
    ensures { IfOk result (λ n. n ≡ codes "[" ++ (decimal number ++ codes "]")) }
{
    let mut text = Vec::new(alloc);
    put(&mut text, b"[")?;
    put_decimal(alloc, &mut text, number)?;
    put(&mut text, b"]")?;
    Ok(Name::of(text))
}

/// A name with what is added to it.
fn longer(name: Name, added: &Name) -> Result<Name, Memory>
    ensures { IfOk result (λ n. n ≡ name ++ added.now) }
{
    let mut text = name.into_vec();
    put(&mut text, added.bytes())?;
    Ok(Name::of(text))
}

/// `.w`, with the name that it adds.
#[tactic(auto, unfolding(tl_ast::specs::TestGrammar::field, text_grammar::specs::Part::both))]
fn field(alloc: Global, tokens: &mut Tokens<'_>) -> Result<Name, ReadError>
    ensures { Reads (g.field.reads tokens.old) result tokens.new }
{
    tokens.mark(Symbol::Dot)?;
    let name = tokens.name(alloc)?;
    Ok(dotted(alloc, &name)?)
}

/// `[n]`, with the name that it adds.
#[tactic(auto, unfolding(tl_ast::specs::TestGrammar::index, text_grammar::specs::Part::both))]
fn index(alloc: Global, tokens: &mut Tokens<'_>) -> Result<Name, ReadError>
    ensures { Reads (g.index.reads tokens.old) result tokens.new }
{
    tokens.mark(Symbol::OpenBracket)?;
    let number = tokens.number()?;
    tokens.mark(Symbol::CloseBracket)?;
    Ok(indexed(alloc, number)?)
}

#[tactic(auto, unfolding(tl_ast::specs::TestGrammar::suffix, text_grammar::specs::Part::either))]
fn suffix(alloc: Global, tokens: &mut Tokens<'_>) -> Result<Name, ReadError>
    ensures { Reads (g.suffix.reads tokens.old) result tokens.new }
{
    if tokens.sees(Symbol::Dot) {
        return field(alloc, tokens);
    }
    index(alloc, tokens)
}

/// Whether `.` or `[` stands here.
#[tactic(auto, using(crate::proofs::Peeking::either_starts))]
pub(crate) fn sees_suffix(tokens: &Tokens<'_>) -> bool
    ensures { result ≡ starts g.is_suffix tokens.now }
{
    tokens.sees(Symbol::Dot) || tokens.sees(Symbol::OpenBracket)
}

/// A name with every `.w` and `[n]` that follows it.
fn suffixes(alloc: Global, tokens: &mut Tokens<'_>, first: Name) -> Result<Name, ReadError>
    ensures { Reads (carried g.longer first ((many g.is_suffix g.suffix).reads tokens.old)) result tokens.new }
{
    let mut name = first;
    for _turn in 0..tokens.left() {
        if !sees_suffix(tokens) {
            return Ok(name);
        }
        let added = match suffix(alloc, tokens) {
            Ok(added) => added,
            Err(e) => return Err(e),
        };
        name = longer(name, &added)?;
    }
    Ok(name)
}

/// A port's name: a word, and any number of `.w` and `[n]`. The time is linear in its length.
#[tactic(auto, unfolding(tl_ast::specs::TestGrammar::port, text_grammar::specs::Part::both))]
pub(crate) fn port(alloc: Global, tokens: &mut Tokens<'_>) -> Result<Name, ReadError>
    ensures { Reads (g.port.reads tokens.old) result tokens.new }
{
    let first = tokens.name(alloc)?;
    suffixes(alloc, tokens, first)
}

/// A name with every `.w` that follows it.
fn dots(alloc: Global, tokens: &mut Tokens<'_>, first: Name) -> Result<Name, ReadError>
    ensures { Reads (carried g.longer first ((many (is_symbol s.Dot) g.field).reads tokens.old)) result tokens.new }
{
    let mut name = first;
    for _turn in 0..tokens.left() {
        if !tokens.sees(Symbol::Dot) {
            return Ok(name);
        }
        let added = match field(alloc, tokens) {
            Ok(added) => added,
            Err(e) => return Err(e),
        };
        name = longer(name, &added)?;
    }
    Ok(name)
}

/// A name with every `.w` that follows it.
#[tactic(auto, unfolding(tl_ast::specs::TestGrammar::fields, text_grammar::specs::Part::both, text_grammar::specs::Part::nothing))]
pub(crate) fn fields(alloc: Global, tokens: &mut Tokens<'_>, name: Name) -> Result<Name, ReadError>
    ensures { Reads ((g.fields name).reads tokens.old) result tokens.new }
{
    dots(alloc, tokens, name)
}

/// A name with an index behind it, if there is one.
pub(crate) fn with_index(alloc: Global, name: Name, number: Option<u128>) -> Result<Name, Memory>
    ensures { IfOk result (λ n. n ≡ g.with_index number name) }
{
    match number {
        Some(number) => {
            let added = indexed(alloc, number)?;
            longer(name, &added)
        }
        None => Ok(name),
    }
}
