//! The first words of lines, and what else blocks and modules share.

ghost use Rattle.std.specs.Prelude.{◌≡◌, ◌∷◌, ◌++◌, IfOk};
ghost use Rattle.std.specs.Str.{bytes_eq};
ghost use Rattle.text_grammar.specs.Part.{Reads, starts};
ghost use Rattle.fir_ast.specs.Lines as n;
ghost use Rattle.fir_read.specs.Steps.{blamed};
ghost use Rattle.fir_ast.specs.CircuitGrammar as g;

use fir_ast::Stmt;
use std::alloc::Global;
use tb_base::{Memory, Name, Seq};
use text_grammar::{Kind, ReadError, Symbol, Tokens};

/// Whether a word has these bytes.
pub fn is(word: &Name, text: &[u8]) -> bool
    ensures { result ≡ bytes_eq word.now text.now }
{
    word.bytes() == text
}

/// Whether a line begins here at this column, with this word.
#[tactic(auto, using(crate::proofs::LineReading::begins_is))]
pub fn begins_line(tokens: &Tokens<'_>, column: u32, text: &[u8]) -> bool
    ensures { result ≡ starts (n.begins_line column text.now) tokens.now }
{
    tokens.column() == column && tokens.sees_word(text)
}

/// Whether a line begins here at this column with `else`.
pub fn begins_else(tokens: &Tokens<'_>, column: u32) -> bool
    ensures { result ≡ starts (n.is_else column) tokens.now }
{
    begins_line(tokens, column, b"else")
}

/// Whether a line begins here at this column with another word.
#[tactic(auto, using(crate::proofs::LineReading::line_is))]
pub fn begins_row(tokens: &Tokens<'_>, column: u32) -> bool
    ensures { result ≡ starts (n.is_line column) tokens.now }
{
    tokens.column() == column && tokens.sees_name() && !tokens.sees_word(b"else")
}

/// Takes this word at the head of a line, and gives the line's number.
#[tactic(auto, using(crate::proofs::LineReading::word_taken, crate::proofs::LineReading::word_refused))]
pub fn line_word(tokens: &mut Tokens<'_>, column: u32, text: &[u8]) -> Result<u32, ReadError>
    ensures { Reads ((n.line_word column text.now).reads tokens.old) result tokens.new }
{
    if begins_line(tokens, column, text) {
        let line = tokens.line();
        tokens.skip();
        Ok(line)
    } else {
        Err(tokens.refuse())
    }
}

/// Takes the first word of a line that doesn't begin with `else`, with the line's number.
#[tactic(auto, using(crate::proofs::LineReading::first_taken, crate::proofs::LineReading::first_refused, crate::proofs::LineReading::first_fails))]
pub fn first_word(
    alloc: Global,
    tokens: &mut Tokens<'_>,
    column: u32,
) -> Result<(u32, Name), ReadError>
    ensures { Reads ((n.first_word column).reads tokens.old) result tokens.new }
{
    if !begins_row(tokens, column) {
        return Err(tokens.refuse());
    }
    let line = tokens.line();
    let word = tokens.name(alloc)?;
    Ok((line, word))
}

/// Takes `else` at the head of a line, with the line's number.
#[tactic(auto, using(crate::proofs::LineReading::else_taken, crate::proofs::LineReading::first_refused, crate::proofs::LineReading::else_fails))]
pub fn else_word(
    alloc: Global,
    tokens: &mut Tokens<'_>,
    column: u32,
) -> Result<(u32, Name), ReadError>
    ensures { Reads ((n.else_word column).reads tokens.old) result tokens.new }
{
    if !begins_else(tokens, column) {
        return Err(tokens.refuse());
    }
    let line = tokens.line();
    let word = tokens.name(alloc)?;
    Ok((line, word))
}

/// `:` and the line's end.
#[tactic(auto, unfolding(fir_ast::specs::CircuitGrammar::opens, text_grammar::specs::Part::both))]
pub fn opens(tokens: &mut Tokens<'_>) -> Result<(), ReadError>
    ensures { Reads (g.opens.reads tokens.old) result tokens.new }
{
    tokens.mark(Symbol::Colon)?;
    tokens.mark(Symbol::LineEnd)?;
    Ok(())
}

/// A statement, and others behind it.
pub fn joined(alloc: Global, row: Stmt, more: Seq<Stmt>) -> Result<Seq<Stmt>, Memory>
    ensures { IfOk result (λ all. all ≡ row ∷ more) }
{
    let mut all = Vec::new(alloc);
    all.push(row)?;
    let mut more = more.into_vec();
    all.append(&mut more)?;
    Ok(Seq::of(all))
}

/// Adds a statement and those behind it.
pub fn add_rows(found: &mut Vec<Stmt>, rows: (Stmt, Seq<Stmt>)) -> Result<(), Memory>
    ensures { IfOk result (λ _. found.new.items ≡ found.old.items ++ rows.0 ∷ rows.1) }
{
    let (row, more) = rows;
    found.push(row)?;
    let mut more = more.into_vec();
    found.append(&mut more)?;
    Ok(())
}

/// The same fault, but where the head of a block was too deep: that is refused where its part began.
pub fn at_head(error: ReadError, left: usize) -> ReadError
    ensures { result ≡ blamed left error }
{
    match error {
        ReadError::Memory => ReadError::Memory,
        ReadError::At(Kind::HeadTooDeep, _) => ReadError::At(Kind::TooDeep, left),
        ReadError::At(kind, at) => ReadError::At(kind, at),
    }
}
