//! Laws that say what the definitions give for texts that a reader can follow.
ghost use Rattle.std.specs.Prelude.{◌≡◌, ℕ, List};
ghost use Rattle.text_grammar.specs.Lex.{text_start};
ghost use Rattle.tl_lex.specs.Lex.{place_behind, end_of};
ghost use Rattle.tl_lex.specs.Examples.{Spaces, Tokens, Ends};

/// A law: white space and comments, and the places behind them.
pub fn the_spaces_work_out()
    ensures { Spaces }
{}

/// A law: words, numbers and symbols, and bytes that begin no token.
pub fn the_tokens_work_out()
    ensures { Tokens }
{}

/// A law: places of texts' ends.
pub fn the_ends_work_out()
    ensures { Ends }
{}

/// A law: the place that comes of going over bytes one by one has the line 1 + the number of their line feeds, and the column 1 +
/// the number of bytes after the last one.
#[tactic(auto, using(crate::proofs::Places::behind_start))]
pub fn places_are_counted()
    ensures { (text : List ℕ) → place_behind text_start text ≡ end_of text }
{}
