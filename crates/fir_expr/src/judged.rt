//! Items that their position judges: numbers with a limit, types of one word, the numbers of literals.

ghost use Rattle.std.specs.Prelude.{◌≡◌, ◌≤◌, ◌<◌, ◌^◌, IfOk, slice_index};
ghost use Rattle.std.specs.List.{list_all, list_any};
ghost use Rattle.std.specs.Char.{is_digit};
ghost use Rattle.std.specs.Option.{SomeIff};
ghost use Rattle.std.specs.Str.{bytes_eq};
ghost use Rattle.std.specs.Str.Parse.{digits_value, AllDigits};
ghost use Rattle.text_grammar.specs.Part.{Reads};
ghost use Rattle.fir_ast.specs.Limits as l;
ghost use Rattle.fir_ast.specs.TypeGrammar as t;
ghost use Rattle.fir_ast.specs.ExprGrammar as g;

use fir_ast::Ty;
use tb_base::Name;
use text_grammar::{Form, Kind, ReadError, Symbol, Token, Tokens};

/// Whether a word is this text.
pub(crate) fn is(word: &Name, text: &[u8]) -> bool
    ensures { result ≡ bytes_eq word.now text.now }
{
    word.bytes() == text
}

fn number_at_most(token: &Token, greatest: u128) -> Result<u128, Kind>
    ensures value { result ≡ l.number_at_most greatest token.now }
    ensures bound { IfOk result (λ n. n ≤ greatest) }
{
    match token {
        Token::Number(number) if *number <= greatest => Ok(*number),
        Token::Number(_) => Err(Kind::NumberTooWide),
        Token::TooWide => Err(Kind::NumberTooWide),
        Token::Unsupported(form) => Err(Kind::Unsupported(*form)),
        Token::TooDeep(_) => Err(Kind::TooDeep),
        _ => Err(Kind::Syntax),
    }
}

/// Takes a number of at most `greatest`.
#[tactic(auto, using(crate::proofs::Judging::judged_taken, crate::proofs::Judging::judged_refused, crate::proofs::Judging::judged_none), unfolding(fir_ast::specs::Limits::number_up_to))]
pub(crate) fn number_up_to(tokens: &mut Tokens<'_>, greatest: u128) -> Result<u128, ReadError>
    ensures value { Reads ((l.number_up_to greatest).reads tokens.old) result tokens.new }
    ensures bound { IfOk result (λ n. n ≤ greatest) }
{
    match tokens.peek() {
        Some(item) => match number_at_most(&item.token, greatest) {
            Ok(number) => {
                tokens.skip();
                Ok(number)
            }
            Err(kind) => Err(ReadError::At(kind, tokens.left())),
        },
        None => Err(tokens.refuse()),
    }
}

/// Whether the word is a type that is known and not taken.
fn is_unsupported(word: &Name) -> bool
    ensures { result ≡ list_any (bytes_eq word.now) t.unsupported_types }
{
    is(word, b"Analog")
        || is(word, b"AsyncReset")
        || is(word, b"Probe")
        || is(word, b"RWProbe")
        || is(word, b"Integer")
        || is(word, b"String")
        || is(word, b"Bool")
        || is(word, b"Path")
        || is(word, b"List")
        || is(word, b"const")
}

fn word_type(word: &Name) -> Result<Ty, Kind>
    ensures { result ≡ t.word_type word.now }
{
    if is(word, b"Clock") {
        return Ok(Ty::Clock);
    }
    if is(word, b"Reset") {
        return Ok(Ty::Reset);
    }
    if is_unsupported(word) {
        return Err(Kind::Unsupported(Form::Type));
    }
    Err(Kind::Syntax)
}

/// Why a symbol is refused in a type's place, where it is so refused elsewhere.
fn enumeration_or(symbol: Symbol, kind: Kind) -> Kind
    ensures { result ≡ t.enumeration_or symbol kind }
{
    if symbol as u8 == Symbol::OpenEnumeration as u8 {
        Kind::Unsupported(Form::Enumeration)
    } else {
        kind
    }
}

fn judged_type(token: &Token) -> Result<Ty, Kind>
    ensures { result ≡ t.plain_type token.now }
{
    match token {
        Token::Word(word) => word_type(word),
        Token::Symbol(symbol) => Err(enumeration_or(*symbol, Kind::Syntax)),
        Token::TooDeep(symbol) => Err(enumeration_or(*symbol, Kind::TooDeep)),
        Token::TooWide => Err(Kind::NumberTooWide),
        Token::Unsupported(form) => Err(Kind::Unsupported(*form)),
        Token::Number(_) | Token::Text(_) | Token::Other => Err(Kind::Syntax),
    }
}

/// Takes a type of one word without a width.
#[tactic(auto, using(crate::proofs::Judging::judged_taken, crate::proofs::Judging::judged_refused, crate::proofs::Judging::judged_none))]
pub(crate) fn plain_type(tokens: &mut Tokens<'_>) -> Result<Ty, ReadError>
    ensures { Reads ((l.judged t.plain_type).reads tokens.old) result tokens.new }
{
    match tokens.peek() {
        Some(item) => match judged_type(&item.token) {
            Ok(ty) => {
                tokens.skip();
                Ok(ty)
            }
            Err(kind) => Err(ReadError::At(kind, tokens.left())),
        },
        None => Err(tokens.refuse()),
    }
}

// ---- the numbers of literals

/// The base of a literal's string, by its first letter, or 0.
fn letter_base(text: &[u8]) -> u32
    ensures value { result ≡ g.letter_base (slice_index text.now 0) }
    ensures bound { result ≤ 16 }
    ensures low { 0 < result → 2 ≤ result }
{
    match text {
        [b'b', ..] => 2,
        [b'o', ..] => 8,
        [b'd', ..] => 10,
        [b'h', ..] => 16,
        _ => 0,
    }
}

/// Whether a minus stands behind the letter.
fn has_minus(text: &[u8]) -> bool
    ensures { result ≡ g.has_minus text.now }
{
    matches!(text, [_, b'-', ..])
}

/// What stands behind the letter and the minus.
fn text_digits(text: &[u8]) -> &[u8]
    ensures { result.now ≡ g.text_digits text.now }
{
    match text {
        [_, b'-', digits @ ..] => digits,
        [_, digits @ ..] => digits,
        [] => text,
    }
}

/// Whether all of these are digits of the base.
fn all_digits(base: u32, digits: &[u8]) -> bool
    requires low { 2 ≤ base }
    requires high { base ≤ 16 }
    ensures { result ≡ list_all (λ d. is_digit d base) digits.now }
{
    for digit in digits {
        if !char::from(*digit).is_digit(base) {
            return false;
        }
    }
    true
}

/// Whether these are digits of the base, and at least one.
fn some_digits(base: u32, digits: &[u8]) -> bool
    requires low { 2 ≤ base }
    requires high { base ≤ 16 }
    ensures { result ≡ g.some_digits base digits.now }
{
    match digits {
        [] => false,
        [_, ..] => all_digits(base, digits),
    }
}

/// The number that these digits spell, or `None` where one of them is no digit of the base, or the number is `2 ^ 128` or more.
fn magnitude(base: u32, digits: &[u8]) -> Option<u128>
    requires low { 2 ≤ base }
    requires high { base ≤ 16 }
    ensures { SomeIff result (AllDigits base digits.now × (digits_value base digits.now < 2 ^ 128))
        (digits_value base digits.now) }
{
    let mut value: u128 = 0;
    for byte in digits {
        let digit = char::from(*byte).to_digit(base)?;
        value = value
            .checked_mul(u128::from(base))?
            .checked_add(u128::from(digit))?;
    }
    Some(value)
}

/// The number of a literal whose value is this string.
fn text_number(text: &[u8], signed: bool) -> Result<(bool, u128), Kind>
    ensures { result ≡ g.text_number signed text.now }
{
    let base = letter_base(text);
    let digits = text_digits(text);
    if base == 0 || !some_digits(base, digits) {
        return Err(Kind::Syntax);
    }
    let minus = has_minus(text);
    match magnitude(base, digits) {
        None => Err(Kind::NumberTooWide),
        Some(_) if minus && !signed => Err(Kind::Syntax),
        Some(magnitude) => Ok((minus && magnitude > 0, magnitude)),
    }
}

fn judged_number(token: &Token, signed: bool) -> Result<(bool, u128), Kind>
    ensures { result ≡ g.literal_number signed token.now }
{
    match token {
        Token::Number(number) => Ok((false, *number)),
        Token::Text(text) => text_number(text.bytes(), signed),
        Token::TooWide => Err(Kind::NumberTooWide),
        Token::Unsupported(form) => Err(Kind::Unsupported(*form)),
        Token::TooDeep(_) => Err(Kind::TooDeep),
        Token::Word(_) | Token::Symbol(_) | Token::Other => Err(Kind::Syntax),
    }
}

/// Takes a number, or a string that spells one.
#[tactic(auto, using(crate::proofs::Judging::judged_taken, crate::proofs::Judging::judged_refused, crate::proofs::Judging::judged_none))]
pub(crate) fn literal_number(
    tokens: &mut Tokens<'_>,
    signed: bool,
) -> Result<(bool, u128), ReadError>
    ensures { Reads ((l.judged (g.literal_number signed)).reads tokens.old) result tokens.new }
{
    match tokens.peek() {
        Some(item) => match judged_number(&item.token, signed) {
            Ok(number) => {
                tokens.skip();
                Ok(number)
            }
            Err(kind) => Err(ReadError::At(kind, tokens.left())),
        },
        None => Err(tokens.refuse()),
    }
}
