//! The pieces of a line: what begins at a byte, as long as can be.

ghost use Rattle.std.specs.Prelude.{◌≡◌, ◌<◌, ◌≤◌, ◌+◌, length, slice_index, take, IfOk, true};
ghost use Rattle.std.specs.Char.{is_ascii_digit};
ghost use Rattle.std.specs.List.{prefix_len};
ghost use Rattle.std.specs.Str.{byte};
ghost use Rattle.tb_base.specs.Numeral as numerals;
ghost use Rattle.fir_lex.specs.Pieces as spec;

use std::alloc::Global;
use tb_base::{Memory, Name, read_number};
use text_grammar::{Form, Symbol, Token, lex};

/// What a piece of a line is.
#[derive(Clone, Copy, Debug, PartialEq, Eq)]
pub enum Class {
    /// A space.
    Blank,
    /// A tab.
    Tab,
    /// A comment, up to the end of its line.
    Comment,
    /// A locator, from `@[` to its `]`.
    Locator,
    /// A byte that begins nothing.
    Stray,
    /// A word.
    Word,
    /// A number, or `None` from 2^128 on.
    Number(Option<u128>),
    /// A string with its quotes.
    Text,
    /// A symbol.
    Mark(Symbol),
    /// A back quote.
    BackQuote,
}

/// A piece: what it is, and how many bytes it has.
#[derive(Clone, Copy, Debug, PartialEq, Eq)]
pub struct Cut {
    pub class: Class,
    pub len: usize,
}

/// What is known to be closed nowhere on what is left of a line, since one was seen that was not. So the end of a string or of
/// a locator is sought in vain once a line, and not at each quote.
#[derive(Clone, Copy, Debug, PartialEq, Eq)]
pub struct Unclosed {
    pub string: bool,
    pub locator: bool,
}

/// Whether a piece is a token.
pub fn is_token(class: Class) -> bool
    ensures { result ≡ spec.is_token class }
{
    match class {
        Class::Word => true,
        Class::Number(_) => true,
        Class::Text => true,
        Class::Mark(_) => true,
        Class::BackQuote => true,
        _ => false,
    }
}

/// Whether a piece is a locator.
pub fn is_locator(class: Class) -> bool
    ensures { result ≡ spec.is_locator class }
{
    match class {
        Class::Locator => true,
        _ => false,
    }
}

/// How many bytes stand in front of the first byte `close` that another byte than a backslash precedes, or all of them where
/// there is none. The cost is that number.
fn before_closing(close: u8, first: u8, bytes: &[u8]) -> usize
    ensures value { result ≡ spec.before_closing close first bytes.now }
    ensures within { result ≤ length bytes.now }
{
    let mut before = first;
    for (at, byte) in bytes.iter().enumerate() {
        if *byte == close && before != b'\\' {
            return at;
        }
        before = *byte;
    }
    bytes.len()
}

/// The string at the head, or a quote that begins none.
#[tactic(auto, using(crate::proofs::Closing::past_first))]
fn string(bytes: &[u8], unclosed: &mut Unclosed) -> Cut
    requires quote { slice_index bytes.now 0 ≡ 34 }
    requires known { spec.Known unclosed.old bytes.now }
    ensures value { result ≡ spec.string bytes.now }
    ensures within { (1 ≤ result.len) × (result.len ≤ length bytes.now) }
    ensures known { spec.Known unclosed.new bytes.now }
{
    if !unclosed.string {
        let behind = &bytes[1..];
        let len = before_closing(b'"', b'"', behind);
        if len < behind.len() {
            return Cut {
                class: Class::Text,
                len: len + 2,
            };
        }
        unclosed.string = true;
    }
    Cut {
        class: Class::Stray,
        len: 1,
    }
}

/// The locator at the head, or a byte that begins none.
#[tactic(auto, using(crate::proofs::Closing::past_first))]
fn locator(bytes: &[u8], unclosed: &mut Unclosed) -> Cut
    requires at { slice_index bytes.now 0 ≡ 64 }
    requires known { spec.Known unclosed.old bytes.now }
    ensures value { result ≡ spec.locator bytes.now }
    ensures within { (1 ≤ result.len) × (result.len ≤ length bytes.now) }
    ensures known { spec.Known unclosed.new bytes.now }
{
    if !unclosed.locator && bytes.len() > 1 && bytes[1] == b'[' {
        let behind = &bytes[2..];
        let len = before_closing(b']', b'[', behind);
        if len < behind.len() {
            return Cut {
                class: Class::Locator,
                len: len + 3,
            };
        }
        unclosed.locator = true;
    }
    Cut {
        class: Class::Stray,
        len: 1,
    }
}

/// The base that a letter names, or 0.
fn base_of(letter: u8) -> u32
    ensures value { result ≡ numerals.base_of letter }
    ensures bound { result ≤ 16 }
    ensures low { 0 < result → 1 < result }
{
    match letter {
        b'b' => 2,
        b'o' => 8,
        b'd' => 10,
        b'x' | b'h' => 16,
        _ => 0,
    }
}

/// How many digits of the base stand at the head.
fn digits_run(base: u32, bytes: &[u8]) -> usize
    requires low { 2 ≤ base }
    requires high { base ≤ 16 }
    ensures value { result ≡ spec.digits_run base bytes.now }
    ensures within { result ≤ length bytes.now }
{
    for (at, byte) in bytes.iter().enumerate() {
        if !char::from(*byte).is_digit(base) {
            return at;
        }
    }
    bytes.len()
}

/// How many digits stand behind `0` and a base's letter; none where the bytes do not begin so.
fn based_digits(bytes: &[u8]) -> usize
    ensures value { result ≡ spec.based_digits bytes.now }
    ensures within { 0 < result → result + 2 ≤ length bytes.now }
{
    if bytes.len() >= 2 && bytes[0] == b'0' {
        let base = base_of(bytes[1]);
        if base > 0 {
            return digits_run(base, &bytes[2..]);
        }
    }
    0
}

/// How many bytes the number at the head has.
#[tactic(auto, using(crate::proofs::Numbers::some_digit))]
fn number_len(bytes: &[u8]) -> usize
    requires { is_ascii_digit (slice_index bytes.now 0) ≡ true }
    ensures value { result ≡ spec.number_len bytes.now }
    ensures within { (1 ≤ result) × (result ≤ length bytes.now) }
{
    let based = based_digits(bytes);
    if based > 0 {
        based + 2
    } else {
        digits_run(10, bytes)
    }
}

/// The number that a numeral spells, or `None` from 2^128 on.
fn value(numeral: &[u8]) -> Option<u128>
    requires { numerals.IsNumeral numeral.now }
    ensures { result ≡ spec.below_limit (numerals.numeral_value numeral.now) }
{
    read_number(numeral)
}

/// The number at the head.
#[tactic(auto, using(crate::proofs::Numbers::number_spelled))]
fn number(bytes: &[u8]) -> Cut
    requires { is_ascii_digit (slice_index bytes.now 0) ≡ true }
    ensures value { result ≡ spec.number bytes.now }
    ensures within { (1 ≤ result.len) × (result.len ≤ length bytes.now) }
{
    let len = number_len(bytes);
    Cut {
        class: Class::Number(value(&bytes[..len])),
        len,
    }
}

fn mark(symbol: Symbol, len: usize) -> Cut
    ensures { result ≡ spec.mark symbol len }
{
    Cut {
        class: Class::Mark(symbol),
        len,
    }
}

fn less(next: u8) -> Cut
    ensures { result ≡ spec.less next }
{
    match next {
        b'=' => mark(Symbol::LessEqual, 2),
        b'-' => mark(Symbol::LeftArrow, 2),
        _ => mark(Symbol::Less, 1),
    }
}

fn equal(next: u8) -> Cut
    ensures { result ≡ spec.equal next }
{
    match next {
        b'>' => mark(Symbol::Arrow, 2),
        _ => mark(Symbol::Equal, 1),
    }
}

fn is_blank(byte: u8) -> bool
    ensures { result ≡ spec.is_blank byte }
{
    byte == b' ' || byte == b'\t'
}

/// How many spaces and tabs stand at the head.
fn blanks(bytes: &[u8]) -> usize
    ensures value { result ≡ prefix_len spec.is_blank bytes.now }
    ensures within { result ≤ length bytes.now }
{
    for (at, byte) in bytes.iter().enumerate() {
        if !is_blank(*byte) {
            return at;
        }
    }
    bytes.len()
}

/// The brace at the head, with a bar behind it or without one.
fn brace(bytes: &[u8]) -> Cut
    requires { 0 < length bytes.now }
    ensures value { result ≡ spec.brace bytes.now }
    ensures within { (1 ≤ result.len) × (result.len ≤ length bytes.now) }
{
    let behind = &bytes[1..];
    let blanks = blanks(behind);
    if blanks < behind.len() && behind[blanks] == b'|' {
        return mark(Symbol::OpenEnumeration, blanks + 2);
    }
    mark(Symbol::OpenBrace, 1)
}

fn single(byte: u8) -> Class
    ensures { result ≡ spec.single byte }
{
    match byte {
        b'>' => Class::Mark(Symbol::Greater),
        b'(' => Class::Mark(Symbol::OpenParen),
        b')' => Class::Mark(Symbol::CloseParen),
        b'[' => Class::Mark(Symbol::OpenBracket),
        b']' => Class::Mark(Symbol::CloseBracket),
        b'}' => Class::Mark(Symbol::CloseBrace),
        b':' => Class::Mark(Symbol::Colon),
        b',' => Class::Mark(Symbol::Comma),
        b'.' => Class::Mark(Symbol::Dot),
        b'-' => Class::Mark(Symbol::Minus),
        b'%' => Class::Mark(Symbol::Percent),
        b'`' => Class::BackQuote,
        b' ' => Class::Blank,
        b'\t' => Class::Tab,
        _ => Class::Stray,
    }
}

/// What begins with no letter, no digit and nothing that is closed.
fn plain(bytes: &[u8]) -> Cut
    requires { 0 < length bytes.now }
    ensures value { result ≡ spec.plain bytes.now }
    ensures within { (1 ≤ result.len) × (result.len ≤ length bytes.now) }
{
    let next = if bytes.len() > 1 { bytes[1] } else { 0 };
    let byte = bytes[0];
    match byte {
        b'<' => less(next),
        b'=' => equal(next),
        b'{' => brace(bytes),
        _ => Cut {
            class: single(byte),
            len: 1,
        },
    }
}

/// What the bytes of a line begin with. The cost is the piece's length, but for what `unclosed` tells once.
#[tactic(auto, unfolding(crate::specs::Pieces::cut))]
pub fn first_piece(bytes: &[u8], unclosed: &mut Unclosed) -> Cut
    requires some { 0 < length bytes.now }
    requires known { spec.Known unclosed.old bytes.now }
    ensures value { result ≡ spec.cut bytes.now }
    ensures within { (1 ≤ result.len) × (result.len ≤ length bytes.now) }
    ensures known { spec.Known unclosed.new bytes.now }
{
    let byte = bytes[0];
    if lex::begins_word(byte) {
        return Cut {
            class: Class::Word,
            len: lex::run(lex::Class::Word, bytes),
        };
    }
    if byte.is_ascii_digit() {
        return number(bytes);
    }
    match byte {
        b'"' => string(bytes, unclosed),
        b'@' => locator(bytes, unclosed),
        b';' => Cut {
            class: Class::Comment,
            len: bytes.len(),
        },
        _ => plain(bytes),
    }
}

/// What stands between the first byte and the last one.
fn between(bytes: &[u8]) -> &[u8]
    ensures { result.now ≡ spec.between bytes.now }
{
    if bytes.len() < 2 {
        return &bytes[..0];
    }
    &bytes[1..bytes.len() - 1]
}

/// A name of these bytes, in memory of its own.
fn name(alloc: Global, bytes: &[u8]) -> Result<Name, Memory>
    ensures { IfOk result (λ n. n ≡ bytes.now) }
{
    let bytes = Vec::from_slice(alloc, bytes)?;
    Ok(Name::of(bytes))
}

/// The token of a piece with these bytes; `Other` where it is none. The cost is linear in a word or a string.
pub fn token_of(alloc: Global, class: Class, bytes: &[u8]) -> Result<Token, Memory>
    ensures { IfOk result (λ t. t ≡ spec.token_of class bytes.now) }
{
    match class {
        Class::Word => {
            let name = name(alloc, bytes)?;
            Ok(Token::Word(name))
        }
        Class::Number(Some(number)) => Ok(Token::Number(number)),
        Class::Number(None) => Ok(Token::TooWide),
        Class::Text => {
            let text = name(alloc, between(bytes))?;
            Ok(Token::Text(text))
        }
        Class::Mark(symbol) => Ok(Token::Symbol(symbol)),
        Class::BackQuote => Ok(Token::Unsupported(Form::QuotedName)),
        _ => Ok(Token::Other),
    }
}
