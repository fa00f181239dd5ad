//! The number at the head of a text: `0`, a base's letter and digits of that base, or decimal digits.

ghost use Rattle.std.specs.Prelude.{◌≡◌, ◌<◌, ◌≤◌, ◌+◌, length, slice_index, true};
ghost use Rattle.std.specs.Char.{is_ascii_digit};
ghost use Rattle.tb_base.specs.Numeral as numerals;
ghost use Rattle.text_grammar.specs.Lex as lexes;
ghost use Rattle.tl_lex.specs.Pieces as spec;

use tb_base::read_number;
use text_grammar::Token;
use text_grammar::lex::Piece;

/// The base that a letter names, or 0.
fn base_of(letter: u8) -> u32
    ensures value { result ≡ numerals.base_of letter }
    ensures bound { result ≤ 16 }
    ensures low { 0 < result → 1 < result }
{
    match letter {
        b'b' => 2,
        b'o' => 8,
        b'd' => 10,
        b'x' | b'h' => 16,
        _ => 0,
    }
}

/// How many digits of the base stand at the head. The cost is that number.
fn digits_run(base: u32, text: &[u8]) -> usize
    requires low { 2 ≤ base }
    requires high { base ≤ 16 }
    ensures value { result ≡ spec.digits_run base text.now }
    ensures within { result ≤ length text.now }
{
    for (at, byte) in text.iter().enumerate() {
        if !char::from(*byte).is_digit(base) {
            return at;
        }
    }
    text.len()
}

/// How many digits stand behind `0` and a base's letter; none where the text does not begin so.
fn based_digits(text: &[u8]) -> usize
    ensures value { result ≡ spec.based_digits text.now }
    ensures within { 0 < result → result + 2 ≤ length text.now }
{
    if text.len() >= 2 && text[0] == b'0' {
        let base = base_of(text[1]);
        if base > 0 {
            return digits_run(base, &text[2..]);
        }
    }
    0
}

/// How many bytes the number at the head has.
#[tactic(auto, using(crate::proofs::Numbers::some_digit))]
fn number_len(text: &[u8]) -> usize
    requires { is_ascii_digit (slice_index text.now 0) ≡ true }
    ensures value { result ≡ spec.number_len text.now }
    ensures within { (1 ≤ result) × (result ≤ length text.now) }
{
    let based = based_digits(text);
    if based > 0 {
        based + 2
    } else {
        digits_run(10, text)
    }
}

/// The token of the number that a numeral spells.
fn number_token(numeral: &[u8]) -> Token
    requires { numerals.IsNumeral numeral.now }
    ensures { result ≡ lexes.number_token (numerals.numeral_value numeral.now) }
{
    match read_number(numeral) {
        Some(number) => Token::Number(number),
        None => Token::TooWide,
    }
}

/// The number at the head of the text, which begins with a digit. The cost is its length.
#[tactic(auto, using(crate::proofs::Numbers::number_spelled))]
pub fn number(text: &[u8]) -> Piece
    requires { is_ascii_digit (slice_index text.now 0) ≡ true }
    ensures value { result ≡ spec.number text.now }
    ensures within { (1 ≤ result.len) × (result.len ≤ length text.now) }
{
    let len = number_len(text);
    let token = Some(number_token(&text[..len]));
    Piece { token, len }
}
