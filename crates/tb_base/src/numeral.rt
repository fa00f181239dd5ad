//! Numbers as texts spell them.
//!
//! A number is a run of decimal digits, or `0`, the letter of a base and a run of that base's
//! digits: `b` for 2, `o` for 8, `d` for 10, `x` and `h` for 16. The digits `a` to `f` may be in
//! either case, the base's letter only as it stands here. There is no sign, no blank and no
//! separator, and leading zeros are free. `IsNumeral` says which texts these are, and
//! `numeral_value` which number such a text spells.
ghost use Rattle.std.specs.Prelude.{◌≡◌, ◌<◌, ◌≤◌, ◌^◌, ℕ};
ghost use Rattle.std.specs.Fmt.{decimal};
ghost use Rattle.std.specs.Option.{SomeIff};
ghost use Rattle.std.specs.Str.Parse.{digits_value, AllDigits};
ghost use Rattle.tb_base.specs.Numeral.{IsNumeral, numeral_value, base_of};

/// The base that a letter names, or 0.
fn base_named(letter: u8) -> u32
    ensures value { result ≡ base_of letter }
    ensures bound { result ≤ 16 }
    ensures low { 0 < result → 1 < result }
{
    match letter {
        b'b' => 2,
        b'o' => 8,
        b'd' => 10,
        b'x' | b'h' => 16,
        _ => 0,
    }
}

/// The number that these digits spell in the base `radix`: `None` where one of them is no digit of
/// that base, or the number is `2 ^ 128` or more. No digits spell 0.
fn read_digits(radix: u32, digits: &[u8]) -> Option<u128>
    requires low { 2 ≤ radix }
    requires high { radix ≤ 16 }
    ensures { SomeIff result (AllDigits radix digits.now × (digits_value radix digits.now < 2 ^ 128))
        (digits_value radix digits.now) }
{
    let mut value: u128 = 0;
    for byte in digits {
        let digit = char::from(*byte).to_digit(radix)?;
        value = value
            .checked_mul(u128::from(radix))?
            .checked_add(u128::from(digit))?;
    }
    Some(value)
}

/// The number that the text spells, in one of the forms at the head of this module. `None` exactly
/// where the text is in none of them, or spells a number of `2 ^ 128` or more.
///
/// Takes no memory; the time is linear in the text's length.
pub fn read_number(text: &[u8]) -> Option<u128>
    ensures { SomeIff result (IsNumeral text.now × (numeral_value text.now < 2 ^ 128))
        (numeral_value text.now) }
{
    if text.len() >= 2 && text[0] == b'0' {
        let radix = base_named(text[1]);
        if radix > 0 {
            if text.len() == 2 {
                return None;
            }
            return read_digits(radix, &text[2..]);
        }
    }
    if text.is_empty() {
        return None;
    }
    read_digits(10, text)
}

/// A law: the decimal digits of a number below `2 ^ 128` are a spelling of it. So whatever
/// `put_decimal` writes, `read_number` reads back.
pub fn decimal_reads_back()
    ensures { (n : ℕ) → n < 2 ^ 128 → IsNumeral (decimal n) × (numeral_value (decimal n) ≡ n) }
{}
