//! Values of expressions. Nothing is allocated.
ghost use Rattle.std.specs.Prelude.{◌≡◌, ℕ, pos, ◌≤◌, ◌<◌, ◌∷◌, [], true, max, nat_eq, length, map, take, slice_index, unwrap_or, if◌then◌else◌};
ghost use Rattle.tb_base.specs.Word.{cut, low_bits};
ghost use Rattle.tb_base.specs.Row.{no_word, applied, flag};
ghost use Rattle.net_core.specs.Signals.{info, given_width};
ghost use Rattle.net_core.specs.Shapes.{digit_count, literal_width};
ghost use Rattle.net_core.specs.Values.{value, word_at, literal_value};
ghost use Rattle.sim_plain.specs.Words.{at, InWidths, within, held, computed, picked_word};

use net_core::{GroundExpr, SignalInfo};
use tb_base::{Bits, Op, Width, apply};

/// The number at a place, and 0 where there is none.
pub(crate) fn number_at(numbers: &[u128], x: usize) -> u128
    ensures { result ≡ at numbers.now x }
{
    match numbers.get(x) {
        Some(raw) => *raw,
        None => 0,
    }
}

/// The bits of no width.
pub(crate) fn nothing() -> Bits
    ensures { result ≡ no_word }
{
    Bits::new(Width::none(), false, 0)
}

/// A width of at most 128, and 0 in place of any other.
pub(crate) fn width_within(n: u8) -> Width
    ensures { result ≡ within n }
{
    match Width::new(n as u128) {
        Some(width) => width,
        None => Width::none(),
    }
}

/// How many binary digits a number has.
fn digits(n: u128) -> u8
    ensures value { result ≡ digit_count n }
    ensures most { result ≤ 128 }
{
    (128 - n.leading_zeros()) as u8
}

/// The least width of at least 1 that holds a literal.
fn bits_for(signed: bool, negative: bool, magnitude: u128) -> u8
    ensures { result ≡ literal_width signed negative magnitude }
{
    if !signed {
        digits(magnitude).max(1)
    } else if negative {
        digits(magnitude.saturating_sub(1)) + 1
    } else {
        digits(magnitude) + 1
    }
}

/// The value of a literal, modulo 2 ^ 128.
fn literal_word(negative: bool, magnitude: u128) -> u128
    ensures { result ≡ low_bits 128 (literal_value negative magnitude) }
{
    if negative {
        0u128.wrapping_sub(magnitude)
    } else {
        magnitude
    }
}

/// The value of a literal, in the least width that holds it where none is written.
fn literal(signed: bool, width: Option<u8>, negative: bool, magnitude: u128) -> Bits
    ensures { result ≡ cut (within (unwrap_or width (literal_width signed negative magnitude))) signed (literal_value negative magnitude) }
{
    let width = width_within(width.unwrap_or(bits_for(signed, negative, magnitude)));
    Bits::new(width, signed, literal_word(negative, magnitude))
}

/// The value of a signal.
pub(crate) fn read(signals: &[SignalInfo], values: &[u128], x: usize) -> Bits
    ensures { result ≡ cut (within (given_width (info signals.now x))) (info signals.now x).signed (pos (at values.now x)) }
{
    let raw = number_at(values, x);
    match signals.get(x) {
        Some(signal) => Bits::new(width_within(signal.width.unwrap_or(0)), signal.signed, raw),
        None => Bits::new(Width::none(), false, raw),
    }
}

/// What the operation gives for the first so many of the three operands.
fn row(op: Op, count: usize, a: Bits, b: Bits, c: Bits, nums: &[u128]) -> Bits
    ensures fits { count ≤ 3 → result ≡ unwrap_or (applied op (take count (a ∷ b ∷ c ∷ [])) nums.now) no_word }
    ensures more { 3 < count → result ≡ no_word }
{
    let words = [a, b, c];
    if count > 3 {
        return nothing();
    }
    match apply(op, &words[..count], nums) {
        Some(word) => word,
        None => nothing(),
    }
}

/// What is known of the first items of a list: the first of them, the one at the wanted place, and the greatest width.
#[derive(Clone, Copy)]
struct Picked {
    first: Bits,
    wanted: Bits,
    widest: Width,
}

/// One item more.
fn note(so_far: Picked, k: usize, place: u128, word: Bits) -> Picked
    ensures first { result.first ≡ (if nat_eq k 0 then word else so_far.first) }
    ensures wanted { result.wanted ≡ (if nat_eq k place then word else so_far.wanted) }
    ensures widest { result.widest ≡ max so_far.widest word.width }
{
    let width = word.width();
    Picked {
        first: if k == 0 { word } else { so_far.first },
        wanted: if k as u128 == place {
            word
        } else {
            so_far.wanted
        },
        widest: if so_far.widest.get() < width.get() {
            width
        } else {
            so_far.widest
        },
    }
}

/// The value of an expression that fits; of any other, some bits.
#[cycle(eval)]
pub(crate) fn computed(e: &GroundExpr, signals: &[SignalInfo], values: &[u128]) -> Bits
    ensures { result ≡ computed signals.now (at values.now) e.now }
{
    match e {
        GroundExpr::Read(signal) => read(signals, values, signal.0 as usize),
        GroundExpr::Lit {
            signed,
            width,
            negative,
            magnitude,
        } => literal(*signed, *width, *negative, *magnitude),
        GroundExpr::Apply { op, args, nums } => {
            let a = operand(args.as_slice(), 0, signals, values);
            let b = operand(args.as_slice(), 1, signals, values);
            let c = operand(args.as_slice(), 2, signals, values);
            row(*op, args.len(), a, b, c, nums.items())
        }
        GroundExpr::Select { index, items } => {
            let place = computed(index.get(), signals, values).raw();
            pick(items.as_slice(), place, signals, values)
        }
        GroundExpr::IndexIs { index, place } => {
            let index = computed(index.get(), signals, values).raw();
            Bits::new(width_within(1), false, (index == *place as u128) as u128)
        }
    }
}

/// The value of the operand at a place, and no bits where there is none.
#[cycle(eval)]
fn operand(args: &[GroundExpr], k: usize, signals: &[SignalInfo], values: &[u128]) -> Bits
    ensures { result ≡ word_at (map (λ a. computed signals.now (at values.now) a) args.now) k }
{
    match args.get(k) {
        Some(arg) => computed(arg, signals, values),
        None => nothing(),
    }
}

/// The item at a place, in the width of the widest. Past the end it is 0.
#[cycle(eval)]
fn pick(items: &[GroundExpr], place: u128, signals: &[SignalInfo], values: &[u128]) -> Bits
    ensures { result ≡ picked_word (map (λ a. computed signals.now (at values.now) a) items.now) place }
{
    let mut picked = Picked {
        first: nothing(),
        wanted: nothing(),
        widest: Width::none(),
    };
    for k in 0..items.len() {
        let word = computed(&items[k], signals, values);
        picked = note(picked, k, place, word);
    }
    Bits::new(picked.widest, picked.first.signed(), picked.wanted.word())
}

/// The value of an expression, where `values` has the bits of each signal. It takes time linear in the expression's size.
pub fn eval(e: &GroundExpr, signals: &[SignalInfo], values: &[u128]) -> Bits
    requires widths { InWidths signals.now (at values.now) }
    requires fits { (held signals.now (at values.now) e.now).fits ≡ true }
    ensures { result ≡ value signals.now e.now (at values.now) }
{
    computed(e, signals, values)
}
