//! The judgement of an expression where the signals' widths are known.
ghost use Rattle.std.specs.Prelude.{◌≡◌, ◌≤◌, ◌-◌, min, ◌∷◌, [], slice_index, map};
ghost use Rattle.std.specs.Int.Count.{count_leading_zeros};
ghost use Rattle.std.specs.List.{All};
ghost use Rattle.tb_base.specs.Row.{in_range, leading, row_signed, width_of, number_count};
ghost use Rattle.net_core.specs.Shapes.{literal_width, digit_count};
ghost use Rattle.net_core.specs.WidthRules.{judged, is_mux, holds_literal};
ghost use Rattle.net_core.specs.Signals.{info};
ghost use Rattle.fir_widths.specs.Judging.{seen, noted, judged_by, judged_literal, judged_apply, judged_select, judged_place, literal_out, summary};

use crate::shape::{Judged, Shape, Summary};
use net_core::{GroundExpr, SignalInfo};
use tb_base::{Op, result_width};

/// The judgement of a whole, from its own shape and from whether its parts break a rule.
fn judgement(shape: Shape, wide: bool, bad: bool) -> Judged
    ensures { seen result ≡ judged_by shape wide bad }
{
    Judged {
        shape,
        wide: shape.width() == 129 || wide,
        bad,
    }
}

/// The width at a place, cut to 129, or 0 where there is none.
fn width_at(widths: &[u8], k: u32) -> u8
    ensures value { result ≡ min 129 (slice_index widths.now k) }
    ensures most { result ≤ 129 }
{
    widths.get(k as usize).copied().unwrap_or(0).min(129)
}

/// Whether the signal of that number is signed.
fn is_signed(signals: &[SignalInfo], k: u32) -> bool
    ensures { result ≡ (info signals.now k).signed }
{
    match signals.get(k as usize) {
        Some(signal) => signal.signed,
        None => false,
    }
}

/// How many binary digits a number has.
fn digits(n: u128) -> u8
    ensures value { result ≡ digit_count n }
    ensures most { result ≤ 128 }
{
    (128 - n.leading_zeros()) as u8
}

/// The least width of at least 1 that holds a literal.
fn bits_for(signed: bool, negative: bool, magnitude: u128) -> u8
    ensures value { result ≡ literal_width signed negative magnitude }
    ensures most { result ≤ 129 }
{
    if !signed {
        digits(magnitude).max(1)
    } else if negative {
        digits(magnitude.saturating_sub(1)) + 1
    } else {
        digits(magnitude) + 1
    }
}

/// Whether a literal has a width that doesn't hold it.
fn is_literal_out(signed: bool, width: Option<u8>, negative: bool, magnitude: u128) -> bool
    ensures { result ≡ literal_out signed width negative magnitude }
{
    match width {
        None => false,
        Some(width) => magnitude != 0 && bits_for(signed, negative, magnitude) > width,
    }
}

fn judge_literal(signed: bool, width: Option<u8>, negative: bool, magnitude: u128) -> Judged
    ensures { seen result ≡ judged_literal signed width negative magnitude }
{
    let bits = match width {
        None => bits_for(signed, negative, magnitude),
        Some(width) => width.min(129),
    };
    judgement(
        Shape::new(signed, bits),
        false,
        is_literal_out(signed, width, negative, magnitude),
    )
}

/// Whether the numbers fit the width of the first operand.
fn is_in_range(op: Op, width: u8, n: u128, m: u128) -> bool
    ensures { result ≡ in_range op width n m }
{
    let wide = u128::from(width);
    match op {
        Op::Bits => m <= n && n < wide,
        Op::Head | Op::Tail => n <= wide,
        _ => true,
    }
}

/// Whether the row's result has a sign.
fn is_result_signed(op: Op, first: bool, second: bool) -> bool
    ensures { result ≡ row_signed op (leading op first second) }
{
    match op {
        Op::Add
        | Op::Sub
        | Op::Mul
        | Op::Div
        | Op::Rem
        | Op::Pad
        | Op::Shl
        | Op::Shr
        | Op::Dshl
        | Op::Dshr => first,
        Op::Mux => second,
        Op::AsSInt | Op::Cvt | Op::Neg => true,
        _ => false,
    }
}

/// The row's width for operands of these widths, of which it uses as many as it has.
fn row_bits(op: Op, signed: bool, widths: [u8; 3], nums: [u128; 2]) -> u8
    requires { All (λ n. n ≤ 129) widths }
    ensures value { result ≡ width_of op signed widths nums }
    ensures most { result ≤ 129 }
{
    result_width(op, signed, &widths[..op.operands()], &nums[..op.numbers()])
}

fn judge_apply(op: Op, parts: Summary, n: u128, m: u128) -> Judged
    ensures { seen result ≡ judged_apply op parts n m }
{
    let first = parts.first;
    let widths = [first.width(), parts.second.width(), parts.third.width()];
    let width = row_bits(op, first.signed(), widths, [n, m]);
    let signed = is_result_signed(op, first.signed(), parts.second.signed());
    let is_out = !is_in_range(op, first.width(), n, m) || (op == Op::Mux && first.width() > 1);
    judgement(Shape::new(signed, width), parts.wide, is_out || parts.bad)
}

fn judge_select(index: Judged, items: Summary) -> Judged
    ensures { seen result ≡ judged_select (seen index) items }
{
    judgement(
        Shape::new(items.first.signed(), items.widest.min(129)),
        index.wide || items.wide,
        index.bad || items.bad,
    )
}

/// The number at a place, or 0 where there is none.
fn number(nums: &[u128], k: usize) -> u128
    ensures { result ≡ slice_index nums.now k }
{
    nums.get(k).copied().unwrap_or(0)
}

/// What is known of no parts.
fn nothing() -> Summary
    ensures { result ≡ summary [] }
{
    let none = Shape::new(false, 0);
    Summary {
        first: none,
        second: none,
        third: none,
        widest: 0,
        wide: false,
        bad: false,
    }
}

/// One part more, behind `k` others.
fn note(parts: Summary, k: usize, part: Judged) -> Summary
    ensures { result ≡ noted k (seen part) parts }
{
    Summary {
        first: if k == 0 { part.shape } else { parts.first },
        second: if k == 1 { part.shape } else { parts.second },
        third: if k == 2 { part.shape } else { parts.third },
        widest: parts.widest.max(part.shape.width()),
        wide: parts.wide || part.wide,
        bad: parts.bad || part.bad,
    }
}

/// The judgement of an expression where `widths` has the signals' widths. The time is linear in its size; the recursion
/// is along its nesting.
#[cycle(judge)]
pub(crate) fn judge(signals: &[SignalInfo], widths: &[u8], expr: &GroundExpr) -> Judged
    ensures { seen result ≡ judged signals.now widths.now expr.now }
{
    match expr {
        GroundExpr::Read(signal) => judgement(
            Shape::new(is_signed(signals, signal.0), width_at(widths, signal.0)),
            false,
            false,
        ),
        GroundExpr::Lit {
            signed,
            width,
            negative,
            magnitude,
        } => judge_literal(*signed, *width, *negative, *magnitude),
        GroundExpr::Apply { op, args, nums } => {
            let parts = judge_all(signals, widths, args.as_slice());
            judge_apply(*op, parts, number(nums.items(), 0), number(nums.items(), 1))
        }
        GroundExpr::Select { index, items } => {
            let index = judge(signals, widths, index.get());
            judge_select(index, judge_all(signals, widths, items.as_slice()))
        }
        GroundExpr::IndexIs { index, .. } => {
            let index = judge(signals, widths, index.get());
            judgement(Shape::new(false, 1), index.wide, index.bad)
        }
    }
}

#[cycle(judge)]
fn judge_all(signals: &[SignalInfo], widths: &[u8], exprs: &[GroundExpr]) -> Summary
    ensures { result ≡ summary (map (judged signals.now widths.now) exprs.now) }
{
    let mut parts = nothing();
    for (k, expr) in exprs.iter().enumerate() {
        parts = note(parts, k, judge(signals, widths, expr));
    }
    parts
}
