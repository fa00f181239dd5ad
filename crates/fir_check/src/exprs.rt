//! Expressions, judged: what each stands for, and whether some level of it breaks a rule.
//!
//! One pass answers for the three rules that speak of levels of expressions. Recursion goes along the
//! nesting of an expression; the operands of an operation are judged by a loop.
ghost use Rattle.std.specs.Prelude.{◌≡◌, ◌||◌, if◌then◌else◌, Bool, false, is_none, option_map, option_and_then};
ghost use Rattle.tb_base.specs.Row.{row_signed, signs_fit};
ghost use Rattle.fir_check.specs.Scopes.{field_thing, element_thing, visible, meaning_of, somewhere};
ghost use Rattle.fir_check.specs.Rules.{fails, lacks_field, has_element, wrong_index, unknown_level, wrong_level, clock_level};
ghost use Rattle.fir_check.specs.Types.{is_bundle};
ghost use Rattle.fir_check.specs.Seen.{meant};
ghost use Rattle.fir_check.specs.KnownSeen.{seen};
ghost use Rattle.fir_check.specs.Judging.{Judges, Gathers, meaning_seen, with_operand, applied_given, wrong_given, clock_given};

use crate::scope::Scope;
use crate::thing::{
    Flow, Thing, differ, fails_branch, fails_bundle, fails_clockless, fails_condition,
    fails_element, fails_operand, fails_uint, fails_vector, is_signed_thing,
};
use crate::type_table::TypeTable;
use crate::types::is_bundle;
use fir_ast::Expr;
use std::alloc::Global;
use tb_base::Op;

/// What an expression stands for, and which rules some level of it breaks.
#[derive(Clone, Copy)]
pub struct Judgement {
    /// What it stands for, if its names are known and its parts are there.
    pub meaning: Option<Thing>,
    /// Whether a name in it isn't known, or a bundle has no such field.
    pub unknown: bool,
    /// Whether a level of it is of the wrong kind.
    pub wrong: bool,
    /// Whether a branch of a mux in it has a Clock in it.
    pub clock: bool,
}

/// Judges an expression where a statement stands. The time is linear in the size of the expression,
/// but for the look-ups of names, and for one comparison of two different types.
pub fn judge(alloc: Global, types: &TypeTable, scope: &Scope, expr: &Expr) -> Judgement
    ensures meaning { option_map (meant types.now) result.meaning ≡ meaning_of (seen types.now scope.now) expr.now }
    ensures unknown { result.unknown ≡ somewhere unknown_level (seen types.now scope.now) expr.now }
    ensures wrong { result.wrong ≡ somewhere wrong_level (seen types.now scope.now) expr.now }
    ensures clock { result.clock ≡ somewhere clock_level (seen types.now scope.now) expr.now }
{
    judge_expr(alloc, types, scope, expr, false)
}

/// Judges an expression in whose statement something is of the wrong kind already, if `wrong` says so:
/// then no types are compared, and the time is linear in the size of the expression, but for the
/// look-ups of names.
pub fn judge_behind(
    alloc: Global,
    types: &TypeTable,
    scope: &Scope,
    expr: &Expr,
    wrong: bool,
) -> Judgement
    ensures meaning { option_map (meant types.now) result.meaning ≡ meaning_of (seen types.now scope.now) expr.now }
    ensures unknown { result.unknown ≡ somewhere unknown_level (seen types.now scope.now) expr.now }
    ensures wrong { result.wrong ≡ somewhere wrong_level (seen types.now scope.now) expr.now || wrong }
    ensures clock { result.clock ≡ somewhere clock_level (seen types.now scope.now) expr.now }
{
    judge_expr(alloc, types, scope, expr, wrong)
}

#[cycle(judge)]
fn judge_expr(
    alloc: Global,
    types: &TypeTable,
    scope: &Scope,
    expr: &Expr,
    wrong: bool,
) -> Judgement
    ensures { Judges types.now (seen types.now scope.now) wrong expr.now result }
{
    match expr {
        Expr::Ident(name) => judge_name(types, scope, name.bytes(), wrong),
        Expr::Part(of, name) => {
            let of = judge_expr(alloc, types, scope, of.get(), wrong);
            judge_part(types, of, name.bytes())
        }
        Expr::At(of, at) => {
            let of = judge_expr(alloc, types, scope, of.get(), wrong);
            judge_at(types, of, *at)
        }
        Expr::Index(of, at) => {
            let of = judge_expr(alloc, types, scope, of.get(), wrong);
            let at = judge_expr(alloc, types, scope, at.get(), of.wrong);
            judge_index(types, of, at)
        }
        Expr::Lit {
            signed,
            width: _,
            negative: _,
            magnitude: _,
        } => unbroken(Some(Thing::new(types.of_sign(*signed), Flow::Fixed)), wrong),
        Expr::Apply { op, args, nums: _ } => {
            let operands = judge_operands(alloc, types, scope, args.as_slice(), wrong);
            judge_apply(alloc, types, *op, operands)
        }
    }
}

/// What no level of is broken, where this says whether something in front of it is of the wrong kind.
fn unbroken(meaning: Option<Thing>, wrong: bool) -> Judgement
    ensures meaning { result.meaning ≡ meaning }
    ensures unknown { result.unknown ≡ false }
    ensures wrong { result.wrong ≡ wrong }
    ensures clock { result.clock ≡ false }
{
    Judgement {
        meaning,
        unknown: false,
        wrong,
        clock: false,
    }
}

fn judge_name(types: &TypeTable, scope: &Scope, name: &[u8], wrong: bool) -> Judgement
    ensures meaning { meaning_seen types.now result ≡ option_and_then (λ k. k.meaning) (visible name.now (seen types.now scope.now)) }
    ensures unknown { result.unknown ≡ is_none (visible name.now (seen types.now scope.now)) }
    ensures wrong { result.wrong ≡ wrong }
    ensures clock { result.clock ≡ false }
{
    match scope.visible(name) {
        None => Judgement {
            meaning: None,
            unknown: true,
            wrong,
            clock: false,
        },
        Some(meaning) => unbroken(meaning, wrong),
    }
}

fn judge_part(types: &TypeTable, of: Judgement, name: &[u8]) -> Judgement
    ensures meaning { meaning_seen types.now result ≡ option_and_then (field_thing name.now) (meaning_seen types.now of) }
    ensures unknown { result.unknown ≡ lacks_field name.now (meaning_seen types.now of) || of.unknown }
    ensures wrong { result.wrong ≡ fails (λ t. is_bundle t.ty) (meaning_seen types.now of) || of.wrong }
    ensures clock { result.clock ≡ of.clock }
{
    match of.meaning {
        None => of,
        Some(thing) => {
            let field = thing.field(types, name);
            let bundle = is_bundle(types.ty(thing.number));
            Judgement {
                meaning: field,
                unknown: (bundle && field.is_none()) || of.unknown,
                wrong: !bundle || of.wrong,
                clock: of.clock,
            }
        }
    }
}

/// Any element of what is a vector.
fn element(types: &TypeTable, meaning: Option<Thing>) -> Option<Thing>
    ensures { option_map (meant types.now) result ≡ option_and_then element_thing (option_map (meant types.now) meaning) }
{
    match meaning {
        None => None,
        Some(thing) => thing.element(types),
    }
}

fn judge_at(types: &TypeTable, of: Judgement, at: u128) -> Judgement
    ensures meaning { meaning_seen types.now result ≡ option_and_then element_thing (meaning_seen types.now of) }
    ensures unknown { result.unknown ≡ of.unknown }
    ensures wrong { result.wrong ≡ fails (has_element at) (meaning_seen types.now of) || of.wrong }
    ensures clock { result.clock ≡ of.clock }
{
    Judgement {
        meaning: element(types, of.meaning),
        unknown: of.unknown,
        wrong: fails_element(types, of.meaning, at) || of.wrong,
        clock: of.clock,
    }
}

/// An index, where `at` was judged behind `of`.
fn judge_index(types: &TypeTable, of: Judgement, at: Judgement) -> Judgement
    ensures meaning { meaning_seen types.now result ≡ option_and_then element_thing (meaning_seen types.now of) }
    ensures unknown { result.unknown ≡ of.unknown || at.unknown }
    ensures wrong { result.wrong ≡ wrong_index (meaning_seen types.now of) (meaning_seen types.now at) || at.wrong }
    ensures clock { result.clock ≡ of.clock || at.clock }
{
    Judgement {
        meaning: element(types, of.meaning),
        unknown: of.unknown || at.unknown,
        wrong: (fails_vector(types, of.meaning) || fails_uint(types, at.meaning)) || at.wrong,
        clock: of.clock || at.clock,
    }
}

/// What is gathered of an operation's operands.
#[derive(Clone, Copy)]
struct Operands {
    first: Option<Thing>,
    second: Option<Thing>,
    third: Option<Thing>,
    all_known: bool,
    /// Whether one may be no operand of an operation other than a mux.
    unfit: bool,
    /// Whether one behind the first has a Clock in it.
    clocked: bool,
    unknown: bool,
    wrong: bool,
    clock: bool,
}

impl Operands {
    /// With the operand at place `k` besides, which stands behind them.
    fn with(self, types: &TypeTable, k: usize, next: Judgement) -> Operands
        ensures { result ≡ with_operand types.now k self next }
    {
        let clocked = fails_clockless(types, next.meaning);
        Operands {
            first: chosen(k == 0, next.meaning, self.first),
            second: chosen(k == 1, next.meaning, self.second),
            third: chosen(k == 2, next.meaning, self.third),
            all_known: self.all_known & next.meaning.is_some(),
            unfit: self.unfit | fails_operand(types, next.meaning),
            clocked: self.clocked | ((k != 0) & clocked),
            unknown: self.unknown | next.unknown,
            wrong: self.wrong | next.wrong,
            clock: self.clock | next.clock,
        }
    }
}

fn chosen(is_here: bool, here: Option<Thing>, there: Option<Thing>) -> Option<Thing>
    ensures { result ≡ (if is_here then here else there) }
{
    if is_here { here } else { there }
}

#[cycle(judge)]
fn judge_operands(
    alloc: Global,
    types: &TypeTable,
    scope: &Scope,
    args: &[Expr],
    wrong: bool,
) -> Operands
    ensures { Gathers types.now (seen types.now scope.now) wrong args.now result }
{
    let mut operands = Operands {
        first: None,
        second: None,
        third: None,
        all_known: true,
        unfit: false,
        clocked: false,
        unknown: false,
        wrong,
        clock: false,
    };
    let mut k = 0;
    while k < args.len() {
        let next = judge_expr(alloc, types, scope, &args[k], operands.wrong);
        operands = operands.with(types, k, next);
        k += 1;
    }
    operands
}

/// Whether the signs of the operands fit the row.
fn do_signs_fit(op: Op, x: bool, y: bool, z: bool) -> bool
    ensures { result ≡ signs_fit op x y z }
{
    match op {
        Op::Dshl | Op::Dshr => !y,
        Op::Mux => !x && y == z,
        _ => op.operands() != 2 || x == y,
    }
}

/// Whether the row's result has a sign, where the first operand has this one.
fn has_sign(op: Op, first: bool) -> bool
    ensures { result ≡ row_signed op first }
{
    match op {
        Op::Add
        | Op::Sub
        | Op::Mul
        | Op::Div
        | Op::Rem
        | Op::Pad
        | Op::Shl
        | Op::Shr
        | Op::Dshl
        | Op::Dshr
        | Op::Mux => first,
        Op::AsSInt | Op::Cvt | Op::Neg => true,
        _ => false,
    }
}

/// What an operation stands for.
fn applied(types: &TypeTable, op: Op, operands: Operands) -> Option<Thing>
    ensures { option_map (meant types.now) result ≡ applied_given op (option_map (meant types.now) operands.first) (option_map (meant types.now) operands.second) }
{
    match op {
        Op::Mux => match operands.second {
            None => None,
            Some(taken) => Some(Thing::new(taken.number, Flow::Fixed)),
        },
        _ => {
            let signed = has_sign(op, is_signed_thing(types, operands.first));
            Some(Thing::new(types.of_sign(signed), Flow::Fixed))
        }
    }
}

/// Whether the operands are of the wrong kind.
fn has_wrong_operands(alloc: Global, types: &TypeTable, op: Op, operands: Operands) -> bool
    ensures { result ≡ wrong_given types.now op operands }
{
    match op {
        Op::Mux => {
            fails_condition(types, operands.first)
                || fails_branch(types, operands.second)
                || fails_branch(types, operands.third)
                || differ(alloc, types, operands.second, operands.third)
        }
        _ => {
            let x = is_signed_thing(types, operands.first);
            let y = is_signed_thing(types, operands.second);
            let z = is_signed_thing(types, operands.third);
            operands.unfit || (operands.all_known && !do_signs_fit(op, x, y, z))
        }
    }
}

/// An operation. Types are compared only where no operand is of the wrong kind.
fn judge_apply(alloc: Global, types: &TypeTable, op: Op, operands: Operands) -> Judgement
    ensures meaning { meaning_seen types.now result ≡ applied_given op (option_map (meant types.now) operands.first) (option_map (meant types.now) operands.second) }
    ensures unknown { result.unknown ≡ operands.unknown }
    ensures wrong { result.wrong ≡ operands.wrong || wrong_given types.now op operands }
    ensures clock { result.clock ≡ clock_given op operands.clocked || operands.clock }
{
    Judgement {
        meaning: applied(types, op, operands),
        unknown: operands.unknown,
        wrong: operands.wrong || has_wrong_operands(alloc, types, op, operands),
        clock: (op == Op::Mux && operands.clocked) || operands.clock,
    }
}
