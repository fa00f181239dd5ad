//! The parts and nodes that expressions give, counted without building them.
//!
//! A computed index copies what it indexes once for each element, so numbers grow with the product of
//! lengths: all end at one past the greatest limit.
ghost use Rattle.std.specs.Prelude.{◌≡◌, ℕ, ◌+◌, ◌*◌, nat_eq, if◌then◌else◌, List, map};
ghost use Rattle.tb_base.specs.Row.{row_signed};
ghost use Rattle.fir_flat.specs.Shapes.{FieldPlace, field_named, element, elements};
ghost use Rattle.fir_flat.specs.Values.{bound_named};
ghost use Rattle.fir_flat.specs.Measures.{Measure, measure, field_measure, part_measure, index_measure, applied_measure};
ghost use Rattle.fir_flat.specs.declared.kinds.Flow.TheVariants.{Fixed};
ghost use Rattle.fir_flat.specs.Counts.{cut};
ghost use Rattle.fir_flat.specs.Kinds.{kind_shape, seen, Finds, Weighs, Gathers, with_operand, name_measure};

use crate::counts::{product, sum};
use crate::kinds::{Flow, Kind, Known, Place};
use crate::scope::Scope;
use fir_ast::Expr;
use tb_base::Op;

/// An expression: its type, how it may be driven, the nodes of one ground part's value, and what it
/// takes to drive one ground part: so many connects, and so many parts round them.
#[derive(Clone, Copy)]
pub(crate) struct Weight<'a> {
    pub(crate) kind: Kind<'a>,
    pub(crate) flow: Flow,
    pub(crate) nodes: u64,
    pub(crate) times: u64,
    pub(crate) round: u64,
}

/// The operands of an operation: the first three, and the nodes of all.
#[derive(Clone, Copy)]
struct Operands<'a> {
    first: Weight<'a>,
    second: Weight<'a>,
    third: Weight<'a>,
    total: u64,
}

impl<'a> Operands<'a> {
    /// With the operand at place `k` besides.
    fn with(self, k: usize, next: Weight<'a>) -> Operands<'a>
        ensures { result ≡ with_operand k self.entry next.entry }
    {
        Operands {
            first: if k == 0 { next } else { self.first },
            second: if k == 1 { next } else { self.second },
            third: if k == 2 { next } else { self.third },
            total: sum(self.total, next.nodes),
        }
    }
}

/// Weighs an expression. The time is linear in the size of the expression, but for the look-ups of
/// fields.
#[cycle(weigh)]
pub(crate) fn weigh<'a>(known: &Scope<'a>, expr: &Expr) -> Weight<'a>
    ensures { Weighs (measure (seen known.now) expr.now) result }
{
    match expr {
        Expr::Ident(name) => weigh_name(known.find(name.bytes())),
        Expr::Part(of, name) => match of.get() {
            Expr::Ident(bundle) => weigh_field_named(known, bundle.bytes(), name.bytes()),
            of => weigh_field(weigh(known, of), name.bytes()),
        },
        Expr::At(of, _) => weigh_element(weigh(known, of.get())),
        Expr::Index(of, index) => {
            let of = weigh(known, of.get());
            weigh_index(of, weigh(known, index.get()))
        }
        Expr::Lit {
            signed,
            width: _,
            negative: _,
            magnitude: _,
        } => computed(Kind::Number(*signed), 1),
        Expr::Apply { op, args, nums: _ } => {
            weigh_apply(*op, weigh_operands(known, args.as_slice()))
        }
    }
}

#[cycle(weigh)]
fn weigh_operands<'a>(known: &Scope<'a>, args: &[Expr]) -> Operands<'a>
    ensures { Gathers (map (measure (seen known.now)) args.now) result }
{
    let none = computed(Kind::Empty, 1);
    let mut operands = Operands {
        first: none,
        second: none,
        third: none,
        total: 0,
    };
    let mut k = 0;
    while k < args.len() {
        let next = weigh(known, &args[k]);
        operands = operands.with(k, next);
        k += 1;
    }
    operands
}

fn weigh_name<'a>(name: Known<'a>) -> Weight<'a>
    ensures kind { kind_shape result.kind ≡ kind_shape name.entry.kind }
    ensures flow { result.flow ≡ name.entry.flow }
    ensures nodes { result.nodes ≡ 1 }
    ensures times { result.times ≡ 1 }
    ensures round { result.round ≡ 0 }
{
    Weight {
        kind: name.kind,
        flow: name.flow,
        nodes: 1,
        times: 1,
        round: 0,
    }
}

/// A value that nothing drives.
fn computed<'a>(kind: Kind<'a>, nodes: u64) -> Weight<'a>
    ensures kind { kind_shape result.kind ≡ kind_shape kind.entry }
    ensures flow { result.flow ≡ Fixed }
    ensures nodes { result.nodes ≡ nodes }
    ensures times { result.times ≡ 0 }
    ensures round { result.round ≡ 0 }
{
    Weight {
        kind,
        flow: Flow::Fixed,
        nodes,
        times: 0,
        round: 0,
    }
}

/// A field of an expression, at its place.
fn weigh_in_place<'a>(of: Weight<'a>, field: Place<'a>) -> Weight<'a>
    ensures { (f : FieldPlace) (m : Measure) → Finds f field.entry → Weighs m of.entry → Weighs (field_measure f m) result }
{
    let flow = if field.flip {
        of.flow.turned()
    } else {
        of.flow
    };
    Weight {
        kind: field.of,
        flow,
        ..of
    }
}

/// A field of an expression. The time is that of a look-up.
fn weigh_field<'a>(of: Weight<'a>, name: &[u8]) -> Weight<'a>
    ensures { (m : Measure) → Weighs m of.entry → Weighs (field_measure (field_named name.now m.ty) m) result }
{
    weigh_in_place(of, of.kind.field(name))
}

/// A field of a declared name. The time is that of a look-up.
fn weigh_field_named<'a>(known: &Scope<'a>, bundle: &[u8], name: &[u8]) -> Weight<'a>
    ensures { Weighs (field_measure (field_named name.now (bound_named bundle.now (seen known.now)).ty) (name_measure (bound_named bundle.now (seen known.now)))) result }
{
    let place = known.field(bundle, name);
    weigh_in_place(weigh_name(known.find(bundle)), place)
}

fn weigh_element<'a>(of: Weight<'a>) -> Weight<'a>
    ensures { (m : Measure) → Weighs m of.entry → Weighs (part_measure (element m.ty) m.flow m) result }
{
    Weight {
        kind: of.kind.element(),
        ..of
    }
}

/// The nodes of a choice between so many copies.
#[tactic(auto, using(crate::proofs::Cutting::cut_times))]
fn chosen_nodes(copies: u64, index: u64, of: u64) -> u64
    ensures { (i e : ℕ) → index ≡ cut i → of ≡ cut e → result ≡ cut (if nat_eq copies 0 then 1 else 1 + (i + copies * e)) }
{
    if copies == 0 {
        return 1;
    }
    sum(1, sum(index, product(copies, of)))
}

/// So many of them.
#[tactic(auto, using(crate::proofs::Cutting::cut_times))]
fn copied(copies: u64, of: u64) -> u64
    ensures { (e : ℕ) → of ≡ cut e → result ≡ cut (copies * e) }
{
    product(copies, of)
}

/// A When on an index round each of so many, and what is round them already.
#[tactic(auto, using(crate::proofs::Cutting::cut_times))]
fn round_copies(copies: u64, index: u64, round: u64) -> u64
    ensures { (i r : ℕ) → index ≡ cut i → round ≡ cut r → result ≡ cut (copies * (2 + (i + r))) }
{
    product(copies, sum(2, sum(index, round)))
}

fn weigh_index<'a>(of: Weight<'a>, index: Weight) -> Weight<'a>
    ensures { (m i : Measure) → Weighs m of.entry → Weighs i index.entry → Weighs (index_measure (elements m.ty) m i) result }
{
    let copies = u64::from(of.kind.elements());
    Weight {
        kind: of.kind.element(),
        flow: of.flow,
        nodes: chosen_nodes(copies, index.nodes, of.nodes),
        times: copied(copies, of.times),
        round: round_copies(copies, index.nodes, of.round),
    }
}

fn weigh_apply<'a>(op: Op, operands: Operands<'a>) -> Weight<'a>
    ensures { (ms : List Measure) → Gathers ms operands.entry → Weighs (applied_measure op ms) result }
{
    if op == Op::Mux {
        let nodes = sum(operands.second.nodes, operands.third.nodes);
        let nodes = sum(1, sum(operands.first.nodes, nodes));
        return computed(operands.second.kind, nodes);
    }
    let signed = has_sign(op, operands.first.kind.is_signed());
    computed(Kind::Number(signed), sum(1, operands.total))
}

/// Whether the row's result has a sign, where the first operand has this one.
pub(crate) fn has_sign(op: Op, first: bool) -> bool
    ensures { result ≡ row_signed op first }
{
    match op {
        Op::Add
        | Op::Sub
        | Op::Mul
        | Op::Div
        | Op::Rem
        | Op::Pad
        | Op::Shl
        | Op::Shr
        | Op::Dshl
        | Op::Dshr
        | Op::Mux => first,
        Op::AsSInt | Op::Cvt | Op::Neg => true,
        _ => false,
    }
}
