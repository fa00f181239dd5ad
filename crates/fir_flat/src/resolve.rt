//! Expressions of the text, with their names and places looked up.
//!
//! A vector of no elements may be of any type, since it has no ground parts. What is selected of an
//! element that isn't there is told by its type alone: no ground part of that type is listed before it
//! is known which of its parts is used.
ghost use Rattle.std.specs.Prelude.{◌≡◌, ◌<◌, ◌++◌, ◌∷◌, [], ℕ, List, false, true, length, map, slice_index, slice_index_or, if◌then◌else◌, IfOk, OnOk};
ghost use Rattle.net_core.specs.declared.tree.GroundExpr.TheVariants as to;
ghost use Rattle.fir_flat.specs.Counts.{cut};
ghost use Rattle.fir_flat.specs.Values.{Value, value, named, bound_named, field_of, in_place, element_of, inside, indexed, chosen, operand, computed, number, leaf_signed, turned};
ghost use Rattle.fir_flat.specs.Kinds.{kind_shape, bound_of, seen, Finds};
ghost use Rattle.fir_flat.specs.Shapes.{FieldPlace, size};
ghost use Rattle.fir_flat.specs.Worths.{ends_of};
ghost use Rattle.fir_flat.specs.declared.worth.Worth.TheVariants as worth;
ghost use Rattle.fir_flat.specs.Resolving.{Refers, Resolves, Paired, LiesIn, Undriven, Given, plain_value};

use crate::counts::{exact, product};
use crate::kinds::{Flow, Kind, Known, Place};
use crate::partners::partners_of;
use crate::parts::parts_of_kind;
use crate::scope::Scope;
use crate::weights::has_sign;
use crate::worth::Worth;
use fir_ast::Expr;
use net_core::{Ground, GroundExpr};
use sqlite_items::{Boxed, Items};
use std::alloc::Global;
use tb_base::{Memory, Op, Seq};

/// An expression of which a part may still be selected: its type, how it may be driven, and its ground
/// parts.
#[derive(Drop)]
pub(crate) struct Reference<'a> {
    kind: Kind<'a>,
    flow: Flow,
    worth: Worth,
    /// Whether it is a part of an element that isn't there. Then `worth` is that of two ground parts:
    /// what each UInt of it is worth, and what each SInt.
    absent: bool,
}

/// An expression that is used: its type, how it may be driven, and its ground parts. Of a ground part
/// past the type's, for which only a circuit that breaks a rule asks, the answer is want of memory.
#[derive(Drop)]
pub(crate) struct Resolved<'a> {
    pub(crate) kind: Kind<'a>,
    pub(crate) flow: Flow,
    /// The number of ground parts.
    size: u64,
    worth: Worth,
}

/// The operands of an operation: whether the first is an SInt, and the ground parts of each.
#[derive(Drop)]
struct Operands {
    signed: bool,
    worths: Vec<Worth>,
}

impl<'a> Resolved<'a> {
    /// The value of the ground part at place `k`. The time is linear in its size.
    pub(crate) fn part(&self, alloc: Global, k: u32) -> Result<GroundExpr, Memory>
        ensures { (v : Value) → Resolves v self.now → IfOk result (λ e. e ≡ v.part k) }
    {
        if u64::from(k) >= self.size {
            return Err(Memory);
        }
        self.worth.part(alloc, k)
    }

    /// Writes the statements of a line that drive the ground part at place `k` with the value, or
    /// invalidate it. The time is linear in their size.
    pub(crate) fn drive(
        &self,
        alloc: Global,
        line: u32,
        k: u32,
        value: &Option<GroundExpr>,
        out: &mut Vec<Ground>,
    ) -> Result<(), Memory>
        ensures { (v : Value) → Resolves v self.now → OnOk result (out.new.items ≡ out.old.items ++ v.drive line k value.now) }
    {
        if u64::from(k) >= self.size {
            return Err(Memory);
        }
        self.worth.drive(alloc, line, k, value, out)
    }
}

/// Looks up the names and places of an expression. The time is linear in its size, but for the
/// look-ups of fields and the ground parts of muxes.
#[cycle(resolve)]
pub(crate) fn resolve<'a>(
    alloc: Global,
    known: &Scope<'a>,
    expr: &Expr,
) -> Result<Reference<'a>, Memory>
    ensures { IfOk result (Refers (value (seen known.now) expr.now)) }
{
    match expr {
        Expr::Ident(name) => Ok(resolve_name(known.find(name.bytes()))),
        Expr::Part(of, name) => match of.get() {
            Expr::Ident(bundle) => {
                resolve_field_named(alloc, known, bundle.bytes(), name.bytes())
            }
            of => resolve_field(alloc, resolve(alloc, known, of)?, name.bytes()),
        },
        Expr::At(of, place) => {
            let of = resolve(alloc, known, of.get())?;
            resolve_element(alloc, of, *place)
        }
        Expr::Index(of, index) => {
            let of = resolve(alloc, known, of.get())?;
            let index = resolve(alloc, known, index.get())?;
            resolve_index(alloc, of, index)
        }
        Expr::Lit {
            signed,
            width,
            negative,
            magnitude,
        } => Ok(resolve_literal(*signed, *width, *negative, *magnitude)),
        Expr::Apply { op, args, nums } => {
            let nums = nums.copy(alloc)?;
            match op {
                Op::Mux => {
                    let cond = resolve_operand(alloc, known, args.as_slice(), 0)?;
                    let taken = resolve_operand(alloc, known, args.as_slice(), 1)?;
                    let other = resolve_operand(alloc, known, args.as_slice(), 2)?;
                    resolve_mux(alloc, cond, taken, other, nums)
                }
                _ => {
                    let operands = resolve_operands(alloc, known, args.as_slice())?;
                    Ok(resolve_operation(*op, operands, nums))
                }
            }
        }
    }
}

/// The operand at a place. What isn't there, which breaks a rule, has no ground part.
#[cycle(resolve)]
fn resolve_operand<'a>(
    alloc: Global,
    known: &Scope<'a>,
    args: &[Expr],
    k: usize,
) -> Result<Reference<'a>, Memory>
    ensures { IfOk result (Refers (operand k (map (value (seen known.now)) args.now))) }
{
    if k < args.len() {
        return resolve(alloc, known, &args[k]);
    }
    Ok(Reference {
        kind: Kind::Empty,
        flow: Flow::Fixed,
        worth: Worth::Missing,
        absent: false,
    })
}

#[cycle(resolve)]
fn resolve_operands<'a>(alloc: Global, known: &Scope<'a>, args: &[Expr]) -> Result<Operands, Memory>
    ensures { IfOk result (Given (map (value (seen known.now)) args.now)) }
{
    let mut operands = Operands {
        signed: false,
        worths: Vec::new(alloc),
    };
    let mut k = 0;
    while k < args.len() {
        let next = resolve(alloc, known, &args[k])?;
        operands.add(alloc, next)?;
        k += 1;
    }
    Ok(operands)
}

/// Looks up the names and places of an expression that is used, as `resolve`.
pub(crate) fn resolve_used<'a>(
    alloc: Global,
    known: &Scope<'a>,
    expr: &Expr,
) -> Result<Resolved<'a>, Memory>
    ensures { IfOk result (Resolves (value (seen known.now) expr.now)) }
{
    resolve(alloc, known, expr)?.settled(alloc)
}

/// The value of an expression's first ground part.
pub(crate) fn resolve_ground(
    alloc: Global,
    known: &Scope,
    expr: &Expr,
) -> Result<GroundExpr, Memory>
    ensures { IfOk result (λ e. e ≡ (value (seen known.now) expr.now).part 0) }
{
    resolve_used(alloc, known, expr)?.part(alloc, 0)
}

/// Whether it is known that nothing is written where the expression is driven: no ground part of it
/// is listed.
pub(crate) fn is_undriven(alloc: Global, known: &Scope, expr: &Expr) -> Result<bool, Memory>
    ensures { IfOk result (λ b. b ≡ true → Undriven (value (seen known.now) expr.now)) }
{
    match expr {
        Expr::Lit { .. } => Ok(true),
        Expr::Apply { .. } => Ok(true),
        _ => Ok(resolve(alloc, known, expr)?.is_undriven()),
    }
}

impl Operands {
    fn add(&mut self, alloc: Global, next: Reference) -> Result<(), Memory>
        ensures { (vs : List Value) (v : Value) → Given vs self.old → Refers v next.entry → OnOk result (Given (vs ++ v ∷ []) self.new) }
    {
        let signed = next.kind.is_signed();
        let worth = ground_worth(alloc, next)?;
        self.signed = self.sign_with(signed);
        self.worths.push(worth)?;
        Ok(())
    }

    /// Whether the first operand is an SInt, where a further one is or isn't.
    fn sign_with(&self, next: bool) -> bool
        ensures first { length self.now.worths.items ≡ 0 → result ≡ next }
        ensures further { 0 < length self.now.worths.items → result ≡ self.now.signed }
    {
        if self.worths.is_empty() {
            next
        } else {
            self.signed
        }
    }
}

/// What stands for an operand, of which the first ground part counts.
fn ground_worth(alloc: Global, operand: Reference) -> Result<Worth, Memory>
    ensures { (v : Value) → Refers v operand.entry → IfOk result (λ w. (ends_of w).part 0 ≡ v.part 0) }
{
    let settled = operand.settled(alloc)?;
    if settled.size == 0 {
        return Err(Memory);
    }
    Ok(settled.worth)
}

fn resolve_name<'a>(name: Known<'a>) -> Reference<'a>
    ensures { Refers (named (bound_of name.entry)) result }
{
    Reference {
        kind: name.kind,
        flow: name.flow,
        worth: Worth::Named(name.first),
        absent: false,
    }
}

/// Whether each ground part of a type is an SInt.
fn signs_of(alloc: Global, kind: Kind) -> Result<Vec<bool>, Memory>
    ensures { IfOk result (λ signs. (k : ℕ) → slice_index_or signs.items k false ≡ leaf_signed (kind_shape kind.entry) k) }
{
    let mut signs = Vec::new(alloc);
    let parts = parts_of_kind(alloc, kind)?;
    for part in &parts {
        signs.push(part.signed)?;
    }
    Ok(signs)
}

impl<'a> Reference<'a> {
    /// The expression, of which no part is selected any more. Of an element that isn't there the time
    /// is linear in the ground parts.
    pub(crate) fn settled(self, alloc: Global) -> Result<Resolved<'a>, Memory>
        ensures { (v : Value) → Refers v self.entry → IfOk result (Resolves v) }
    {
        let Reference {
            kind,
            flow,
            worth,
            absent,
        } = self;
        let size = kind.size();
        if !absent {
            return Ok(Resolved {
                kind,
                flow,
                size,
                worth,
            });
        }
        exact(size)?;
        let signs = signs_of(alloc, kind)?;
        let of = Boxed::new(alloc, worth)?;
        Ok(Resolved {
            kind,
            flow,
            size,
            worth: Worth::BySign {
                of,
                signs: Seq::of(signs),
            },
        })
    }

    /// A part of a type that stands behind so many ground parts.
    fn behind(
        self,
        alloc: Global,
        kind: Kind<'a>,
        flow: Flow,
        before: u64,
    ) -> Result<Reference<'a>, Memory>
        ensures { (v : Value) (n : ℕ) → Refers v self.entry → before ≡ cut n → LiesIn v.ty n (kind_shape kind.entry) → IfOk result (Refers (inside (kind_shape kind.entry) flow n v)) }
    {
        if self.absent {
            return Ok(Reference {
                kind,
                flow,
                worth: self.worth,
                absent: true,
            });
        }
        let before = exact(before)?;
        let of = Boxed::new(alloc, self.worth)?;
        Ok(Reference {
            kind,
            flow,
            worth: Worth::Behind(before, of),
            absent: false,
        })
    }

    /// Whether it is known that nothing is written where it is driven.
    pub(crate) fn is_undriven(&self) -> bool
        ensures { (v : Value) → Refers v self.now → result ≡ true → Undriven v }
    {
        self.absent && matches!(self.worth, Worth::Missing)
    }
}

/// A field of an expression, at its place.
fn put_in_place<'a>(
    alloc: Global,
    of: Reference<'a>,
    place: Place<'a>,
) -> Result<Reference<'a>, Memory>
    ensures { (v : Value) (f : FieldPlace) → Refers v of.entry → Finds f place.entry → LiesIn v.ty f.before f.of → IfOk result (Refers (in_place f v)) }
{
    let flow = flow_at(place, of.flow);
    of.behind(alloc, place.of, flow, place.before)
}

/// How a field may be driven, where its bundle may be driven so.
fn flow_at(place: Place, flow: Flow) -> Flow
    ensures { result ≡ (if place.entry.flip then turned flow else flow) }
{
    if place.flip { flow.turned() } else { flow }
}

/// A field of an expression. The time is that of a look-up.
fn resolve_field<'a>(alloc: Global, of: Reference<'a>, name: &[u8]) -> Result<Reference<'a>, Memory>
    ensures { (v : Value) → Refers v of.entry → IfOk result (Refers (field_of name.now v)) }
{
    let place = of.kind.field(name);
    put_in_place(alloc, of, place)
}

/// A field of a declared name. The time is that of a look-up.
fn resolve_field_named<'a>(
    alloc: Global,
    known: &Scope<'a>,
    bundle: &[u8],
    name: &[u8],
) -> Result<Reference<'a>, Memory>
    ensures { IfOk result (Refers (field_of name.now (named (bound_named bundle.now (seen known.now))))) }
{
    let place = known.field(bundle, name);
    put_in_place(alloc, resolve_name(known.find(bundle)), place)
}

/// An element. One past the last, which breaks a rule, is answered as want of memory.
fn resolve_element<'a>(
    alloc: Global,
    of: Reference<'a>,
    place: u128,
) -> Result<Reference<'a>, Memory>
    ensures { (v : Value) → Refers v of.entry → IfOk result (Refers (element_of place v)) }
{
    if place >= u128::from(of.kind.elements()) {
        return Err(Memory);
    }
    let kind = of.kind.element();
    let flow = of.flow;
    of.behind(alloc, kind, flow, product(place as u64, kind.size()))
}

/// How many ground parts lie between those of one element of the kind and of the next. What isn't
/// there is the same in each.
fn distance(of: &Reference, kind: Kind) -> Result<u32, Memory>
    ensures { IfOk result (λ n. n ≡ (if of.now.absent then 0 else size (kind_shape kind.entry))) }
{
    if of.absent {
        return Ok(0);
    }
    exact(kind.size())
}

/// The element at a computed index. Of no elements it is absent, whatever it is chosen from.
fn resolve_index<'a>(
    alloc: Global,
    of: Reference<'a>,
    index: Reference,
) -> Result<Reference<'a>, Memory>
    ensures { (v i : Value) → Refers v of.entry → Refers i index.entry → IfOk result (Refers (indexed v i)) }
{
    let kind = of.kind.element();
    let count = of.kind.elements();
    if count == 0 {
        return Ok(Reference {
            kind,
            flow: of.flow,
            worth: Worth::Missing,
            absent: true,
        });
    }
    let size = distance(&of, kind)?;
    let (flow, absent) = (of.flow, of.absent);
    let operand = ground_worth(alloc, index)?;
    let index = Boxed::new(alloc, operand)?;
    let of = Boxed::new(alloc, of.worth)?;
    Ok(Reference {
        kind,
        flow,
        worth: Worth::Indexed {
            of,
            index,
            size,
            count,
        },
        absent,
    })
}

fn resolve_literal<'a>(
    signed: bool,
    width: Option<u8>,
    negative: bool,
    magnitude: u128,
) -> Reference<'a>
    ensures { Refers (computed (number signed) (λ k. to.Lit signed width negative magnitude)) result }
{
    Reference {
        kind: Kind::Number(signed),
        flow: Flow::Fixed,
        worth: Worth::Lit {
            signed,
            width,
            negative,
            magnitude,
        },
        absent: false,
    }
}

/// Tests that all places are those of ground parts of the type. Only in a mux that breaks a rule they
/// aren't.
fn check_places(places: &[u32], size: u64) -> Result<(), Memory>
    ensures { OnOk result ((k : ℕ) → k < length places.now → slice_index places.now k < size) }
{
    let mut k = 0;
    while k < places.len() {
        if u64::from(places[k]) >= size {
            return Err(Memory);
        }
        k += 1;
    }
    Ok(())
}

/// The places of the counterparts of the first's ground parts in the second.
fn partners_within(alloc: Global, first: &Resolved, second: &Resolved) -> Result<Vec<u32>, Memory>
    ensures { IfOk result (λ places. Paired first.now second.now places.items) }
{
    let places = partners_of(alloc, first.kind, second.kind)?;
    check_places(&places, second.size)?;
    Ok(places)
}

fn chosen_worth(
    alloc: Global,
    cond: Worth,
    taken: Worth,
    other: Worth,
    partners: Vec<u32>,
    nums: Seq<u128>,
) -> Result<Worth, Memory>
    ensures { IfOk result (λ w. w ≡ worth.Chosen cond taken other partners.items nums) }
{
    let cond = Boxed::new(alloc, cond)?;
    let taken = Boxed::new(alloc, taken)?;
    let other = Boxed::new(alloc, other)?;
    Ok(Worth::Chosen {
        cond,
        taken,
        other,
        partners: Seq::of(partners),
        nums,
    })
}

/// A mux, of which the condition's first ground part counts.
#[tactic(none)]
fn choose<'a>(
    alloc: Global,
    cond: Worth,
    first: Resolved<'a>,
    second: Resolved,
    nums: Seq<u128>,
) -> Result<Reference<'a>, Memory>
    ensures { (c a b : Value) → (ends_of cond).part 0 ≡ c.part 0 → Resolves a first.entry → Resolves b second.entry → IfOk result (Refers (chosen c a b nums)) }
{
    let kind = first.kind;
    let partners = partners_within(alloc, &first, &second)?;
    let worth = chosen_worth(alloc, cond, first.worth, second.worth, partners, nums)?;
    Ok(Reference {
        kind,
        flow: Flow::Fixed,
        worth,
        absent: false,
    })
}

#[tactic(none)]
fn resolve_mux<'a>(
    alloc: Global,
    cond: Reference,
    taken: Reference<'a>,
    other: Reference,
    nums: Seq<u128>,
) -> Result<Reference<'a>, Memory>
    ensures { (c a b : Value) → Refers c cond.entry → Refers a taken.entry → Refers b other.entry → IfOk result (Refers (chosen c a b nums)) }
{
    let condition = ground_worth(alloc, cond)?;
    let first = taken.settled(alloc)?;
    let second = other.settled(alloc)?;
    choose(alloc, condition, first, second, nums)
}

/// An operation other than a mux.
fn resolve_operation<'a>(op: Op, operands: Operands, nums: Seq<u128>) -> Reference<'a>
    ensures { (vs : List Value) → Given vs operands → Refers (plain_value op vs nums) result }
{
    let Operands { signed, worths } = operands;
    Reference {
        kind: Kind::Number(has_sign(op, signed)),
        flow: Flow::Fixed,
        worth: Worth::Applied {
            op,
            args: Items::from_vec(worths),
            nums,
        },
        absent: false,
    }
}
