//! Expressions whose names are looked up: the values of their ground parts, and how each is driven.
ghost use Rattle.std.specs.Prelude.{◌≡◌, ◌+◌, ◌*◌, ◌++◌, [], false, IfOk, OnOk, slice_index, slice_index_or};
ghost use Rattle.net_core.specs.declared.tree.GroundExpr.TheVariants as to;
ghost use Rattle.net_core.specs.declared.tree.Ground.TheVariants as out;
ghost use Rattle.fir_flat.specs.Worths.{ends_of, sign_place};

use net_core::{Ground, GroundExpr, Signal};
use sqlite_items::{Boxed, Items};
use std::alloc::Global;
use tb_base::{Memory, Op, Seq};

/// An expression. Contracts see by `ends_of` what its ground parts are worth and how they are driven.
#[derive(Drop)]
pub(crate) enum Worth {
    /// Signals, of which the first has this number.
    Named(u32),
    /// A part behind so many ground parts.
    Behind(u32, Boxed<Worth>),
    /// An element at a computed index.
    Indexed {
        of: Boxed<Worth>,
        index: Boxed<Worth>,
        /// How many ground parts lie between those of one element and of the next.
        size: u32,
        /// The number of elements.
        count: u32,
    },
    /// An element that isn't there. It has two ground parts here: what each UInt of it is worth, a
    /// literal 0 of width 0, and what each SInt is. Nothing drives it.
    Missing,
    /// Ground parts that are each the first of `of` or, where they are an SInt, the second.
    BySign {
        of: Boxed<Worth>,
        /// Whether each is an SInt.
        signs: Seq<bool>,
    },
    Lit {
        signed: bool,
        width: Option<u8>,
        negative: bool,
        magnitude: u128,
    },
    /// A mux, whose branches have one shape.
    Chosen {
        cond: Boxed<Worth>,
        taken: Boxed<Worth>,
        other: Boxed<Worth>,
        /// For each ground part of `taken` the place of its counterpart in `other`.
        partners: Seq<u32>,
        nums: Seq<u128>,
    },
    /// Another operation, on ground operands.
    Applied {
        op: Op,
        args: Items<Worth>,
        nums: Seq<u128>,
    },
}

/// The sum. A number of more than 32 bits is a want of memory: no circuit within the limits that
/// keeps the rules has one.
pub(crate) fn plus(a: u32, b: u32) -> Result<u32, Memory>
    ensures { IfOk result (λ n. n ≡ a + b) }
{
    match a.checked_add(b) {
        Some(n) => Ok(n),
        None => Err(Memory),
    }
}

/// The product, as `plus`.
pub(crate) fn times(a: u32, b: u32) -> Result<u32, Memory>
    ensures { IfOk result (λ n. n ≡ a * b) }
{
    match a.checked_mul(b) {
        Some(n) => Ok(n),
        None => Err(Memory),
    }
}

/// The place of a ground part of an element.
fn in_element(number: u32, size: u32, k: u32) -> Result<u32, Memory>
    ensures { IfOk result (λ n. n ≡ number * size + k) }
{
    plus(times(number, size)?, k)
}

fn sign_at(signs: &[bool], k: u32) -> bool
    ensures { result ≡ slice_index_or signs.now k false }
{
    match signs.get(k as usize) {
        Some(signed) => *signed,
        None => false,
    }
}

/// The place of a ground part of this sign in what is `Missing`.
fn sign_place(signed: bool) -> u32
    ensures { result ≡ sign_place signed }
{
    if signed { 1 } else { 0 }
}

pub(crate) fn number_at(numbers: &[u32], k: u32) -> u32
    ensures { result ≡ slice_index numbers.now k }
{
    match numbers.get(k as usize) {
        Some(number) => *number,
        None => 0,
    }
}

fn copy_value(alloc: Global, value: &Option<GroundExpr>) -> Result<Option<GroundExpr>, Memory>
    ensures { IfOk result (λ v. v ≡ value.now) }
{
    match value {
        None => Ok(None),
        Some(expr) => Ok(Some(expr.copy(alloc)?)),
    }
}

impl Worth {
    /// The value of the ground part at place `k`. The time is linear in its size.
    #[cycle(part)]
    #[tactic(auto, using(crate::proofs::Ended::endings))]
    pub(crate) fn part(&self, alloc: Global, k: u32) -> Result<GroundExpr, Memory>
        ensures { IfOk result (λ e. e ≡ (ends_of self.now).part k) }
    {
        match self {
            Worth::Named(first) => Ok(GroundExpr::Read(Signal(plus(*first, k)?))),
            Worth::Behind(before, of) => of.get().part(alloc, plus(*before, k)?),
            Worth::Indexed {
                of,
                index,
                size,
                count,
            } => {
                let mut items = Vec::new(alloc);
                for number in 0..*count {
                    let place = in_element(number, *size, k)?;
                    items.push(of.get().part(alloc, place)?)?;
                }
                let index = index.get().part(alloc, 0)?;
                choice(alloc, index, items)
            }
            Worth::Missing => Ok(GroundExpr::Lit {
                signed: k == 1,
                width: Some(0),
                negative: false,
                magnitude: 0,
            }),
            Worth::BySign { of, signs } => {
                let place = sign_place(sign_at(signs.items(), k));
                of.get().part(alloc, place)
            }
            Worth::Lit {
                signed,
                width,
                negative,
                magnitude,
            } => Ok(GroundExpr::Lit {
                signed: *signed,
                width: *width,
                negative: *negative,
                magnitude: *magnitude,
            }),
            Worth::Chosen {
                cond,
                taken,
                other,
                partners,
                nums,
            } => {
                let mut args = Vec::new(alloc);
                args.push(cond.get().part(alloc, 0)?)?;
                args.push(taken.get().part(alloc, k)?)?;
                let partner = number_at(partners.items(), k);
                args.push(other.get().part(alloc, partner)?)?;
                operation(alloc, Op::Mux, args, nums)
            }
            Worth::Applied { op, args, nums } => {
                let mut operands = Vec::new(alloc);
                for arg in args.as_slice() {
                    operands.push(arg.part(alloc, 0)?)?;
                }
                operation(alloc, *op, operands, nums)
            }
        }
    }

    /// Writes the statements of a line that drive the ground part at place `k` with the value, or
    /// invalidate it. The time is linear in their size.
    #[cycle(drive)]
    #[tactic(auto, using(crate::proofs::Ended::endings))]
    pub(crate) fn drive(
        &self,
        alloc: Global,
        line: u32,
        k: u32,
        value: &Option<GroundExpr>,
        out: &mut Vec<Ground>,
    ) -> Result<(), Memory>
        ensures { OnOk result (out.new.items ≡ out.old.items ++ (ends_of self.now).drive line k value.now) }
    {
        match self {
            Worth::Named(first) => {
                let sink = Signal(plus(*first, k)?);
                let value = copy_value(alloc, value)?;
                out.push(Ground::Set { line, sink, value })?;
                Ok(())
            }
            Worth::Behind(before, of) => {
                of.get().drive(alloc, line, plus(*before, k)?, value, out)
            }
            Worth::Indexed {
                of,
                index,
                size,
                count,
            } => {
                for number in 0..*count {
                    let mut taken = Vec::new(alloc);
                    let place = in_element(number, *size, k)?;
                    of.get().drive(alloc, line, place, value, &mut taken)?;
                    let index = index.get().part(alloc, 0)?;
                    out.push(under_index(alloc, line, index, number, taken)?)?;
                }
                Ok(())
            }
            Worth::Missing => Ok(()),
            Worth::BySign { of, signs: _ } => of.get().drive(alloc, line, 0, value, out),
            Worth::Lit {
                signed: _,
                width: _,
                negative: _,
                magnitude: _,
            } => Ok(()),
            Worth::Chosen {
                cond: _,
                taken: _,
                other: _,
                partners: _,
                nums: _,
            } => Ok(()),
            Worth::Applied {
                op: _,
                args: _,
                nums: _,
            } => Ok(()),
        }
    }
}

/// The item at the index.
fn choice(alloc: Global, index: GroundExpr, items: Vec<GroundExpr>) -> Result<GroundExpr, Memory>
    ensures { IfOk result (λ e. e ≡ to.Select index items.items) }
{
    let index = Boxed::new(alloc, index)?;
    Ok(GroundExpr::Select {
        index,
        items: Items::from_vec(items),
    })
}

fn operation(
    alloc: Global,
    op: Op,
    args: Vec<GroundExpr>,
    nums: &Seq<u128>,
) -> Result<GroundExpr, Memory>
    ensures { IfOk result (λ e. e ≡ to.Apply op args.items nums.now) }
{
    let nums = nums.copy(alloc)?;
    Ok(GroundExpr::Apply {
        op,
        args: Items::from_vec(args),
        nums,
    })
}

/// The statements, where the index is the number.
fn under_index(
    alloc: Global,
    line: u32,
    index: GroundExpr,
    number: u32,
    taken: Vec<Ground>,
) -> Result<Ground, Memory>
    ensures { IfOk result (λ g. g ≡ out.When line (to.IndexIs index number) taken.items []) }
{
    let index = Boxed::new(alloc, index)?;
    Ok(Ground::When {
        line,
        cond: GroundExpr::IndexIs {
            index,
            place: number,
        },
        taken: Items::from_vec(taken),
        other: Items::new(alloc),
    })
}
