//! The walk over a body.
//!
//! A block gives a map of the signals that it sinks, each with its list of choices. A When joins the maps of its two
//! sides into that of the block, and at a block's end the signals that it declares go to the table. Lists are moved,
//! never copied. The time is a few steps in a map for each signal that a When sinks, and the copies of the expressions.
//! The recursion is along the nesting of Whens.
ghost use Rattle.std.specs.Prelude.{◌≡◌, ℕ, ◌+◌, ◌++◌, ◌∷◌, [], IfOk, OnOk, None, length, true};
ghost use Rattle.std.specs.Ordering.{nat_cmp};
ghost use Rattle.std.specs.BTreeMap.{get};
ghost use Rattle.net_core.specs.Body.{body_of, conditions};
ghost use Rattle.net_core.specs.declared.tree.Choice.TheVariants.{Take};
ghost use Rattle.net_resolve.specs.Walk.{kept, found, leaving, inner};

use crate::join::{Found, join, put};
use net_core::{Choice, Ground, GroundExpr};
use std::alloc::Global;
use std::collections::BTreeMap;
use tb_base::{Memory, Seq};

/// One choice: the value.
fn taken_only(alloc: Global, value: &Option<GroundExpr>) -> Result<Found, Memory>
    ensures { IfOk result (λ f. f ≡ record { full = true; choices = Take value.now ∷ [] }) }
{
    let value = match value {
        None => None,
        Some(expr) => Some(expr.copy(alloc)?),
    };
    let mut choices = Vec::new(alloc);
    choices.push(Choice::Take(value))?;
    Ok(Found {
        full: true,
        choices: Seq::of(choices),
    })
}

/// The same number in fewer bits. `Memory` from 2^32 - 1 on.
pub(crate) fn place(k: usize) -> Result<u32, Memory>
    ensures { IfOk result (λ x. x ≡ k) }
{
    if k >= 0xffff_ffff {
        return Err(Memory);
    }
    Ok(k as u32)
}

/// The number of the next condition signal. `Memory` where it would be 2^32.
pub(crate) fn number(first: u32, asked: usize) -> Result<u32, Memory>
    ensures { IfOk result (λ k. k ≡ first + asked) }
{
    match first.checked_add(place(asked)?) {
        Some(k) => Ok(k),
        None => Err(Memory),
    }
}

/// Gives the condition the next number.
fn ask(
    alloc: Global,
    first: u32,
    cond: &GroundExpr,
    conds: &mut Vec<GroundExpr>,
) -> Result<u32, Memory>
    ensures conds { OnOk result (conds.new.items ≡ conds.old.items ++ cond.now ∷ []) }
    ensures number { IfOk result (λ k. k ≡ first + length conds.old.items) }
{
    let k = number(first, conds.len())?;
    let copy = cond.copy(alloc)?;
    conds.push(copy)?;
    Ok(k)
}

/// Moves what the block declares to the table.
fn leave(
    items: &[Ground],
    map: &mut BTreeMap<u32, Found>,
    table: &mut BTreeMap<u32, Found>,
) -> Result<(), Memory>
    ensures map { OnOk result ((q : ℕ) → get nat_cmp map.new q ≡ kept q (body_of items.now) (get nat_cmp map.old q)) }
    ensures table { OnOk result ((q : ℕ) → get nat_cmp table.new q ≡ leaving q (body_of items.now) (get nat_cmp map.old q) (get nat_cmp table.old q)) }
{
    for item in items {
        if let Ground::Declare { signal, .. } = item {
            if let Some(found) = map.remove(&signal.0) {
                put(table, signal.0, found)?;
            }
        }
    }
    Ok(())
}

#[cycle(walk)]
fn walk_items(
    alloc: Global,
    first: u32,
    items: &[Ground],
    conds: &mut Vec<GroundExpr>,
    table: &mut BTreeMap<u32, Found>,
) -> Result<BTreeMap<u32, Found>, Memory>
    ensures conds { OnOk result (conds.new.items ≡ conds.old.items ++ conditions (body_of items.now)) }
    ensures map { IfOk result (λ map. (q : ℕ) → get nat_cmp map q ≡ found q (first + length conds.old.items) (body_of items.now) None) }
    ensures table { OnOk result ((q : ℕ) → get nat_cmp table.new q ≡ inner q (first + length conds.old.items) (body_of items.now) (get nat_cmp table.old q)) }
{
    let mut map = BTreeMap::new(alloc);
    for item in items {
        match item {
            Ground::Declare { .. } => {}
            Ground::Set { sink, value, .. } => {
                let found = taken_only(alloc, value)?;
                put(&mut map, sink.0, found)?;
            }
            Ground::When {
                cond,
                taken,
                other,
                ..
            } => {
                let k = ask(alloc, first, cond, conds)?;
                let yes = walk_block(alloc, first, taken.as_slice(), conds, table)?;
                let no = walk_block(alloc, first, other.as_slice(), conds, table)?;
                join(alloc, k, yes, no, &mut map)?;
            }
        }
    }
    Ok(map)
}

/// What is found for each signal that the block does not declare. What it declares, itself or inside, goes to the table.
#[cycle(walk)]
pub(crate) fn walk_block(
    alloc: Global,
    first: u32,
    items: &[Ground],
    conds: &mut Vec<GroundExpr>,
    table: &mut BTreeMap<u32, Found>,
) -> Result<BTreeMap<u32, Found>, Memory>
    ensures conds { OnOk result (conds.new.items ≡ conds.old.items ++ conditions (body_of items.now)) }
    ensures map { IfOk result (λ map. (q : ℕ) → get nat_cmp map q ≡ kept q (body_of items.now) (found q (first + length conds.old.items) (body_of items.now) None)) }
    ensures table { OnOk result ((q : ℕ) → get nat_cmp table.new q ≡ leaving q (body_of items.now) (found q (first + length conds.old.items) (body_of items.now) None) (inner q (first + length conds.old.items) (body_of items.now) (get nat_cmp table.old q))) }
{
    let mut map = walk_items(alloc, first, items, conds, table)?;
    leave(items, &mut map, table)?;
    Ok(map)
}
