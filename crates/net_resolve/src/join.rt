//! What the two sides of a When give for a signal, behind what was there.
ghost use Rattle.std.specs.Prelude.{◌≡◌, ℕ, IfOk, OnOk, Some};
ghost use Rattle.std.specs.Ordering.{nat_cmp};
ghost use Rattle.std.specs.BTreeMap.{get, Updates};
ghost use Rattle.net_resolve.specs.Joint.{or_none, joint, joint_at};

use net_core::{Choice, Signal};
use sqlite_items::Items;
use std::alloc::Global;
use std::collections::BTreeMap;
use tb_base::{Memory, Seq};

/// The choices of one signal, and whether there is one on each branch.
#[derive(Drop)]
pub(crate) struct Found {
    pub full: bool,
    pub choices: Seq<Choice>,
}

/// What was found, or no choices where nothing was.
pub(crate) fn present(alloc: Global, found: Option<Found>) -> Found
    ensures { result ≡ or_none found }
{
    match found {
        Some(found) => found,
        None => Found {
            full: false,
            choices: Seq::of(Vec::new(alloc)),
        },
    }
}

/// A When on the signal `k`. Behind `before`, which it replaces where both sides have a choice on each branch.
fn joined(alloc: Global, k: u32, taken: Found, other: Found, before: Found) -> Result<Found, Memory>
    ensures { IfOk result (λ f. f ≡ joint k taken other before) }
{
    let full = taken.full && other.full;
    let choice = Choice::When {
        cond: Signal(k),
        taken: Items::from_vec(taken.choices.into_vec()),
        other: Items::from_vec(other.choices.into_vec()),
    };
    if full {
        let mut choices = Vec::new(alloc);
        choices.push(choice)?;
        return Ok(Found {
            full,
            choices: Seq::of(choices),
        });
    }
    let mut choices = before.choices.into_vec();
    choices.push(choice)?;
    Ok(Found {
        full: before.full,
        choices: Seq::of(choices),
    })
}

/// Sets what is found for the signal.
pub(crate) fn put(map: &mut BTreeMap<u32, Found>, x: u32, found: Found) -> Result<(), Memory>
    ensures { OnOk result (Updates nat_cmp map.old map.new x (Some found)) }
{
    match map.insert(x, found) {
        Ok(_) => Ok(()),
        Err(_) => Err(Memory),
    }
}

/// Each signal of either side gets a When on the signal `k`. The lists are moved.
pub(crate) fn join(
    alloc: Global,
    k: u32,
    mut taken: BTreeMap<u32, Found>,
    mut other: BTreeMap<u32, Found>,
    out: &mut BTreeMap<u32, Found>,
) -> Result<(), Memory>
    ensures { OnOk result ((q : ℕ) → get nat_cmp out.new q ≡ joint_at k (get nat_cmp taken q) (get nat_cmp other q) (get nat_cmp out.old q)) }
{
    'both: while let Some((x, t)) = taken.pop_first() {
        let o = present(alloc, other.remove(&x));
        let before = present(alloc, out.remove(&x));
        let found = joined(alloc, k, t, o, before)?;
        put(out, x, found)?;
    }
    'rest: while let Some((x, o)) = other.pop_first() {
        let before = present(alloc, out.remove(&x));
        let found = joined(alloc, k, present(alloc, None), o, before)?;
        put(out, x, found)?;
    }
    Ok(())
}
