//! The resets of a body, by register.
ghost use Rattle.std.specs.Prelude.{◌≡◌, ℕ, OnOk, Some};
ghost use Rattle.std.specs.Ordering.{nat_cmp};
ghost use Rattle.std.specs.BTreeMap.{get, Updates};
ghost use Rattle.net_core.specs.Body.{body_of};
ghost use Rattle.net_resolve.specs.Resets.{resets};

use net_core::{Ground, GroundReset};
use std::alloc::Global;
use std::collections::BTreeMap;
use tb_base::Memory;

/// Sets the reset of the register to a copy of this one.
fn put_reset(
    alloc: Global,
    map: &mut BTreeMap<u32, GroundReset>,
    x: u32,
    reset: &GroundReset,
) -> Result<(), Memory>
    ensures { OnOk result (Updates nat_cmp map.old map.new x (Some reset.now)) }
{
    let copy = GroundReset {
        signal: reset.signal.copy(alloc)?,
        init: reset.init.copy(alloc)?,
    };
    match map.insert(x, copy) {
        Ok(_) => Ok(()),
        Err(_) => Err(Memory),
    }
}

/// Adds the resets of the block's declarations, and of those inside. The recursion is along the nesting of Whens.
#[cycle(collect)]
pub(crate) fn collect_resets(
    alloc: Global,
    items: &[Ground],
    map: &mut BTreeMap<u32, GroundReset>,
) -> Result<(), Memory>
    ensures { OnOk result ((q : ℕ) → get nat_cmp map.new q ≡ resets q (body_of items.now) (get nat_cmp map.old q)) }
{
    for item in items {
        match item {
            Ground::Declare { signal, reset, .. } => {
                if let Some(reset) = reset {
                    put_reset(alloc, map, signal.0, reset)?;
                }
            }
            Ground::Set { .. } => {}
            Ground::When { taken, other, .. } => {
                collect_resets(alloc, taken.as_slice(), map)?;
                collect_resets(alloc, other.as_slice(), map)?;
            }
        }
    }
    Ok(())
}
