//! An order of modules, each behind those that it instances, so that one pass counts them all.
ghost use Rattle.std.specs.Prelude.{◌≡◌, IfOk, length, vec_len};

use crate::homes::Home;
use std::alloc::Global;
use tb_base::Memory;

/// The places of the homes, each behind those of its instances' homes; a home on a cycle, or above
/// one that isn't there, is left out. What is counted doesn't depend on the order, only how often. The
/// time is linear in the number of instances.
pub(crate) fn instances_first(alloc: Global, homes: &[Home]) -> Result<Vec<usize>, Memory> {
    let users = users_of(alloc, homes)?;
    let mut left = instances_of(alloc, homes)?;
    let mut order = leaves_of(alloc, homes)?;
    for number in 0..homes.len() {
        if number < order.len() {
            let place = order[number];
            if let Some(above) = users.get(place) {
                count_down(above, &mut left, &mut order)?;
            }
        }
    }
    Ok(order)
}

/// For each home the places of those that instance it, once for each instance.
fn users_of(alloc: Global, homes: &[Home]) -> Result<Vec<Vec<usize>>, Memory> {
    let mut users = Vec::new(alloc);
    for _ in homes {
        users.push(Vec::new(alloc))?;
    }
    for (place, home) in homes.iter().enumerate() {
        for target in &home.instances {
            if let Some(above) = users.get_mut(*target) {
                above.push(place)?;
            }
        }
    }
    Ok(users)
}

/// The number of instances in each home.
fn instances_of(alloc: Global, homes: &[Home]) -> Result<Vec<usize>, Memory>
    ensures { IfOk result (λ numbers. vec_len numbers ≡ length homes.now) }
{
    let mut numbers = Vec::new(alloc);
    for home in homes {
        numbers.push(home.instances.len())?;
    }
    Ok(numbers)
}

/// The places of the homes without instances.
fn leaves_of(alloc: Global, homes: &[Home]) -> Result<Vec<usize>, Memory> {
    let mut leaves = Vec::new(alloc);
    for (place, home) in homes.iter().enumerate() {
        if home.instances.is_empty() {
            leaves.push(place)?;
        }
    }
    Ok(leaves)
}

/// One instance less is left for each use. A home for which none is left comes next.
fn count_down(users: &[usize], left: &mut [usize], order: &mut Vec<usize>) -> Result<(), Memory> {
    for user in users {
        if let Some(number) = left.get_mut(*user) {
            *number = number.saturating_sub(1);
            if *number == 0 {
                order.push(*user)?;
            }
        }
    }
    Ok(())
}
