//! Heights of modules: numbers that fall along each instance that lies on no cycle.
//!
//! They only save searches. Nothing but `never_rises` says what they are: it looks through all
//! instances once more.
ghost use Rattle.std.specs.Prelude.{◌≡◌, true, slice_index};
ghost use Rattle.fir_check.specs.Instances.{rises_nowhere, kids_seen, NeverRises};

use crate::instances::Instance;
use std::alloc::Global;
use tb_base::Memory;

/// For each module the modules of its instances.
fn targets_of(alloc: Global, kids: &[Vec<Instance>]) -> Result<Vec<Vec<usize>>, Memory> {
    let mut all = Vec::new(alloc);
    for instances in kids {
        let mut targets = Vec::new(alloc);
        for instance in instances {
            targets.push(instance.target)?;
        }
        all.push(targets)?;
    }
    Ok(all)
}

/// For each module the modules that have an instance of it, as often as they have one.
fn users_of(alloc: Global, kids: &[Vec<Instance>]) -> Result<Vec<Vec<usize>>, Memory> {
    let mut all = Vec::new(alloc);
    for _ in 0..kids.len() {
        all.push(Vec::new(alloc))?;
    }
    for (home, instances) in kids.iter().enumerate() {
        for instance in instances {
            if let Some(users) = all.get_mut(instance.target) {
                users.push(home)?;
            }
        }
    }
    Ok(all)
}

/// A step that a walk has still to make.
#[derive(Clone, Copy, Debug)]
enum Step {
    /// To enter a module, unless that was done.
    Enter(usize),
    /// To leave a module, since all that is reached from it was entered.
    Leave(usize),
}

/// Marks a module, and says whether it had no mark before.
fn mark(seen: &mut [bool], at: usize) -> bool {
    match seen.get_mut(at) {
        None => false,
        Some(mark) => {
            let is_new = !*mark;
            *mark = true;
            is_new
        }
    }
}

/// Enters a module, if it has no mark: it is left behind the modules of its list.
fn enter(
    lists: &[Vec<usize>],
    at: usize,
    seen: &mut [bool],
    steps: &mut Vec<Step>,
) -> Result<(), Memory> {
    if !mark(seen, at) {
        return Ok(());
    }
    steps.push(Step::Leave(at))?;
    if let Some(list) = lists.get(at) {
        for next in list {
            steps.push(Step::Enter(*next))?;
        }
    }
    Ok(())
}

/// Walks along the lists from a module, deep first, over modules without a mark, and gives them in the
/// order in which they are left. Each gets its mark. The time is linear in their lists.
fn walk_from(
    alloc: Global,
    lists: &[Vec<usize>],
    start: usize,
    seen: &mut [bool],
) -> Result<Vec<usize>, Memory> {
    let mut left = Vec::new(alloc);
    let mut steps = Vec::new(alloc);
    steps.push(Step::Enter(start))?;
    for _ in 0..u64::MAX {
        match steps.pop() {
            None => break,
            Some(Step::Enter(at)) => enter(lists, at, seen, &mut steps)?,
            Some(Step::Leave(at)) => left.push(at)?,
        }
    }
    Ok(left)
}

/// All modules, in the order in which a walk along the lists, deep first, leaves them.
fn walk_all(alloc: Global, lists: &[Vec<usize>]) -> Result<Vec<usize>, Memory> {
    let mut seen = vec![in alloc; false; lists.len()]?;
    let mut left = Vec::new(alloc);
    for start in 0..lists.len() {
        for at in &walk_from(alloc, lists, start, &mut seen)? {
            left.push(*at)?;
        }
    }
    Ok(left)
}

/// Gives these modules a height.
fn raise(heights: &mut [usize], modules: &[usize], height: usize) {
    for at in modules {
        if let Some(own) = heights.get_mut(*at) {
            *own = height;
        }
    }
}

/// Heights. Modules that contain each other have one height, and any other module is above the modules
/// of its instances. The time is linear in the number of modules and instances.
///
/// The module that a walk along the instances leaves last lies below none but those on its own cycles.
/// What is reached from it against the instances are these, so they are the highest; and so on among the
/// others.
pub fn heights_of(alloc: Global, kids: &[Vec<Instance>]) -> Result<Vec<usize>, Memory> {
    let targets = targets_of(alloc, kids)?;
    let users = users_of(alloc, kids)?;
    let left = walk_all(alloc, &targets)?;
    let mut seen = vec![in alloc; false; kids.len()]?;
    let mut heights = vec![in alloc; 0; kids.len()]?;
    let mut height = kids.len();
    for start in left.iter().rev() {
        let group = walk_from(alloc, &users, *start, &mut seen)?;
        raise(&mut heights, &group, height);
        height = height.saturating_sub(1);
    }
    Ok(heights)
}

/// The height of a module; 0 past the last.
pub fn height_at(heights: &[usize], at: usize) -> usize
    ensures { result ≡ slice_index heights.now at }
{
    if at < heights.len() { heights[at] } else { 0 }
}

/// Whether no instance of a module is higher than the module.
fn rises_nowhere(heights: &[usize], home: usize, instances: &[Instance]) -> bool
    ensures { result ≡ rises_nowhere heights.now home instances.now }
{
    for instance in instances {
        if height_at(heights, home) < height_at(heights, instance.target) {
            return false;
        }
    }
    true
}

/// Whether the height rises along no instance, if it says so. The time is linear in the number of
/// modules and instances.
pub fn never_rises(heights: &[usize], kids: &[Vec<Instance>]) -> bool
    ensures { result ≡ true → NeverRises heights.now (kids_seen kids.now) }
{
    for (home, instances) in kids.iter().enumerate() {
        if !rises_nowhere(heights, home, instances) {
            return false;
        }
    }
    true
}
