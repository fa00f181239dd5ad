//! An order of numbers in which each comes after all that it reads.
//!
//! A number is taken when all that it reads was taken. What may be taken next is found by counts of what is left to
//! read; that they are right isn't needed for the result, since each number is looked at again before it is taken.
ghost use Rattle.std.specs.Prelude.{◌≡◌, ℕ, ◌≤◌, ◌<◌, ◌^◌, [], length, true, false, IfOk, OnOk};
ghost use Rattle.net_core.specs.Rules.{has};
ghost use Rattle.net_graph.specs.Graphs.{reads_in, Follows};
ghost use Rattle.net_graph.specs.Taking.{is_taken, left, Taken, Waits, StuckBelow, Furthest};

use std::alloc::Global;
use tb_base::{Memory, Seq};

/// Whether all numbers of the list are taken.
fn all_taken(list: &[u32], taken: &[bool]) -> bool
    ensures yes { result ≡ true → (y : ℕ) → has list.now y ≡ true → is_taken taken.now y ≡ true }
    ensures no { result ≡ false → (y : ℕ) × (has list.now y ≡ true) × (is_taken taken.now y ≡ false) }
{
    for y in list {
        if !taken.get(*y as usize).copied().unwrap_or(false) {
            return false;
        }
    }
    true
}

/// Takes the number if it isn't taken yet and reads only what is, and says whether it did.
fn take_ready(
    lists: &[Seq<u32>],
    x: usize,
    taken: &mut [bool],
    order: &mut Vec<u32>,
) -> Result<bool, Memory>
    requires place { x < length lists.now }
    requires few { length lists.now < 2 ^ 32 }
    requires taken { Taken lists.now order.old.items taken.old }
    ensures taken { OnOk result (Taken lists.now order.new.items taken.new) }
    ensures fewer { OnOk result (left taken.new ≤ left taken.old) }
    ensures took { IfOk result (λ took. took ≡ true → left taken.new < left taken.old) }
    ensures same { IfOk result (λ took. took ≡ false → taken.new ≡ taken.old) }
    ensures waits { IfOk result (λ took. took ≡ false → is_taken taken.old x ≡ false → Waits lists.now taken.old x) }
{
    if taken[x] || !all_taken(lists[x].items(), taken) {
        return Ok(false);
    }
    order.push(x as u32)?;
    taken[x] = true;
    Ok(true)
}

/// Goes through all numbers once and takes each that is ready, and says whether there was one.
fn sweep(lists: &[Seq<u32>], taken: &mut [bool], order: &mut Vec<u32>) -> Result<bool, Memory>
    requires few { length lists.now < 2 ^ 32 }
    requires taken { Taken lists.now order.old.items taken.old }
    ensures taken { OnOk result (Taken lists.now order.new.items taken.new) }
    ensures took { IfOk result (λ took. took ≡ true → left taken.new < left taken.old) }
    ensures stuck { IfOk result (λ took. took ≡ false → StuckBelow lists.now taken.new (length lists.now)) }
{
    let mut took = false;
    for x in 0..lists.len() {
        if take_ready(lists, x, taken, order)? {
            took = true;
        }
    }
    Ok(took)
}

/// Counts one read of the number as done, and takes it if it was the last.
fn count_down(
    lists: &[Seq<u32>],
    x: usize,
    unread: &mut [u32],
    taken: &mut [bool],
    order: &mut Vec<u32>,
) -> Result<(), Memory>
    requires few { length lists.now < 2 ^ 32 }
    requires unread { length unread.old ≡ length lists.now }
    requires taken { Taken lists.now order.old.items taken.old }
    ensures unread { length unread.new ≡ length lists.now }
    ensures taken { OnOk result (Taken lists.now order.new.items taken.new) }
    ensures fewer { OnOk result (left taken.new ≤ left taken.old) }
{
    if x >= lists.len() {
        return Ok(());
    }
    if unread[x] > 1 {
        unread[x] -= 1;
        return Ok(());
    }
    take_ready(lists, x, taken, order)?;
    Ok(())
}

/// Goes on from what was taken: counts down what reads it, along the order from `next` to its growing end.
fn go_on(
    lists: &[Seq<u32>],
    readers: &[Vec<u32>],
    next: usize,
    unread: &mut [u32],
    taken: &mut [bool],
    order: &mut Vec<u32>,
) -> Result<(), Memory>
    requires few { length lists.now < 2 ^ 32 }
    requires unread { length unread.old ≡ length lists.now }
    requires taken { Taken lists.now order.old.items taken.old }
    ensures unread { length unread.new ≡ length lists.now }
    ensures taken { OnOk result (Taken lists.now order.new.items taken.new) }
    ensures fewer { OnOk result (left taken.new ≤ left taken.old) }
{
    let mut next = next;
    while next < order.len() {
        if let Some(above) = readers.get(order[next] as usize) {
            for x in above {
                count_down(lists, *x as usize, unread, taken, order)?;
            }
        }
        next += 1;
    }
    Ok(())
}

/// How many entries each list has.
fn lengths(alloc: Global, lists: &[Seq<u32>]) -> Result<Vec<u32>, Memory>
    ensures { IfOk result (λ v. length v.items ≡ length lists.now) }
{
    let mut lengths = Vec::new(alloc);
    for list in lists {
        lengths.push(list.items().len().min(u32::MAX as usize) as u32)?;
    }
    Ok(lengths)
}

/// As many marks as there are lists, none of them set.
fn no_marks(alloc: Global, lists: &[Seq<u32>]) -> Result<Vec<bool>, Memory>
    ensures { IfOk result (λ v. Taken lists.now [] v.items) }
{
    let marks = vec![in alloc; false; lists.len()]?;
    Ok(marks)
}

/// The numbers below the number of lists in an order in which each comes after all that it reads, as far as there is
/// one. `readers` says for each number what reads it.
///
/// The time is linear in the numbers and their reads.
pub(crate) fn furthest_order(
    alloc: Global,
    lists: &[Seq<u32>],
    readers: &[Vec<u32>],
) -> Result<Vec<u32>, Memory>
    requires { length lists.now < 2 ^ 32 }
    ensures { IfOk result (λ order. Furthest lists.now order.items) }
{
    let mut unread = lengths(alloc, lists)?;
    let mut taken = no_marks(alloc, lists)?;
    let mut order = Vec::new(alloc);
    loop {
        let next = order.len();
        if !sweep(lists, &mut taken, &mut order)? {
            return Ok(order);
        }
        go_on(lists, readers, next, &mut unread, &mut taken, &mut order)?;
    }
}
