//! Parts of a graph: numbers that lead to one another share a part, and along no read does the part rise.
//!
//! They only save searches. Nothing but `never_rises` says what they are: it looks through all reads once more.
ghost use Rattle.std.specs.Prelude.{◌≡◌, ◌≤◌, ◌<◌, ◌^◌, ℕ, List, true, length, IfOk};
ghost use Rattle.net_core.specs.Rules.{has};
ghost use Rattle.net_graph.specs.Loops.{IsLoopFrom};
ghost use Rattle.net_graph.specs.Falling.{Reads};
ghost use Rattle.net_graph.specs.Parts.{part_of, NeverRises};

use crate::distance::row;
use crate::marks::is_new;
use std::alloc::Global;
use tb_base::{Memory, Seq};

/// What is left to do with a number.
#[derive(Clone, Copy, Debug)]
enum Turn {
    /// Its row comes next, where it wasn't seen yet.
    Enter(u32),
    /// All that it leads to was entered.
    Leave(u32),
}

/// The numbers below `count` in the order in which a depth-first walk along the rows leaves them.
fn leaving_order(alloc: Global, rows: &[Vec<u32>], count: u32) -> Result<Vec<u32>, Memory> {
    let mut seen = vec![in alloc; false; count as usize]?;
    let mut order = Vec::new(alloc);
    let mut turns = Vec::new(alloc);
    for x in 0..count {
        turns.push(Turn::Enter(x))?;
    }
    // Each number adds to the turns once, so that they come to an end.
    for _ in 0..u64::MAX {
        match turns.pop() {
            Some(Turn::Enter(x)) => {
                if is_new(&mut seen, x) {
                    turns.push(Turn::Leave(x))?;
                    for y in row(rows, x as usize) {
                        turns.push(Turn::Enter(*y))?;
                    }
                }
            }
            Some(Turn::Leave(x)) => order.push(x)?,
            None => break,
        }
    }
    Ok(order)
}

/// Gives the part to the number and to all that it leads to, where they have none yet.
fn give_part(
    lists: &[Seq<u32>],
    x: u32,
    part: u32,
    seen: &mut [bool],
    parts: &mut [u32],
    waiting: &mut Vec<u32>,
) -> Result<(), Memory> {
    waiting.push(x)?;
    for _ in 0..u64::MAX {
        let Some(y) = waiting.pop() else {
            break;
        };
        if !is_new(seen, y) {
            continue;
        }
        if let Some(slot) = parts.get_mut(y as usize) {
            *slot = part;
        }
        if let Some(list) = lists.get(y as usize) {
            waiting.extend_from_slice(list.items())?;
        }
    }
    Ok(())
}

/// Parts from 1 on, as two walks find them: one along what reads each number, one against it, from what was left last.
fn parts_found(
    alloc: Global,
    lists: &[Seq<u32>],
    readers: &[Vec<u32>],
    count: u32,
) -> Result<Vec<u32>, Memory> {
    let mut order = leaving_order(alloc, readers, count)?;
    let mut seen = vec![in alloc; false; count as usize]?;
    let mut parts = vec![in alloc; 0u32; count as usize]?;
    let mut waiting = Vec::new(alloc);
    for part in 0..count {
        let Some(x) = order.pop() else {
            break;
        };
        give_part(lists, x, part + 1, &mut seen, &mut parts, &mut waiting)?;
    }
    Ok(parts)
}

/// The part of a number; 0 past the last.
fn part_at(parts: &[u32], x: usize) -> u32
    ensures { result ≡ part_of parts.now x }
{
    match parts.get(x) {
        Some(part) => *part,
        None => 0,
    }
}

/// The highest part of the numbers of a list; 0 where there are none.
fn highest_part(parts: &[u32], list: &[u32]) -> u32
    ensures { (y : ℕ) → has list.now y ≡ true → part_of parts.now y ≤ result }
{
    let mut highest = 0;
    for y in list {
        let part = part_at(parts, *y as usize);
        if highest < part {
            highest = part;
        }
    }
    highest
}

/// Whether the part rises along no read, if it says so.
fn never_rises(lists: &[Seq<u32>], parts: &[u32]) -> bool
    ensures { result ≡ true → NeverRises lists.now parts.now }
{
    for x in 0..lists.len() {
        if part_at(parts, x) < highest_part(parts, lists[x].items()) {
            return false;
        }
    }
    true
}

/// The parts of the numbers below the number of lists; `readers` says for each number what reads it.
///
/// The time is linear in the numbers and their reads.
pub(crate) fn parts_of(
    alloc: Global,
    lists: &[Seq<u32>],
    readers: &[Vec<u32>],
) -> Result<Vec<u32>, Memory>
    requires few { length lists.now < 2 ^ 32 }
    ensures { IfOk result (λ parts. NeverRises lists.now parts.items) }
{
    let parts = parts_found(alloc, lists, readers, lists.len() as u32)?;
    if never_rises(lists, &parts) {
        return Ok(parts);
    }
    Ok(Vec::new(alloc))
}

/// Whether all that the number reads is in lower parts, so that no loop begins at it.
pub(crate) fn falls_at(lists: &[Seq<u32>], parts: &[u32], x: u32) -> bool
    requires x { x < length lists.now }
    requires parts { NeverRises lists.now parts.now }
    ensures { result ≡ true → (other : List ℕ) → IsLoopFrom (Reads lists.now) x other → ⊥ }
{
    highest_part(parts, lists[x as usize].items()) < part_at(parts, x as usize)
}
