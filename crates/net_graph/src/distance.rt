//! Distances: how many reads lead from each number to one of them.
//!
//! Only the numbers below `own` have a distance. A read over one that isn't below `own`, a condition, is one read: the
//! search enters each condition once, since what reads it has its distance from then on.
ghost use Rattle.std.specs.Prelude.{◌≡◌, ◌≤◌, ◌<◌, ◌+◌, ℕ, [], length, true, OnOk, IfOk};
ghost use Rattle.net_core.specs.Rules.{has};
ghost use Rattle.net_graph.specs.Readers.{in_row};
ghost use Rattle.net_graph.specs.Distances.{distance_of, unreached, EntryReaches, RowReads, ReadsFront, Spread, AllEntered, Measures};

use crate::marks::is_new;
use std::alloc::Global;
use tb_base::Memory;

/// The row of a number, or none where there is no such row.
pub(crate) fn row(rows: &[Vec<u32>], z: usize) -> &[u32]
    ensures { (k : ℕ) → has result.now k ≡ in_row rows.now z k }
{
    match rows.get(z) {
        Some(row) => row.as_slice(),
        None => &[],
    }
}

/// Gives a number the level as its distance, where it has none, and puts it into the next level.
fn reach(
    x: u32,
    level: u32,
    own: u32,
    distances: &mut [u32],
    next: &mut Vec<u32>,
) -> Result<(), Memory>
    requires place { x < length distances.old }
    requires room { level + unreached own distances.old ≤ own }
    requires bounded { (k : ℕ) → distance_of distances.old own k ≤ own }
    ensures places { length distances.new ≡ length distances.old }
    ensures spread { OnOk result (Spread (λ k. k ≡ x) own level distances.old next.old.items distances.new next.new.items) }
{
    if distances[x as usize] == own {
        next.push(x)?;
        distances[x as usize] = level;
    }
    Ok(())
}

/// Reaches all numbers of the list that are below `own`.
fn reach_list(
    list: &[u32],
    level: u32,
    own: u32,
    distances: &mut [u32],
    next: &mut Vec<u32>,
) -> Result<(), Memory>
    requires places { length distances.old ≡ own }
    requires room { level + unreached own distances.old ≤ own }
    requires bounded { (k : ℕ) → distance_of distances.old own k ≤ own }
    ensures places { length distances.new ≡ length distances.old }
    ensures spread { OnOk result (Spread (λ k. (k < own) × (has list.now k ≡ true)) own level distances.old next.old.items distances.new next.new.items) }
{
    for x in list {
        if *x < own {
            reach(*x, level, own, distances, next)?;
        }
    }
    Ok(())
}

/// Reaches a number, or all that reads it where it is a condition that wasn't entered yet.
fn reach_over(
    readers: &[Vec<u32>],
    x: u32,
    level: u32,
    own: u32,
    distances: &mut [u32],
    entered: &mut [bool],
    next: &mut Vec<u32>,
) -> Result<(), Memory>
    requires places { length distances.old ≡ own }
    requires room { level + unreached own distances.old ≤ own }
    requires bounded { (k : ℕ) → distance_of distances.old own k ≤ own }
    requires entered { AllEntered readers.now own entered.old distances.old }
    ensures places { length distances.new ≡ length distances.old }
    ensures spread { OnOk result (Spread (EntryReaches readers.now own x) own level distances.old next.old.items distances.new next.new.items) }
    ensures entered { OnOk result (AllEntered readers.now own entered.new distances.new) }
{
    if x < own {
        return reach(x, level, own, distances, next);
    }
    if is_new(entered, x) {
        reach_list(row(readers, x as usize), level, own, distances, next)?;
    }
    Ok(())
}

/// Reaches all for which the entries of a row stand.
fn reach_row(
    readers: &[Vec<u32>],
    row: &[u32],
    level: u32,
    own: u32,
    distances: &mut [u32],
    entered: &mut [bool],
    next: &mut Vec<u32>,
) -> Result<(), Memory>
    requires places { length distances.old ≡ own }
    requires room { level + unreached own distances.old ≤ own }
    requires bounded { (k : ℕ) → distance_of distances.old own k ≤ own }
    requires entered { AllEntered readers.now own entered.old distances.old }
    ensures places { length distances.new ≡ length distances.old }
    ensures spread { OnOk result (Spread (λ k. (x : ℕ) × (has row.now x ≡ true) × EntryReaches readers.now own x k) own level distances.old next.old.items distances.new next.new.items) }
    ensures entered { OnOk result (AllEntered readers.now own entered.new distances.new) }
{
    for x in row {
        reach_over(readers, *x, level, own, distances, entered, next)?;
    }
    Ok(())
}

/// Gives the level to all readers of the front that have no distance yet.
fn next_level(
    readers: &[Vec<u32>],
    front: &[u32],
    level: u32,
    own: u32,
    distances: &mut [u32],
    entered: &mut [bool],
    next: &mut Vec<u32>,
) -> Result<(), Memory>
    requires places { length distances.old ≡ own }
    requires room { level + unreached own distances.old ≤ own }
    requires bounded { (k : ℕ) → distance_of distances.old own k ≤ own }
    requires entered { AllEntered readers.now own entered.old distances.old }
    ensures places { length distances.new ≡ length distances.old }
    ensures spread { OnOk result (Spread (ReadsFront (RowReads readers.now own) front.now) own level distances.old next.old.items distances.new next.new.items) }
    ensures entered { OnOk result (AllEntered readers.now own entered.new distances.new) }
{
    for z in front {
        reach_row(
            readers,
            row(readers, *z as usize),
            level,
            own,
            distances,
            entered,
            next,
        )?;
    }
    Ok(())
}

/// The distance of each number below `own` to the target, and `own` where nothing leads there.
///
/// The time is linear in the numbers and their reads.
pub(crate) fn distances(
    alloc: Global,
    readers: &[Vec<u32>],
    target: u32,
    own: u32,
) -> Result<Vec<u32>, Memory>
    requires { target < own }
    ensures places { IfOk result (λ v. length v.items ≡ own) }
    ensures measures { IfOk result (λ v. Measures (RowReads readers.now own) target own (distance_of v.items own)) }
{
    let mut distances = vec![in alloc; own; own as usize]?;
    distances[target as usize] = 0;
    let mut entered = vec![in alloc; false; readers.len()]?;
    let mut front = vec![in alloc; target]?;
    let mut level = 0;
    while !front.is_empty() {
        level += 1;
        let mut next = Vec::new(alloc);
        next_level(
            readers,
            &front,
            level,
            own,
            &mut distances,
            &mut entered,
            &mut next,
        )?;
        front = next;
    }
    Ok(distances)
}
