//! The least loop, and least chains: walks that always go to the least of the nearest.
//!
//! Loops and chains name the numbers below `own` alone. The others, conditions, are passed over: a read over one of them
//! is one read. A walk looks at what a condition reads once. Where it comes to the condition again, all that this reads
//! is further from the target than what the walk looks for.
ghost use Rattle.std.specs.Prelude.{◌≡◌, ◌≤◌, ◌<◌, ◌^◌, ◌+◌, ◌++◌, ◌⊎◌, List, ℕ, length, true, OnOk, IfOk, IfSome, IfNone};
ghost use Rattle.net_core.specs.Rules.{has};
ghost use Rattle.net_graph.specs.Graphs.{reads_in};
ghost use Rattle.net_graph.specs.Marks.{is_marked};
ghost use Rattle.net_graph.specs.NetGraphs.{ReadsOver};
ghost use Rattle.net_graph.specs.Readers.{Turned};
ghost use Rattle.net_graph.specs.Distances.{distance_of, Measures};
ghost use Rattle.net_graph.specs.Loops.{Leads, IsLoopFrom, IsNamedLoop, IsNamedChain, NoLoops};
ghost use Rattle.net_graph.specs.Falling.{Falls, NearerOf, NearestAmong, EntryReads, ListReads, UnpassedEntry, UnpassedReads, AllBehind};

use crate::distance::distances;
use crate::marks::is_new;
use crate::parts::{falls_at, parts_of};
use crate::readers::readers_of;
use std::alloc::Global;
use tb_base::{Memory, Seq};

/// The distance of a number; `own` where it has none.
fn distance_at(distances: &[u32], own: u32, x: u32) -> u32
    ensures { result ≡ distance_of distances.now own x }
{
    match distances.get(x as usize) {
        Some(distance) => *distance,
        None => own,
    }
}

fn nearer(v: u32, w: u32, distances: &[u32], own: u32) -> u32
    ensures one { (result ≡ v) ⊎ (result ≡ w) }
    ensures nearer { NearerOf (distance_of distances.now own) v w result }
{
    let of_v = distance_at(distances, own, v);
    let of_w = distance_at(distances, own, w);
    if of_w < of_v || of_w == of_v && w < v {
        w
    } else {
        v
    }
}

/// The least of the nearest of a number and those of a list.
fn nearest_in(list: &[u32], first: u32, distances: &[u32], own: u32) -> u32
    ensures one { (result ≡ first) ⊎ (has list.now result ≡ true) }
    ensures nearest { NearestAmong (λ w. has list.now w ≡ true) (distance_of distances.now own) first result }
{
    let mut nearest = first;
    for w in list {
        nearest = nearer(nearest, *w, distances, own);
    }
    nearest
}

/// The least of the nearest of a number, an entry and, where the entry is a condition that wasn't passed yet, all that
/// this reads.
fn nearest_by(
    lists: &[Seq<u32>],
    own: u32,
    y: u32,
    first: u32,
    passed: &mut [bool],
    distances: &[u32],
) -> u32
    ensures one { (result ≡ first) ⊎ EntryReads lists.now own y result }
    ensures nearest { NearestAmong (UnpassedEntry lists.now own passed.old y) (distance_of distances.now own) first result }
    ensures marks { (c : ℕ) → is_marked passed.new c ≡ true → (is_marked passed.old c ≡ true) ⊎ ((c ≡ y) × (own ≤ y)) }
{
    let nearest = nearer(first, y, distances, own);
    if y < own || !is_new(passed, y) {
        return nearest;
    }
    match lists.get(y as usize) {
        Some(list) => nearest_in(list.items(), nearest, distances, own),
        None => nearest,
    }
}

/// The least of the nearest that a number reads, leaving out what it reads only over conditions that were passed before.
/// Where none of these leads to the target, the result has no distance.
fn nearest_read(lists: &[Seq<u32>], own: u32, x: u32, passed: &mut [bool], distances: &[u32]) -> u32
    requires { x < length lists.now }
    ensures one { (result ≡ own) ⊎ ListReads lists.now own x result }
    ensures nearest { NearestAmong (UnpassedReads lists.now own passed.old x) (distance_of distances.now own) own result }
    ensures marks { (c : ℕ) → is_marked passed.new c ≡ true → (is_marked passed.old c ≡ true) ⊎ ((own ≤ c) × (reads_in lists.now x c ≡ true)) }
{
    let mut nearest = own;
    for y in lists[x as usize].items() {
        nearest = nearest_by(lists, own, *y, nearest, passed, distances);
    }
    nearest
}

/// Goes from a number to the target, always to the least of the nearest, and adds what it passes to the path.
fn descend(
    lists: &[Seq<u32>],
    own: u32,
    distances: &[u32],
    from: u32,
    target: u32,
    passed: &mut [bool],
    path: &mut Vec<u32>,
) -> Result<(), Memory>
    requires own { own ≤ length lists.now }
    requires places { length distances.now ≡ own }
    requires measures { Measures (ReadsOver (reads_in lists.now) own) target own (distance_of distances.now own) }
    requires near { distance_of distances.now own from < own }
    requires passed { AllBehind lists.now passed.old (distance_of distances.now own) from }
    ensures { OnOk result ((way : List ℕ) × Falls (ReadsOver (reads_in lists.now) own) (distance_of distances.now own) from way target × (path.new.items ≡ path.old.items ++ way)) }
{
    let mut x = from;
    while x != target {
        path.push(x)?;
        x = nearest_read(lists, own, x, passed, distances);
    }
    Ok(())
}

/// The named loop, where there is one that begins at x, whose distances are given.
fn loop_by(
    alloc: Global,
    lists: &[Seq<u32>],
    own: u32,
    x: u32,
    distances: &[u32],
    passed: &mut [bool],
) -> Result<Option<Vec<u32>>, Memory>
    requires own { own ≤ length lists.now }
    requires x { x < own }
    requires places { length distances.now ≡ own }
    requires measures { Measures (ReadsOver (reads_in lists.now) own) x own (distance_of distances.now own) }
    requires passed { (c : ℕ) → is_marked passed.old c ≡ true → ⊥ }
    requires first { (y : ℕ) (other : List ℕ) → IsLoopFrom (ReadsOver (reads_in lists.now) own) y other → x ≤ y }
    ensures some { IfOk result (λ found. IfSome found (λ v. IsNamedLoop (ReadsOver (reads_in lists.now) own) x v.items)) }
    ensures none { IfOk result (λ found. IfNone found ((other : List ℕ) → IsLoopFrom (ReadsOver (reads_in lists.now) own) x other → ⊥)) }
{
    let first = nearest_read(lists, own, x, passed, distances);
    if distance_at(distances, own, first) >= own {
        return Ok(None);
    }
    let mut path = vec![in alloc; x]?;
    descend(lists, own, distances, first, x, passed, &mut path)?;
    Ok(Some(path))
}

/// The named loop, where there is one that begins at x.
fn loop_from(
    alloc: Global,
    lists: &[Seq<u32>],
    readers: &[Vec<u32>],
    own: u32,
    x: u32,
) -> Result<Option<Vec<u32>>, Memory>
    requires own { own ≤ length lists.now }
    requires x { x < own }
    requires turned { Turned lists.now readers.now }
    requires first { (y : ℕ) (other : List ℕ) → IsLoopFrom (ReadsOver (reads_in lists.now) own) y other → x ≤ y }
    ensures some { IfOk result (λ found. IfSome found (λ v. IsNamedLoop (ReadsOver (reads_in lists.now) own) x v.items)) }
    ensures none { IfOk result (λ found. IfNone found ((other : List ℕ) → IsLoopFrom (ReadsOver (reads_in lists.now) own) x other → ⊥)) }
{
    let distances = distances(alloc, readers, x, own)?;
    let mut passed = vec![in alloc; false; lists.len()]?;
    loop_by(alloc, lists, own, x, &distances, &mut passed)
}

/// The named loop of the reads between the first `own` numbers, where there is one.
///
/// The time and the memory are linear in the numbers and their reads: with the parts that are found, the first number
/// that is searched from is on a loop.
pub(crate) fn least_loop(
    alloc: Global,
    lists: &[Seq<u32>],
    readers: &[Vec<u32>],
    own: u32,
) -> Result<Option<Vec<u32>>, Memory>
    requires few { length lists.now < 2 ^ 32 }
    requires own { own ≤ length lists.now }
    requires turned { Turned lists.now readers.now }
    ensures some { IfOk result (λ found. IfSome found (λ v. (x : ℕ) × IsNamedLoop (ReadsOver (reads_in lists.now) own) x v.items)) }
    ensures none { IfOk result (λ found. IfNone found (NoLoops (ReadsOver (reads_in lists.now) own))) }
{
    let parts = parts_of(alloc, lists, readers)?;
    for x in 0..own {
        if falls_at(lists, &parts, x) {
            continue;
        }
        if let Some(found) = loop_from(alloc, lists, readers, own, x)? {
            return Ok(Some(found));
        }
    }
    Ok(None)
}

/// The named chain from a number to another, of the reads between the first `own` numbers. The time and the memory are
/// linear in the numbers and their reads.
pub(crate) fn least_chain(
    alloc: Global,
    lists: &[Seq<u32>],
    own: u32,
    from: u32,
    to: u32,
) -> Result<Vec<u32>, Memory>
    requires few { length lists.now < 2 ^ 32 }
    requires own { own ≤ length lists.now }
    requires to { to < own }
    requires leads { (way : List ℕ) × Leads (ReadsOver (reads_in lists.now) own) from way to }
    ensures { IfOk result (λ v. IsNamedChain (ReadsOver (reads_in lists.now) own) from to v.items) }
{
    let readers = readers_of(alloc, lists)?;
    let distances = distances(alloc, &readers, to, own)?;
    let mut passed = vec![in alloc; false; lists.len()]?;
    let mut path = Vec::new(alloc);
    descend(lists, own, &distances, from, to, &mut passed, &mut path)?;
    path.push(to)?;
    Ok(path)
}
