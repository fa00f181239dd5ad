//! The threads of a bench after an act.
ghost use Rattle.std.specs.Prelude.{◌≡◌, None, true, is_some, IfSome};
ghost use Rattle.std.specs.FinMap as map;
ghost use Rattle.bench_acts.specs.Behind.{is_end, parent_of};
ghost use Rattle.bench_acts.specs.After.{is_there, wake, birth, after};

use crate::behind::{mode_behind, parent_of, with_number};
use bench_threads::ThreadTable;
use std::alloc::Global;
use tb_base::Path;
use tl_code::ThreadState;
use tl_prepare::Act;

/// Whether the act is the end of its thread.
fn is_end(act: &Act) -> bool
    ensures { result ≡ is_end act.now }
{
    matches!(act, Act::End)
}

/// Whether the act is a join of a child that is still there.
fn is_there(table: &ThreadTable, act: &Act) -> bool
    ensures { result ≡ is_there table.now.threads act.now }
{
    match act {
        Act::Join { child, .. } => table.contains(child),
        _ => false,
    }
}

/// Wakes the parent of a thread, where it waits for the thread by a join.
fn wake_parent(alloc: Global, table: &mut ThreadTable, path: &Path)
    ensures threads { table.new.threads ≡ wake table.old.threads path.now (parent_of path.now) }
    ensures ready { table.new.ready ≡ table.old.ready }
{
    if let Some(parent) = parent_of(alloc, path) {
        table.wake(&parent, path);
    }
}

/// Adds the child that begins, if there is one.
fn add_child(table: &mut ThreadTable, child: Option<ThreadState>)
    requires absent { IfSome child (λ child. map.get table.old.threads child.path ≡ None) }
    requires ready { IfSome child (λ child. table.old.ready ≡ true) }
    ensures threads { table.new.threads ≡ birth table.old.threads child }
    ensures ready { child ≡ None → table.new.ready ≡ table.old.ready }
{
    if let Some(child) = child {
        table.add(child);
    }
}

/// Changes the threads as an act does that leads to the state `next`, with the child that it forks, if it forks one, and the number that it
/// read. An end wakes the parent, where it waits for this thread by a join, and removes the thread. Any other act leaves the thread in its
/// place, without a mark: it waits for what it joins or arrives at, is spent, or runs. Takes no memory.
///
/// The thread has to be there. For a child there has to be room, and no thread of its path.
pub fn advance(
    alloc: Global,
    table: &mut ThreadTable,
    act: Act,
    next: ThreadState,
    child: Option<ThreadState>,
    value: u128,
)
    requires there { is_some (map.get table.old.threads next.path) ≡ true }
    requires absent { IfSome child (λ child. map.get table.old.threads child.path ≡ None) }
    requires ready { IfSome child (λ child. table.old.ready ≡ true) }
    ensures threads { table.new.threads ≡ after table.old.threads act next child value }
    ensures ready { child ≡ None → table.new.ready ≡ table.old.ready }
{
    if is_end(&act) {
        wake_parent(alloc, table, &next.path);
        table.remove(&next.path);
        return;
    }
    let there = is_there(table, &act);
    add_child(table, child);
    let mode = mode_behind(&act, there);
    table.replace(with_number(next, &act, value), mode);
}
