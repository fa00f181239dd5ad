//! Samples ahead of an act.
ghost use Rattle.std.specs.Prelude.{◌≡◌, ◌≤◌, ◌-◌, Some, true, false, cond};
ghost use Rattle.std.specs.FinMap as map;
ghost use Rattle.bench_setting.specs.Limited.{limits_told};
ghost use Rattle.bench_threads.specs.Threads.{quiet, is_enabled, sooner, edges_ahead};
ghost use Rattle.bench_acts.specs.Behind.{parent_of};
ghost use Rattle.bench_course.specs.Taking.{taken};
ghost use Rattle.bench_ahead.specs.Needed.{within, samples_needed};
ghost use Rattle.bench_ahead.specs.Behind.{wakes, goes_on, runs_behind, edges_behind};

use bench_acts::parent_of;
use bench_course::Course;
use bench_setting::Limits;
use bench_threads::ThreadTable;
use bench_threads::laws::{
    acts_bring_edges_nearer, ends_bring_edges_nearer, quiet_is_nobody, spent_is_named,
};
use net_core::Engine;
use std::alloc::Global;
use tb_base::Path;
use tl_prepare::{Act, Prepared};

/// Whether the end of the thread of a path wakes its parent, which waits for it by a join.
fn wakes_parent(alloc: Global, table: &ThreadTable, path: &Path) -> bool
    ensures { result ≡ wakes table.now.threads path.now (parent_of path.now) }
{
    match parent_of(alloc, path) {
        None => false,
        Some(parent) => match table.find(&parent) {
            None => false,
            Some(entry) => entry.mode.waits_for(path),
        },
    }
}

/// Whether an act that isn't the end of its thread leaves it running.
fn goes_on(table: &ThreadTable, act: &Act) -> bool
    ensures { result ≡ goes_on table.now.threads act.now }
{
    match act {
        Act::Join { child, .. } => !table.contains(child),
        Act::Arrive { .. } | Act::JoinStep { .. } | Act::Spend { .. } => false,
        _ => true,
    }
}

/// Whether somebody runs behind the act: another thread; or the parent that its end wakes, and else a child that begins, or the thread itself.
fn runs_behind(alloc: Global, table: &ThreadTable, work: &Prepared) -> bool
    ensures { result ≡ runs_behind table.now.threads work.now }
{
    let path = &work.from().path;
    if !table.runs_alone(path) {
        return true;
    }
    match work.act() {
        Act::End => wakes_parent(alloc, table, path),
        act => work.child().is_some() || goes_on(table, act),
    }
}

/// The edges ahead, or so many where these are fewer.
fn edges_or(table: &ThreadTable, count: u128) -> Option<u128>
    ensures { result ≡ sooner (edges_ahead table.now.threads) (Some count) }
{
    match table.edges_ahead() {
        None => Some(count),
        Some(edges) => Some(edges.min(count)),
    }
}

/// The edges ahead, or one where that is known to be enough.
fn edges_or_one(table: &ThreadTable, one: bool) -> Option<u128>
    ensures { result ≡ cond one (Some 1) (edges_ahead table.now.threads) }
{
    if one { Some(1) } else { table.edges_ahead() }
}

/// After how many edges somebody runs behind the act of the thread of a path, where nobody runs right behind it: the edges ahead, or fewer that
/// the thread itself brings. One is enough where the act ends the run with its time step. `None` where no edge lets anybody run.
fn edges_behind(table: &ThreadTable, path: &Path, act: &Act) -> Option<u128>
    ensures { result ≡ edges_behind table.now.threads path.now act.now }
{
    match act {
        Act::Arrive { count, .. } => edges_or(table, (*count).max(1)),
        Act::JoinStep { child, .. } => edges_or_one(table, !table.contains(child)),
        Act::Spend { .. } => Some(1),
        Act::End => edges_or_one(table, path.numbers().is_empty() || table.is_awaited(path)),
        _ => table.edges_ahead(),
    }
}

/// As many time steps as there are edges, or as are left, where these are fewer; at least one.
fn within(left: u32, edges: Option<u128>) -> usize
    ensures { result ≡ within left edges }
{
    match edges {
        None => left.max(1) as usize,
        Some(edges) => edges.min(u128::from(left)).max(1) as usize,
    }
}

/// For how many samples there has to be room behind this act, where it leads to the end of time steps: as many as time steps end until the first
/// waiting thread runs, or until the last time step is over; one where the act ends the run. 0 where it leads to no end of a time step, since
/// somebody may act behind it.
///
/// The thread has to be there and may act. Takes no memory, and goes over the threads that wait only where nobody runs behind the act.
pub fn samples_ahead<E: Engine>(
    alloc: Global,
    course: &Course<E>,
    work: &Prepared,
    limits: &Limits,
) -> usize
    requires enabled { is_enabled course.now.threads (map.get course.now.threads work.now.from.path) ≡ true }
    ensures none { quiet (taken course.now work.now).threads ≡ false → result ≡ 0 }
    ensures enough { quiet (taken course.now work.now).threads ≡ true → samples_needed (limits_told limits.now) (taken course.now work.now) ≤ result }
    ensures most { quiet (taken course.now work.now).threads ≡ true
        → result ≤ within (limits.now.time_steps - course.now.time) (edges_ahead (taken course.now work.now).threads) }
{
    quiet_is_nobody();
    spent_is_named();
    acts_bring_edges_nearer();
    ends_bring_edges_nearer();
    let table = course.threads();
    let path = &work.from().path;
    if runs_behind(alloc, table, work) {
        return 0;
    }
    let left = limits.time_steps.saturating_sub(course.time());
    within(left, edges_behind(table, path, work.act()))
}
