//! Which event is before which.
//!
//! Of two events of different regions the earlier one is before the later one. Within a region a chain of links is found by a climb. It
//! keeps a place, at first the earlier event's, and that event's path. Where the path is the later event's, or leads down to it, the
//! fork on the way down decides; else the chain can only go on at the first event that names the path as joined, which is one of its
//! parent's. A path is a list of at most eight numbers, so a climb is short.
ghost use Rattle.std.specs.Prelude.{◌≡◌, ◌↔◌, ◌<◌, ◌≤◌, ◌+◌, length, take, IsTrue, IsSomeAnd};
ghost use Rattle.bench_model.specs.Log.{is_fork_of, names_joined};
ghost use Rattle.bench_model.specs.Conflict.{IsBefore};
ghost use Rattle.bench_model.specs.Formed.{Formed};
ghost use Rattle.order_rel.specs.Logs.{kind_told, log_of, fork_place, join_place};
ghost use Rattle.order_rel.specs.Climbing.{Climbs};

use crate::event::{Event, Kind};
use tb_base::Region;

/// Whether the event forks the thread of this path.
#[tactic(auto, using(crate::proofs::PathTests::same_is))]
fn forks(event: &Event, child: &[u32]) -> bool
    ensures { result ≡ is_fork_of (kind_told event.now.kind) child.now }
{
    match &event.kind {
        Kind::Fork(path) => path.numbers() == child,
        _ => false,
    }
}

/// Whether the event names the thread of this path as joined.
#[tactic(auto, using(crate::proofs::PathTests::same_is))]
fn names(event: &Event, child: &[u32]) -> bool
    ensures { result ≡ names_joined event.now.joined child.now }
{
    match &event.joined {
        Some(path) => path.numbers() == child,
        None => false,
    }
}

/// The place of the thread's fork.
fn place_of_fork(log: &[Event], child: &[u32]) -> Option<usize>
    ensures { result ≡ fork_place log.now child.now }
{
    log.iter().position(|event| forks(event, child))
}

/// The place of the first event that names the thread as joined.
fn place_of_join(log: &[Event], child: &[u32]) -> Option<usize>
    ensures { result ≡ join_place log.now child.now }
{
    log.iter().position(|event| names(event, child))
}

/// Whether the fork on the way down from the path to the longer goal is there, and the place isn't past it.
fn leads_down(log: &[Event], place: usize, path: &[u32], goal: &[u32]) -> bool
    requires { length path.now < length goal.now }
    ensures { IsTrue result ↔ IsSomeAnd (fork_place log.now (take (length path.now + 1) goal.now)) (λ fork. place ≤ fork) }
{
    match place_of_fork(log, &goal[..path.len() + 1]) {
        Some(fork) => place <= fork,
        None => false,
    }
}

/// Whether a climb leads from the place of an event of this path to an event of the path `goal` that stands at `last`.
fn climbs(log: &[Event], place: usize, path: &[u32], last: usize, goal: &[u32]) -> bool
    ensures { IsTrue result ↔ Climbs (fork_place log.now) (join_place log.now) last goal.now place path.now }
{
    if goal.starts_with(path) {
        return path.len() == goal.len() || leads_down(log, place, path, goal);
    }
    let Some((_, parent)) = path.split_last() else {
        return false;
    };
    match place_of_join(log, path) {
        Some(next) => next <= last && climbs(log, next, parent, last, goal),
        None => false,
    }
}

/// Whether the event at `i` is before the later event at `j`.
///
/// It takes no memory. Events of different regions are told apart in constant time. Within a region the log is gone through at most
/// nine times, once for each step of the climb, so the time is linear in the length of the log.
pub fn ordered(log: &[Event], i: usize, j: usize) -> bool
    requires earlier { i < j }
    requires within { j < length log.now }
    requires formed { Formed (log_of log.now) }
    ensures { IsTrue result ↔ IsBefore (log_of log.now) i j }
{
    let earlier = &log[i];
    let later = &log[j];
    // No event of a lesser region follows, so the earlier one's region is the lesser.
    if earlier.region != later.region {
        return true;
    }
    climbs(log, i, earlier.path.numbers(), j, later.path.numbers())
}
