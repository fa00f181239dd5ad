//! The search for conflicts.
//!
//! It asks first what two events access, which takes constant time, and only of two that clash whether one is before the other.
ghost use Rattle.std.specs.Prelude.{◌≡◌, ◌↔◌, ◌<◌, ◌-◌, ℕ, length, IsTrue};
ghost use Rattle.bench_model.specs.Log.{touches, hits, clash};
ghost use Rattle.bench_model.specs.Conflict.{Conflict, IsFirstPair, IsFree};
ghost use Rattle.bench_model.specs.Formed.{Formed};
ghost use Rattle.order_rel.specs.Logs.{kind_told, log_of};
ghost use Rattle.conflict_core.specs.Conflicts.{cone_of, Earliest, least_with_newest};

use net_core::Signal;
use net_graph::Cones;
use order_rel::{Event, Kind, ordered};

/// Whether the input's value matters to what the act does, or is set by it.
fn touched(kind: &Kind, input: Signal, cones: &Cones) -> bool
    ensures { result ≡ touches (cone_of cones.now) (kind_told kind.now) input.0 }
{
    match kind {
        Kind::Poke(port) => *port == input,
        Kind::Peek(signal) | Kind::Expect(signal) => cones.has(*signal, input),
        _ => false,
    }
}

/// Whether the first pokes an input that the second pokes or depends on.
fn hit(first: &Kind, second: &Kind, cones: &Cones) -> bool
    ensures { result ≡ hits (cone_of cones.now) (kind_told first.now) (kind_told second.now) }
{
    match first {
        Kind::Poke(port) => touched(second, *port, cones),
        _ => false,
    }
}

/// Whether one of the two pokes an input that the other pokes or depends on.
fn clashing(first: &Kind, second: &Kind, cones: &Cones) -> bool
    ensures { result ≡ clash (cone_of cones.now) (kind_told first.now) (kind_told second.now) }
{
    hit(first, second, cones) || hit(second, first, cones)
}

/// Whether the event at `place` conflicts with the later one at `last`.
fn conflicting(log: &[Event], place: usize, last: usize, cones: &Cones) -> bool
    requires earlier { place < last }
    requires within { last < length log.now }
    requires formed { Formed (log_of log.now) }
    ensures { IsTrue result ↔ Conflict (cone_of cones.now) (log_of log.now) place last }
{
    clashing(&log[place].kind, &log[last].kind, cones) && !ordered(log, place, last)
}

/// The earliest event, of those that stand before the place `last`, that conflicts with the event there.
fn earliest(log: &[Event], last: usize, cones: &Cones) -> Option<usize>
    requires within { last < length log.now }
    requires formed { Formed (log_of log.now) }
    ensures { Earliest (cone_of cones.now) (log_of log.now) last result }
{
    for place in 0..last {
        if conflicting(log, place, last, cones) {
            return Some(place);
        }
    }
    None
}

/// The place of the earliest event that the newest event of the log conflicts with; `None` exactly where it conflicts with none.
///
/// It takes no memory. Each earlier event takes constant time, and each whose access clashes with the newest one's a search of the
/// log as `ordered` makes it: the time is linear in the length of the log where few accesses clash, and quadratic at worst.
pub fn conflict_with_last(log: &[Event], cones: &Cones) -> Option<usize>
    requires { Formed (log_of log.now) }
    ensures value { result ≡ least_with_newest (cone_of cones.now) (log_of log.now) }
    ensures earliest { Earliest (cone_of cones.now) (log_of log.now) (length log.now - 1) result }
{
    if log.is_empty() {
        return None;
    }
    earliest(log, log.len() - 1, cones)
}

/// The first pair of events that conflict, by their places: the second is the least place whose event conflicts with an earlier one,
/// and the first the least place that it conflicts with. `None` exactly where no two events conflict.
///
/// It takes no memory. The time is quadratic in the length of the log where few accesses clash. Each two events whose accesses clash
/// take a search of the log besides, as `ordered` makes it, so it is cubic at worst.
pub fn first_conflict(log: &[Event], cones: &Cones) -> Option<(usize, usize)>
    requires { Formed (log_of log.now) }
    ensures pair { (i : ℕ) (j : ℕ) → (result ≡ Some (i, j)) ↔ IsFirstPair (cone_of cones.now) (log_of log.now) i j }
    ensures free { (result ≡ None) ↔ IsFree (cone_of cones.now) (log_of log.now) }
{
    for last in 0..log.len() {
        if let Some(place) = earliest(log, last, cones) {
            return Some((place, last));
        }
    }
    None
}
