//! The order of observations.
//!
//! They stand by time, region, path and place. In a run these tell all observations apart, since a thread makes at most one with each
//! action. Observations that have all four in common stand by line, port, value and wanted number, so that a sorted list depends on its
//! elements alone.
ghost use Rattle.std.specs.Prelude.{◌≡◌, map};
ghost use Rattle.std.specs.Ordering.{nat_cmp};
ghost use Rattle.order_rel.specs.Logs.{region_number};
ghost use Rattle.bench_model.specs.Sorting.{record_cmp, record_le, sorted};
ghost use Rattle.bench_run.specs.Told.{record_told};

use crate::observation::Observation;
use std::cmp::Ordering;
use tb_base::Region;

/// How the first region stands to the second.
fn compare_regions(first: Region, second: Region) -> Ordering
    ensures { result ≡ nat_cmp (region_number first) (region_number second) }
{
    first.cmp(&second)
}

/// How the first observation stands to the second.
fn compare(first: &Observation, second: &Observation) -> Ordering
    ensures { result ≡ record_cmp (record_told first.now) (record_told second.now) }
{
    first
        .time
        .cmp(&second.time)
        .then_with(|| compare_regions(first.region, second.region))
        .then_with(|| first.path.compare(&second.path))
        .then_with(|| first.place.cmp(&second.place))
        .then_with(|| first.line.cmp(&second.line))
        .then_with(|| first.port.0.cmp(&second.port.0))
        .then_with(|| first.value.cmp(&second.value))
        .then_with(|| first.wanted.cmp(&second.wanted))
}

/// The observations by time, region (Main first), path and place, and then by line, port, value and wanted number.
///
/// They are sorted in place: it takes no memory. The time is that of n log n comparisons for n observations.
pub fn sort_observations(observations: Vec<Observation>) -> Vec<Observation>
    ensures { map record_told result.items ≡ sorted record_le (map record_told observations.items) }
{
    let mut in_order = observations;
    in_order.sort_unstable_by(|first, second| compare(first, second));
    in_order
}
