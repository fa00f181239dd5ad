//! A small list in order, and what is copied. In the list the number of the line says where each observation belongs, from 0.

use crate::{Observation, Outcome, sort_observations};
use bench_model::limits::Passed;
use net_core::Signal;
use order_rel::{Event, Kind};
use std::alloc::Global;
use std::test::Fail;
use tb_base::{Path, Region};

/// The path of these numbers.
fn path(alloc: Global, numbers: &[u32]) -> Path {
    let mut path = Path::root(alloc);
    for number in numbers {
        if let Some(child) = path.child(*number) {
            path = child;
        }
    }
    path
}

fn seen(
    alloc: Global,
    time: u32,
    region: Region,
    numbers: &[u32],
    place: u32,
    line: u32,
) -> Observation {
    Observation {
        time,
        region,
        path: path(alloc, numbers),
        place,
        line,
        port: Signal(2),
        value: 9,
        wanted: None,
    }
}

#[test]
fn observations_stand_by_time_region_path_and_place(rt: HostRuntime) -> Result<(), Fail> {
    let alloc = rt.alloc();
    let observations = vec![in alloc;
        seen(alloc, 3, Region::Monitor, &[0], 1, 7),
        seen(alloc, 3, Region::Main, &[1, 0], 0, 4),
        seen(alloc, 3, Region::Main, &[1], 10, 3),
        seen(alloc, 4, Region::Main, &[], 0, 8),
        seen(alloc, 3, Region::Main, &[1], 9, 2),
        seen(alloc, 3, Region::Monitor, &[0], 0, 6),
        seen(alloc, 3, Region::Main, &[10], 0, 5),
        seen(alloc, 3, Region::Main, &[], 12, 1),
        seen(alloc, 2, Region::Monitor, &[2], 9, 0),
    ]?;
    let sorted = sort_observations(observations);
    assert_eq!(rt; sorted.len(), 9);
    for (place, observation) in sorted.iter().enumerate() {
        assert_eq!(rt; observation.line as usize, place);
    }
    Ok(())
}

#[test]
fn no_observations_are_in_order(rt: HostRuntime) {
    assert_eq!(rt; sort_observations(Vec::new(rt.alloc())).len(), 0);
}

#[test]
fn a_copy_has_all_fields(rt: HostRuntime) {
    let mut failure = seen(rt.alloc(), 7, Region::Monitor, &[1, 0], 3, 12);
    failure.wanted = Some(8);
    let copy = failure.copy();
    assert!(rt; copy.time == 7 && copy.region == Region::Monitor && copy.path == failure.path);
    assert!(rt; copy.place == 3 && copy.line == 12 && copy.port == Signal(2));
    assert!(rt; copy.value == 9 && copy.wanted == Some(8));
}

#[test]
fn a_limit_is_named_with_its_time_step(rt: HostRuntime) {
    let outcome = Outcome::from_passed(5, Passed::Records);
    assert!(rt; matches!(outcome, Outcome::RecordLimit { time: 5 }));
}

#[test]
fn a_conflict_is_copied_with_both_events(rt: HostRuntime) {
    let alloc = rt.alloc();
    let outcome = Outcome::Conflict {
        time: 5,
        first: Event {
            path: path(alloc, &[0]),
            region: Region::Main,
            joined: None,
            line: 3,
            kind: Kind::Poke(Signal(0)),
        },
        second: Event {
            path: path(alloc, &[1]),
            region: Region::Main,
            joined: None,
            line: 4,
            kind: Kind::Peek(Signal(2)),
        },
    };
    let copy = outcome.copy();
    assert_eq!(rt; copy.time(), 5);
    assert!(rt;
        matches!(&copy, Outcome::Conflict { first, second, .. } if first.line == 3 && second.line == 4)
    );
}
