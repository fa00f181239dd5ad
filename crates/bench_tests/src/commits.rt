//! Acts over a few threads.

use bench_acts::{advance, event_of, observed, parent_of, with_number};
use bench_run::Observation;
use bench_threads::ThreadTable;
use net_core::Signal;
use order_rel::Kind;
use std::alloc::Global;
use std::cmp::Ordering;
use std::test::Fail;
use tb_base::{Memory, Path, Region, Seq};
use tl_code::ThreadState;
use tl_prepare::Act;

/// The path of these numbers.
fn path(alloc: Global, numbers: &[u32]) -> Path {
    let mut path = Path::root(alloc);
    for number in numbers {
        if let Some(child) = path.child(*number) {
            path = child;
        }
    }
    path
}

fn same(one: &Path, other: &Path) -> bool {
    matches!(one.compare(other), Ordering::Equal)
}

/// A thread of Main that has taken three acts.
fn state(alloc: Global, numbers: &[u32], locals: Vec<u128>) -> ThreadState {
    ThreadState {
        path: path(alloc, numbers),
        region: Region::Main,
        pc: 5,
        locals: Seq::of(locals),
        handles: Seq::of(Vec::new(alloc)),
        loops: Seq::of(Vec::new(alloc)),
        forks: 0,
        acts: 3,
        joined: None,
    }
}

/// A table of the root thread and its first child.
fn two_threads(alloc: Global) -> Result<ThreadTable, Memory> {
    let mut table = ThreadTable::new(alloc, state(alloc, &[], Vec::new(alloc)))?;
    let root = state(alloc, &[], Vec::new(alloc));
    let child = state(alloc, &[0], Vec::new(alloc));
    let act = Act::Fork {
        line: 1,
        child: path(alloc, &[0]),
    };
    if table.contains(&root.path) && !table.contains(&child.path) {
        table.reserve_one(alloc)?;
        advance(alloc, &mut table, act, root, Some(child), 0);
    }
    Ok(table)
}

/// Carries out an act that begins no child, where its thread is there.
fn carry_out(alloc: Global, table: &mut ThreadTable, numbers: &[u32], act: Act) {
    let next = state(alloc, numbers, Vec::new(alloc));
    if table.contains(&next.path) {
        advance(alloc, table, act, next, None, 0);
    }
}

#[test]
fn a_fork_adds_its_child(rt: HostRuntime) -> Result<(), Fail> {
    let alloc = rt.alloc();
    let table = two_threads(alloc)?;
    assert_eq!(rt; table.len(), 2);
    assert!(rt; table.is_enabled(&path(alloc, &[])));
    assert!(rt; table.is_enabled(&path(alloc, &[0])));
    Ok(())
}

#[test]
fn the_end_of_a_child_wakes_who_joins_it(rt: HostRuntime) -> Result<(), Fail> {
    let alloc = rt.alloc();
    let root = path(alloc, &[]);
    let child = path(alloc, &[0]);
    let mut table = two_threads(alloc)?;
    let join = Act::Join {
        line: 2,
        child: child.copy(),
    };
    carry_out(alloc, &mut table, &[], join);
    assert!(rt; !table.is_enabled(&root));
    carry_out(alloc, &mut table, &[0], Act::End);
    assert!(rt; table.is_enabled(&root));
    assert!(rt; !table.contains(&child));
    Ok(())
}

#[test]
fn a_join_of_a_child_that_is_gone_waits_for_nothing(rt: HostRuntime) -> Result<(), Fail> {
    let alloc = rt.alloc();
    let root = path(alloc, &[]);
    let mut table = two_threads(alloc)?;
    carry_out(alloc, &mut table, &[0], Act::End);
    let join = Act::Join {
        line: 2,
        child: path(alloc, &[0]),
    };
    carry_out(alloc, &mut table, &[], join);
    assert!(rt; table.is_enabled(&root));
    Ok(())
}

#[test]
fn a_joinstep_waits_for_an_edge(rt: HostRuntime) -> Result<(), Fail> {
    let alloc = rt.alloc();
    let root = path(alloc, &[]);
    let mut table = two_threads(alloc)?;
    let join = Act::JoinStep {
        line: 2,
        child: path(alloc, &[0]),
    };
    carry_out(alloc, &mut table, &[], join);
    carry_out(alloc, &mut table, &[0], Act::End);
    assert!(rt; table.is_quiet());
    table.tick();
    assert!(rt; table.is_enabled(&root));
    Ok(())
}

#[test]
fn who_arrives_or_is_spent_waits(rt: HostRuntime) -> Result<(), Fail> {
    let alloc = rt.alloc();
    let mut table = two_threads(alloc)?;
    carry_out(alloc, &mut table, &[], Act::Arrive { line: 2, count: 1 });
    carry_out(alloc, &mut table, &[0], Act::Spend { line: 7 });
    assert!(rt; table.is_quiet());
    table.tick();
    assert!(rt; table.is_enabled(&path(alloc, &[])));
    match table.first_spent() {
        None => assert!(rt; false),
        Some((_, line)) => assert_eq!(rt; line, 7),
    }
    Ok(())
}

#[test]
fn the_root_alone_has_no_parent(rt: HostRuntime) -> Result<(), Fail> {
    let alloc = rt.alloc();
    assert!(rt; parent_of(alloc, &path(alloc, &[])).is_none());
    match parent_of(alloc, &path(alloc, &[4, 2])) {
        None => assert!(rt; false),
        Some(parent) => assert!(rt; same(&parent, &path(alloc, &[4]))),
    }
    Ok(())
}

/// Whether the observation is of port 6 with these numbers, in time step 8 by a thread that had taken three acts.
fn shows(seen: &Option<Observation>, value: u128, wanted: Option<u128>) -> bool {
    match seen {
        None => false,
        Some(seen) => {
            seen.time == 8
                && seen.place == 3
                && seen.line == 2
                && seen.port.0 == 6
                && seen.value == value
                && seen.wanted == wanted
        }
    }
}

#[test]
fn peeks_and_failures_are_observed(rt: HostRuntime) -> Result<(), Fail> {
    let alloc = rt.alloc();
    let from = state(alloc, &[], Vec::new(alloc));
    let port = Signal(6);
    let shown = Act::Peek {
        line: 2,
        port,
        into: None,
    };
    let kept = Act::Peek {
        line: 2,
        port,
        into: Some(0),
    };
    let expected = Act::Expect {
        line: 2,
        port,
        wanted: 40,
    };
    assert!(rt; shows(&observed(8, &from, &shown, 41), 41, None));
    assert!(rt; observed(8, &from, &kept, 41).is_none());
    assert!(rt; observed(8, &from, &expected, 40).is_none());
    assert!(rt; shows(&observed(8, &from, &expected, 41), 41, Some(40)));
    assert!(rt; observed(8, &from, &Act::End, 41).is_none());
    Ok(())
}

#[test]
fn a_number_goes_into_its_slot(rt: HostRuntime) -> Result<(), Fail> {
    let alloc = rt.alloc();
    let next = state(alloc, &[], vec![in alloc; 5, 6]?);
    let kept = Act::Peek {
        line: 2,
        port: Signal(6),
        into: Some(1),
    };
    let next = with_number(next, &kept, 9);
    assert!(rt; next.locals.items() == [5, 9].as_slice());
    let next = with_number(next, &Act::End, 7);
    assert!(rt; next.locals.items() == [5, 9].as_slice());
    Ok(())
}

#[test]
fn an_event_has_the_line_of_its_statement(rt: HostRuntime) -> Result<(), Fail> {
    let alloc = rt.alloc();
    let from = state(alloc, &[1], Vec::new(alloc));
    let poke = Act::Poke {
        line: 12,
        port: Signal(6),
        raw: 1,
    };
    let event = event_of(&from, &poke);
    assert_eq!(rt; event.line, 12);
    assert!(rt; same(&event.path, &path(alloc, &[1])));
    assert!(rt; matches!(event.kind, Kind::Poke(Signal(6))));
    assert_eq!(rt; event_of(&from, &Act::End).line, 0);
    Ok(())
}
