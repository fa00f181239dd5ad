//! The table over a few threads.

use bench_threads::{Mode, ThreadTable, same_state};
use std::alloc::Global;
use std::cmp::Ordering;
use std::test::Fail;
use tb_base::{Memory, Path, Region, Seq};
use tl_code::ThreadState;

/// The path of these numbers.
fn path(alloc: Global, numbers: &[u32]) -> Path {
    let mut path = Path::root(alloc);
    for number in numbers {
        if let Some(child) = path.child(*number) {
            path = child;
        }
    }
    path
}

fn state(alloc: Global, numbers: &[u32], region: Region) -> ThreadState {
    ThreadState {
        path: path(alloc, numbers),
        region,
        pc: 0,
        locals: Seq::of(Vec::new(alloc)),
        handles: Seq::of(Vec::new(alloc)),
        loops: Seq::of(Vec::new(alloc)),
        forks: 0,
        acts: 0,
        joined: None,
    }
}

fn table(alloc: Global) -> Result<ThreadTable, Memory> {
    ThreadTable::new(alloc, state(alloc, &[], Region::Main))
}

/// Adds a thread, where its path isn't there.
fn add(
    table: &mut ThreadTable,
    alloc: Global,
    numbers: &[u32],
    region: Region,
) -> Result<(), Memory> {
    let child = state(alloc, numbers, region);
    if !table.contains(&child.path) {
        table.reserve_one(alloc)?;
        table.add(child);
    }
    Ok(())
}

/// Says for what a thread waits, where it is there.
fn wait(table: &mut ThreadTable, alloc: Global, numbers: &[u32], region: Region, mode: Mode) {
    let state = state(alloc, numbers, region);
    if table.contains(&state.path) {
        table.replace(state, mode);
    }
}

/// Whether the next thread to be handed out is this one.
fn is_next(table: &ThreadTable, alloc: Global, numbers: &[u32]) -> bool {
    match table.least_unmarked() {
        None => false,
        Some(entry) => matches!(
            entry.state.path.compare(&path(alloc, numbers)),
            Ordering::Equal
        ),
    }
}

#[test]
fn the_end_of_a_child_wakes_who_joins_it(rt: HostRuntime) -> Result<(), Fail> {
    let alloc = rt.alloc();
    let root = path(alloc, &[]);
    let child = path(alloc, &[0]);
    let mut table = table(alloc)?;
    add(&mut table, alloc, &[0], Region::Main)?;
    assert_eq!(rt; table.len(), 2);
    wait(
        &mut table,
        alloc,
        &[],
        Region::Main,
        Mode::AtJoin(child.copy()),
    );
    assert!(rt; is_next(&table, alloc, &[0]));
    table.remove(&child);
    assert!(rt; table.is_quiet());
    table.wake(&root, &child);
    assert!(rt; is_next(&table, alloc, &[]));
    Ok(())
}

#[test]
fn a_joinstep_waits_for_an_edge(rt: HostRuntime) -> Result<(), Fail> {
    let alloc = rt.alloc();
    let root = path(alloc, &[]);
    let child = path(alloc, &[0]);
    let mut table = table(alloc)?;
    add(&mut table, alloc, &[0], Region::Main)?;
    wait(
        &mut table,
        alloc,
        &[],
        Region::Main,
        Mode::AtJoinStep(child.copy()),
    );
    wait(&mut table, alloc, &[0], Region::Main, Mode::AtEdges(1));
    table.tick();
    assert!(rt; table.is_enabled(&child));
    assert!(rt; !table.is_enabled(&root));
    table.remove(&child);
    table.wake(&root, &child);
    assert!(rt; table.is_quiet());
    table.tick();
    assert!(rt; table.is_enabled(&root));
    Ok(())
}

#[test]
fn edges_are_counted_down(rt: HostRuntime) -> Result<(), Fail> {
    let alloc = rt.alloc();
    let mut table = table(alloc)?;
    wait(&mut table, alloc, &[], Region::Main, Mode::AtEdges(3));
    table.tick();
    table.tick();
    assert!(rt; table.is_quiet());
    table.tick();
    assert!(rt; is_next(&table, alloc, &[]));
    Ok(())
}

#[test]
fn monitors_act_after_main(rt: HostRuntime) -> Result<(), Fail> {
    let alloc = rt.alloc();
    let monitor = path(alloc, &[0]);
    let mut table = table(alloc)?;
    add(&mut table, alloc, &[0], Region::Monitor)?;
    assert!(rt; !table.is_enabled(&monitor));
    wait(&mut table, alloc, &[], Region::Main, Mode::AtEdges(1));
    assert!(rt; table.is_enabled(&monitor));
    assert!(rt; is_next(&table, alloc, &[0]));
    Ok(())
}

#[test]
fn marked_threads_are_passed_over(rt: HostRuntime) -> Result<(), Fail> {
    let alloc = rt.alloc();
    let root = path(alloc, &[]);
    let child = path(alloc, &[0]);
    let mut table = table(alloc)?;
    add(&mut table, alloc, &[0], Region::Main)?;
    table.mark(&root);
    assert!(rt; is_next(&table, alloc, &[0]));
    table.mark(&child);
    assert!(rt; table.least_unmarked().is_none());
    table.unmark(&child);
    assert!(rt; is_next(&table, alloc, &[0]));
    wait(&mut table, alloc, &[], Region::Main, Mode::Running);
    assert!(rt; is_next(&table, alloc, &[]));
    table.mark(&root);
    table.mark(&child);
    table.unmark_all();
    assert!(rt; is_next(&table, alloc, &[]));
    Ok(())
}

#[test]
fn main_is_named_before_monitor(rt: HostRuntime) -> Result<(), Fail> {
    let alloc = rt.alloc();
    let mut table = table(alloc)?;
    add(&mut table, alloc, &[0], Region::Monitor)?;
    add(&mut table, alloc, &[1], Region::Main)?;
    assert!(rt; table.first_spent().is_none());
    wait(&mut table, alloc, &[0], Region::Monitor, Mode::Spent(4));
    wait(&mut table, alloc, &[1], Region::Main, Mode::Spent(9));
    match table.first_spent() {
        None => assert!(rt; false),
        Some((_, line)) => assert_eq!(rt; line, 9),
    }
    Ok(())
}

#[test]
fn the_root_may_be_gone(rt: HostRuntime) -> Result<(), Fail> {
    let alloc = rt.alloc();
    let root = path(alloc, &[]);
    let mut table = table(alloc)?;
    add(&mut table, alloc, &[0], Region::Main)?;
    assert!(rt; table.contains(&root));
    table.remove(&root);
    assert!(rt; !table.contains(&root));
    assert!(rt; table.find(&root).is_none());
    assert_eq!(rt; table.len(), 1);
    Ok(())
}

#[test]
fn the_first_of_two_counts_is_ahead(rt: HostRuntime) -> Result<(), Fail> {
    let alloc = rt.alloc();
    let mut table = table(alloc)?;
    add(&mut table, alloc, &[0], Region::Monitor)?;
    assert_eq!(rt; table.edges_ahead(), None);
    wait(&mut table, alloc, &[], Region::Main, Mode::AtEdges(3));
    assert_eq!(rt; table.edges_ahead(), Some(3));
    wait(&mut table, alloc, &[0], Region::Monitor, Mode::AtEdges(2));
    assert_eq!(rt; table.edges_ahead(), Some(2));
    table.tick();
    assert!(rt; table.is_quiet());
    assert_eq!(rt; table.edges_ahead(), Some(1));
    table.tick();
    assert!(rt; is_next(&table, alloc, &[0]));
    assert_eq!(rt; table.edges_ahead(), Some(1));
    wait(&mut table, alloc, &[], Region::Main, Mode::AtEdges(0));
    assert_eq!(rt; table.edges_ahead(), Some(1));
    Ok(())
}

#[test]
fn the_end_of_a_child_brings_a_joinstep_one_edge_near(rt: HostRuntime) -> Result<(), Fail> {
    let alloc = rt.alloc();
    let child = path(alloc, &[0]);
    let mut table = table(alloc)?;
    add(&mut table, alloc, &[0], Region::Main)?;
    add(&mut table, alloc, &[1], Region::Main)?;
    wait(
        &mut table,
        alloc,
        &[],
        Region::Main,
        Mode::AtJoinStep(child.copy()),
    );
    wait(&mut table, alloc, &[1], Region::Main, Mode::Spent(7));
    assert_eq!(rt; table.edges_ahead(), None);
    wait(&mut table, alloc, &[1], Region::Main, Mode::AtEdges(5));
    assert_eq!(rt; table.edges_ahead(), Some(5));
    table.remove(&child);
    assert_eq!(rt; table.edges_ahead(), Some(1));
    wait(&mut table, alloc, &[], Region::Main, Mode::AtJoin(child));
    assert_eq!(rt; table.edges_ahead(), Some(5));
    Ok(())
}

#[test]
fn states_are_told_apart(rt: HostRuntime) -> Result<(), Fail> {
    let alloc = rt.alloc();
    let first = state(alloc, &[0], Region::Main);
    let mut second = state(alloc, &[0], Region::Main);
    assert!(rt; same_state(&first, &second));
    second.joined = Some(path(alloc, &[0, 1]));
    assert!(rt; !same_state(&first, &second));
    Ok(())
}
