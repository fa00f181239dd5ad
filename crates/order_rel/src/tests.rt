ghost use Rattle.std.specs.Prelude.{◌≡◌, ◌<◌, ◌++◌, ◌∷◌, [], length, None, Some};
ghost use Rattle.order_rel.specs.Examples.{acted, acted_after, watched, family, joined_earlier};

use crate::event::{Event, Kind};
use crate::order::ordered;
use net_core::Signal;
use std::alloc::Global;
use tb_base::{Path, Region};

fn child_of(path: &Path, k: u32) -> Path
    requires { length path.now < 8 }
    ensures { result ≡ path.now ++ k ∷ [] }
{
    match path.child(k) {
        Some(child) => child,
        None => path.copy(),
    }
}

fn act(path: &Path, line: u32, kind: Kind) -> Event
    ensures { result ≡ acted path.now line kind }
{
    Event {
        path: path.copy(),
        region: Region::Main,
        joined: None,
        line,
        kind,
    }
}

fn act_after(path: &Path, child: &Path, line: u32, kind: Kind) -> Event
    ensures { result ≡ acted_after path.now child.now line kind }
{
    Event {
        path: path.copy(),
        region: Region::Main,
        joined: Some(child.copy()),
        line,
        kind,
    }
}

fn watch(path: &Path, line: u32, kind: Kind) -> Event
    ensures { result ≡ watched path.now line kind }
{
    Event {
        path: path.copy(),
        region: Region::Monitor,
        joined: None,
        line,
        kind,
    }
}

/// The root forks /0, which forks /0/0 and ends; the root joins /0, pokes, and forks /1, which pokes too. /2 is a monitor.
fn family_log(alloc: Global) -> [Event; 9]
    ensures { result ≡ family }
{
    let root = Path::root(alloc);
    let first = child_of(&root, 0);
    let second = child_of(&root, 1);
    let third = child_of(&root, 2);
    let nested = child_of(&first, 0);
    [
        act(&root, 1, Kind::Fork(first.copy())),
        act(&first, 2, Kind::Fork(nested.copy())),
        act(&nested, 3, Kind::Peek(Signal(1))),
        act(&first, 0, Kind::End),
        act(&root, 5, Kind::Join(first.copy())),
        act_after(&root, &first, 6, Kind::Poke(Signal(0))),
        act(&root, 7, Kind::Fork(second.copy())),
        act(&second, 8, Kind::Poke(Signal(0))),
        watch(&third, 9, Kind::Peek(Signal(1))),
    ]
}

/// The root joined /0 in an earlier time step, in which /0 ended.
fn joined_earlier_log(alloc: Global) -> [Event; 3]
    ensures { result ≡ joined_earlier }
{
    let root = Path::root(alloc);
    let first = child_of(&root, 0);
    let second = child_of(&root, 1);
    [
        act_after(&root, &first, 4, Kind::Poke(Signal(0))),
        act(&second, 2, Kind::Poke(Signal(1))),
        act(&root, 0, Kind::End),
    ]
}

fn in_family(alloc: Global, i: usize, j: usize) -> Option<bool> {
    let log = family_log(alloc);
    if i < j && j < 9 {
        Some(ordered(&log, i, j))
    } else {
        None
    }
}

fn in_joined_earlier(alloc: Global, i: usize, j: usize) -> Option<bool> {
    let log = joined_earlier_log(alloc);
    if i < j && j < 3 {
        Some(ordered(&log, i, j))
    } else {
        None
    }
}

#[test]
fn a_fork_is_before_its_children(rt: HostRuntime) {
    assert_eq!(rt; in_family(rt.alloc(), 0, 1), Some(true));
    assert_eq!(rt; in_family(rt.alloc(), 0, 2), Some(true));
    assert_eq!(rt; in_family(rt.alloc(), 6, 7), Some(true));
}

#[test]
fn a_child_is_before_what_follows_its_join(rt: HostRuntime) {
    assert_eq!(rt; in_family(rt.alloc(), 3, 5), Some(true));
    assert_eq!(rt; in_family(rt.alloc(), 1, 5), Some(true));
    assert_eq!(rt; in_family(rt.alloc(), 1, 7), Some(true));
    assert_eq!(rt; in_family(rt.alloc(), 3, 4), Some(false));
}

#[test]
fn a_nested_child_is_not_joined_by_its_grandparent(rt: HostRuntime) {
    assert_eq!(rt; in_family(rt.alloc(), 2, 3), Some(false));
    assert_eq!(rt; in_family(rt.alloc(), 2, 5), Some(false));
    assert_eq!(rt; in_family(rt.alloc(), 2, 7), Some(false));
}

#[test]
fn a_monitor_is_after_all_of_main(rt: HostRuntime) {
    for i in 0..8usize {
        assert_eq!(rt; in_family(rt.alloc(), i, 8), Some(true));
    }
}

#[test]
fn siblings_are_not_ordered(rt: HostRuntime) {
    assert_eq!(rt; in_joined_earlier(rt.alloc(), 0, 1), Some(false));
    assert_eq!(rt; in_joined_earlier(rt.alloc(), 0, 2), Some(true));
    assert_eq!(rt; in_joined_earlier(rt.alloc(), 1, 2), Some(false));
}

#[test]
fn a_copy_has_all_fields(rt: HostRuntime) {
    let root = Path::root(rt.alloc());
    let first = child_of(&root, 0);
    let copy = act_after(&root, &first, 6, Kind::JoinStep(first.copy())).copy();
    assert!(rt; copy.path == root && copy.region == Region::Main && copy.line == 6);
    assert!(rt; copy.joined == Some(first.copy()));
    assert!(rt; matches!(&copy.kind, Kind::JoinStep(child) if *child == first));
}
