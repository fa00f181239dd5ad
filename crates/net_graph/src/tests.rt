use crate::order::furthest_order;
use crate::parts::parts_of;
use crate::readers::readers_of;
use crate::search::least_loop;
use std::alloc::Global;
use std::test::Fail;
use tb_base::{Memory, Seq};

/// Three numbers, each with at most one that it reads.
fn three(alloc: Global, reads: [Option<u32>; 3]) -> Result<Vec<Seq<u32>>, Memory> {
    let mut lists = Vec::new(alloc);
    for k in 0..3usize {
        let mut list = Vec::new(alloc);
        if let Some(y) = reads[k] {
            list.push(y)?;
        }
        lists.push(Seq::of(list))?;
    }
    Ok(lists)
}

#[test]
fn what_is_read_comes_first(rt: HostRuntime) -> Result<(), Fail> {
    let lists = three(rt.alloc(), [Some(1), Some(2), None])
        .ok()
        .ok_or("no memory")?;
    if lists.len() < 4 {
        let readers = readers_of(rt.alloc(), &lists).ok().ok_or("no memory")?;
        let order = furthest_order(rt.alloc(), &lists, &readers)
            .ok()
            .ok_or("no memory")?;
        assert!(rt; order.as_slice() == [2, 1, 0].as_slice());
    }
    Ok(())
}

#[test]
fn a_loop_is_left_out(rt: HostRuntime) -> Result<(), Fail> {
    let lists = three(rt.alloc(), [Some(1), Some(0), None])
        .ok()
        .ok_or("no memory")?;
    if lists.len() < 4 {
        let readers = readers_of(rt.alloc(), &lists).ok().ok_or("no memory")?;
        let order = furthest_order(rt.alloc(), &lists, &readers)
            .ok()
            .ok_or("no memory")?;
        assert!(rt; order.as_slice() == [2].as_slice());
    }
    Ok(())
}

#[test]
fn a_loop_has_one_part(rt: HostRuntime) -> Result<(), Fail> {
    let lists = three(rt.alloc(), [Some(1), Some(0), Some(0)])
        .ok()
        .ok_or("no memory")?;
    if lists.len() < 4 {
        let readers = readers_of(rt.alloc(), &lists).ok().ok_or("no memory")?;
        let parts = parts_of(rt.alloc(), &lists, &readers)
            .ok()
            .ok_or("no memory")?;
        assert!(rt; parts.as_slice() == [1, 1, 3].as_slice());
    }
    Ok(())
}

/// `count` numbers that each read the one condition after them, which reads all of them.
fn all_over_one(alloc: Global, count: u32) -> Result<Vec<Seq<u32>>, Memory> {
    let mut lists = Vec::new(alloc);
    let mut all = Vec::new(alloc);
    for x in 0..count {
        lists.push(Seq::of(vec![in alloc; count]?))?;
        all.push(x)?;
    }
    lists.push(Seq::of(all))?;
    Ok(lists)
}

#[test]
fn a_loop_passes_over_a_condition(rt: HostRuntime) -> Result<(), Fail> {
    let lists = all_over_one(rt.alloc(), 3).ok().ok_or("no memory")?;
    if lists.len() == 4 {
        let readers = readers_of(rt.alloc(), &lists).ok().ok_or("no memory")?;
        let found = least_loop(rt.alloc(), &lists, &readers, 3)
            .ok()
            .ok_or("no memory")?
            .ok_or("no loop")?;
        assert!(rt; found.as_slice() == [0].as_slice());
    }
    Ok(())
}
