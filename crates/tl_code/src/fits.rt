//! Which states fit code.
ghost use Rattle.std.specs.Prelude.{◌≡◌, ℕ, ◌<◌};
ghost use Rattle.std.specs.Bool.{Decides};
ghost use Rattle.tl_code.specs.Compiled.{Compiled};
ghost use Rattle.tl_code.specs.Codes.{IsChild, IsJoined, NamesChild, FitsAt};

use crate::state::ThreadState;
use sqlite_items::at;
use tb_base::Path;
use tl_threads::code::Placed;

/// How many slots code has.
#[derive(Clone, Copy)]
pub struct Slots {
    pub variables: usize,
    pub handles: usize,
}

/// Whether a path is that of a child of the thread.
fn is_child(thread: &ThreadState, child: &Path) -> bool
    ensures { Decides result (IsChild thread.now child.now) }
{
    match child.numbers().split_last() {
        None => false,
        Some((last, front)) => *last < thread.forks && front == thread.path.numbers(),
    }
}

/// Whether the child of a join, where there is one, is a child of the thread.
fn is_joined(thread: &ThreadState) -> bool
    ensures { Decides result (IsJoined thread.now thread.now.joined) }
{
    match &thread.joined {
        None => true,
        Some(child) => is_child(thread, child),
    }
}

/// Whether a handle's slot names a child of the thread.
fn names_child(thread: &ThreadState, slot: usize) -> bool
    ensures { Decides result (NamesChild thread.now slot) }
{
    match at(thread.handles.items(), slot) {
        Some(Some(child)) => is_child(thread, child),
        _ => false,
    }
}

/// Whether each of the first slots for handles names a child of the thread.
fn names_children(thread: &ThreadState, known: u32) -> bool
    ensures { Decides result ((k : ℕ) → k < known → NamesChild thread.now k) }
{
    for slot in 0..known as usize {
        if !names_child(thread, slot) {
            return false;
        }
    }
    true
}

/// Whether a thread's state fits what is placed at its place.
pub fn fits_at(placed: &Placed, slots: Slots, thread: &ThreadState) -> bool
    ensures { (c : Compiled) → slots.variables ≡ c.variables → slots.handles ≡ c.handles → Decides result (FitsAt placed.now c thread.now) }
{
    thread.path.numbers().len() == placed.depth as usize
        && thread.region == placed.region
        && thread.locals.items().len() == slots.variables
        && thread.handles.items().len() == slots.handles
        && names_children(thread, placed.handles)
        && is_joined(thread)
        && thread.loops.items().len() == placed.loops as usize
        && thread.acts < u32::MAX
        && thread.forks < u32::MAX
}
