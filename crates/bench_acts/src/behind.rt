//! A thread behind its act.
ghost use Rattle.std.specs.Prelude.{◌≡◌, ◌≤◌, length, slice_set};
ghost use Rattle.bench_acts.specs.Behind.{mode_behind, with_number, parent_of};

use bench_threads::Mode;
use std::alloc::Global;
use tb_base::{Path, Seq};
use tl_code::ThreadState;
use tl_prepare::Act;

/// What a thread waits for behind its act. Of a join, `there` says whether its child is still there; of another act it says nothing. Takes no
/// memory.
pub fn mode_behind(act: &Act, there: bool) -> Mode
    ensures { result ≡ mode_behind act.now there }
{
    match act {
        Act::Join { child, .. } if there => Mode::AtJoin(child.copy()),
        Act::Arrive { count, .. } => Mode::AtEdges(*count),
        Act::JoinStep { child, .. } => Mode::AtJoinStep(child.copy()),
        Act::Spend { line } => Mode::Spent(*line),
        _ => Mode::Running,
    }
}

/// The numbers with one of them replaced; where there is no such slot they are as they were.
fn with_slot(locals: Seq<u128>, slot: u32, value: u128) -> Seq<u128>
    ensures { result ≡ slice_set locals slot value }
{
    let mut locals = locals.into_vec();
    let slot = slot as usize;
    if slot < locals.len() {
        locals[slot] = value;
    }
    Seq::of(locals)
}

/// The state behind an act that read this number: a peek that names a slot puts the number there. Takes no memory.
pub fn with_number(next: ThreadState, act: &Act, value: u128) -> ThreadState
    ensures { result ≡ with_number next act.now value }
{
    match act {
        Act::Peek {
            into: Some(slot),
            ..
        } => {
            let mut next = next;
            next.locals = with_slot(next.locals, *slot, value);
            next
        }
        _ => next,
    }
}

/// The path of these numbers. Takes no memory.
fn path_along(alloc: Global, numbers: &[u32]) -> Path
    requires { length numbers.now ≤ 8 }
    ensures { result ≡ numbers.now }
{
    let mut path = Path::root(alloc);
    for number in numbers {
        match path.child(*number) {
            Some(child) => path = child,
            None => unreachable!(),
        }
    }
    path
}

/// The path of the thread that forked the one of this path: all its numbers but the last. `None` exactly for the root. Takes no memory.
pub fn parent_of(alloc: Global, path: &Path) -> Option<Path>
    ensures { result ≡ parent_of path.now }
{
    match path.numbers().split_last() {
        None => None,
        Some((_, front)) => Some(path_along(alloc, front)),
    }
}
