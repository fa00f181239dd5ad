//! The table of a bench's threads.
ghost use Rattle.std.specs.Prelude.{◌≡◌, None, Some, true, false, IfOk, OnOk, IfSome, is_some, option_map};
ghost use Rattle.std.specs.Option.{option_copied};
ghost use Rattle.std.specs.FinMap as map;
ghost use Rattle.bench_threads.specs.Tables.{started, standing};
ghost use Rattle.bench_threads.specs.Threads.{change, with_mark, woken, unmarked, quiet, is_enabled, least_unmarked, spent_seen, spent_named, first_spent, tick, edges_ahead, is_awaited};

use crate::entry::{Entry, Mode};
use crate::queues::Queues;
use crate::seat::Seat;
use std::alloc::Global;
use std::marker::Model;
use std::mem;
use tb_base::{Memory, Path, Region, Seq};
use tl_code::ThreadState;

/// The threads of a bench: those that are there, what each waits for, and which are marked. Contracts see the map of them by path, and
/// whether there is room for one more.
///
/// A look-up takes a binary search among each of those of Main that run, those of Monitor that run, and those that wait. To add, remove or
/// replace a thread moves the pointers behind it, and no thread. Only `new` and `reserve_one` take memory.
#[derive(Drop)]
pub struct ThreadTable {
    queues: Queues,
    spare: Option<Seat>,
}

impl Model for ThreadTable {
    ghost use Rattle.std.specs.Prelude.{◌≡◌, ◌<◌, is_some, true};
    ghost use Rattle.std.specs.FinMap as map;
    ghost use Rattle.bench_threads.specs.contracts.entry.Entry as entry;
    ghost use Rattle.bench_threads.specs.Tables.{Table, table_code};

    ghost Value = { Table };

    ghost coded = { table_code entry.the_row.coded };

    ghost view = { λ t. record { threads = t.queues.threads; ready = is_some t.spare } };

    ghost invariant = { λ t. is_some t.spare ≡ true → map.len t.queues.threads < t.queues.room };
}

/// A thread without a mark.
fn standing(state: ThreadState, mode: Mode) -> Entry
    ensures { result ≡ standing state mode }
{
    Entry {
        state,
        mode,
        marked: false,
    }
}

/// A thread that stands for none. Takes no memory.
fn blank(alloc: Global) -> Entry {
    let state = ThreadState {
        path: Path::root(alloc),
        region: Region::Main,
        pc: 0,
        locals: Seq::of(Vec::new(alloc)),
        handles: Seq::of(Vec::new(alloc)),
        loops: Seq::of(Vec::new(alloc)),
        forks: 0,
        acts: 0,
        joined: None,
    };
    standing(state, Mode::Running)
}

impl ThreadTable {
    /// A table of one thread, which is running and has no mark. `Err(Memory)` says that there wasn't enough memory.
    pub fn new(alloc: Global, root: ThreadState) -> Result<ThreadTable, Memory>
        ensures threads { IfOk result (λ table. table.threads ≡ map.insert map.empty root.path (started root)) }
        ensures ready { IfOk result (λ table. table.ready ≡ false) }
    {
        let mut queues = Queues::new(alloc);
        queues.reserve_one()?;
        let seat = Seat::new(alloc, standing(root, Mode::Running))?;
        queues.insert(seat);
        Ok(ThreadTable {
            queues,
            spare: None,
        })
    }

    /// How many threads are there.
    pub fn len(&self) -> usize
        ensures { result ≡ map.len self.now.threads }
    {
        self.queues.len()
    }

    /// The thread of a path, where it is there.
    pub fn find(&self, path: &Path) -> Option<&Entry>
        ensures found { option_copied result ≡ map.get self.now.threads path.now }
        ensures path { IfSome result (λ entry. entry.now.state.path ≡ path.now) }
    {
        self.queues.find(path)
    }

    /// Whether the thread of a path is there.
    pub fn contains(&self, path: &Path) -> bool
        ensures { result ≡ is_some (map.get self.now.threads path.now) }
    {
        self.queues.find(path).is_some()
    }

    /// Whether the thread of a path is there and may act: it is running, and no running thread is of a lesser region.
    pub fn is_enabled(&self, path: &Path) -> bool
        ensures { result ≡ is_enabled self.now.threads (map.get self.now.threads path.now) }
    {
        self.queues.is_enabled(path)
    }

    /// Whether nobody may act: no thread is running.
    pub fn is_quiet(&self) -> bool
        ensures { result ≡ quiet self.now.threads }
    {
        self.queues.is_quiet()
    }

    /// Whether nobody but the thread of this path runs; whether that one runs, or is there, makes no difference.
    pub fn runs_alone(&self, path: &Path) -> bool
        ensures { result ≡ quiet (map.remove self.now.threads path.now) }
    {
        self.queues.runs_alone(path)
    }

    /// The thread of least path that may act and isn't marked. Goes past the marked ones before it.
    pub fn least_unmarked(&self) -> Option<&Entry>
        ensures { option_copied result ≡ least_unmarked self.now.threads }
    {
        self.queues.least_unmarked()
    }

    /// Marks the thread of a path, where it is there.
    pub fn mark(&mut self, path: &Path)
        ensures threads { self.new.threads ≡ change (with_mark true) self.old.threads path.now }
        ensures ready { self.new.ready ≡ self.old.ready }
    {
        self.queues.set_marked(path, true);
    }

    /// Takes the mark of the thread of a path away, where it is there.
    pub fn unmark(&mut self, path: &Path)
        ensures threads { self.new.threads ≡ change (with_mark false) self.old.threads path.now }
        ensures ready { self.new.ready ≡ self.old.ready }
    {
        self.queues.set_marked(path, false);
    }

    /// Takes all marks away. Goes over all threads.
    pub fn unmark_all(&mut self)
        ensures threads { self.new.threads ≡ unmarked self.old.threads }
        ensures ready { self.new.ready ≡ self.old.ready }
    {
        self.queues.unmark_all();
    }

    /// Takes room for one more thread. `Err(Memory)` says that there wasn't enough memory; the threads are as they were.
    pub fn reserve_one(&mut self, alloc: Global) -> Result<(), Memory>
        ensures threads { self.new.threads ≡ self.old.threads }
        ensures ready { OnOk result (self.new.ready ≡ true) }
    {
        self.queues.reserve_one()?;
        if self.spare.is_none() {
            self.spare = Some(Seat::new(alloc, blank(alloc))?);
        }
        Ok(())
    }

    /// Adds a thread, running and without a mark, in the room that was taken for it. Takes no memory.
    pub fn add(&mut self, child: ThreadState)
        requires absent { map.get self.old.threads child.path ≡ None }
        requires ready { self.old.ready ≡ true }
        ensures threads { self.new.threads ≡ map.insert self.old.threads child.path (started child) }
        ensures ready { self.new.ready ≡ false }
    {
        match mem::replace(&mut self.spare, None) {
            None => unreachable!(),
            Some(mut seat) => {
                seat.set(standing(child, Mode::Running));
                self.queues.insert(seat);
            }
        }
    }

    /// Puts a thread, without a mark, in the place of the one with its path, which is there. Takes no memory.
    pub fn replace(&mut self, state: ThreadState, mode: Mode)
        requires { is_some (map.get self.old.threads state.path) ≡ true }
        ensures threads { self.new.threads ≡ map.insert self.old.threads state.path (standing state mode) }
        ensures ready { self.new.ready ≡ self.old.ready }
    {
        self.queues.replace(standing(state, mode));
    }

    /// Removes the thread of a path, where it is there. Takes no memory.
    pub fn remove(&mut self, path: &Path)
        ensures threads { self.new.threads ≡ map.remove self.old.threads path.now }
        ensures ready { self.new.ready ≡ self.old.ready }
    {
        let _ended = self.queues.take(path);
    }

    /// Lets the thread of a path run, where it is there and waits by a join for the end of this child. Takes no memory.
    pub fn wake(&mut self, parent: &Path, child: &Path)
        ensures threads { self.new.threads ≡ change (woken child.now) self.old.threads parent.now }
        ensures ready { self.new.ready ≡ self.old.ready }
    {
        self.queues.wake(parent, child);
    }

    /// The spent thread of the least region, and in it of the least path, with its line. Goes over the threads that wait.
    pub fn first_spent(&self) -> Option<(&Path, u32)>
        ensures { option_map spent_seen result ≡ option_map spent_named (first_spent (map.entries self.now.threads)) }
    {
        self.queues.first_spent()
    }

    /// An edge: counts of edges go down by one, and the threads that have none left, or wait at a joinstep for a child that isn't there,
    /// run from now on. Goes over the threads that wait, and takes no memory.
    pub fn tick(&mut self)
        ensures threads { self.new.threads ≡ tick self.old.threads }
        ensures ready { self.new.ready ≡ self.old.ready }
    {
        self.queues.tick();
    }

    /// After how many edges the first waiting thread runs, if nobody acts before: one that waits for edges, after so many of them and at
    /// least one; one that waits at a joinstep for a child that isn't there, after one. `None` where no thread waits so. Goes over the
    /// threads that wait, with a look-up for each that waits at a joinstep, and takes no memory.
    pub fn edges_ahead(&self) -> Option<u128>
        ensures { result ≡ edges_ahead self.now.threads }
    {
        self.queues.edges_ahead()
    }

    /// Whether some thread waits at a joinstep for the end of this child. Goes over the threads that wait, and takes no memory.
    pub fn is_awaited(&self, child: &Path) -> bool
        ensures { result ≡ is_awaited self.now.threads child.now }
    {
        self.queues.is_awaited(child)
    }
}
