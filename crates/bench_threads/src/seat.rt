//! A thread at a place of its own in memory, so that lists of threads are moved by their pointers.
ghost use Rattle.std.specs.Prelude.{◌≡◌, IfOk};
ghost use Rattle.bench_model.specs.Paths.{path_cmp};
ghost use Rattle.bench_threads.specs.Threads.{released};

use crate::entry::{Entry, Mode};
use std::alloc::Global;
use std::cmp::Ordering;
use std::marker::Model;
use tb_base::{Memory, Path};

/// A box that contracts see as the thread in it.
#[derive(Drop)]
pub struct Seat {
    inner: Box<Entry>,
}

impl Model for Seat {
    ghost use Rattle.bench_threads.specs.declared.entry.Entry.{Entry};
    ghost use Rattle.bench_threads.specs.contracts.entry.Entry as entry;

    ghost Value = { Entry };

    ghost coded = { entry.the_row.coded };

    ghost view = { λ s. s.inner.value };
}

impl Seat {
    pub fn new(alloc: Global, entry: Entry) -> Result<Seat, Memory>
        ensures { IfOk result (λ seat. seat ≡ entry) }
    {
        Ok(Seat {
            inner: Box::new(alloc, entry)?,
        })
    }

    pub fn entry(&self) -> &Entry
        ensures { result.now ≡ self.now }
    {
        &self.inner
    }

    pub fn path(&self) -> &Path
        ensures { result.now ≡ self.now.state.path }
    {
        &self.inner.state.path
    }

    /// How the thread's path stands to a path.
    pub fn compare(&self, path: &Path) -> Ordering
        ensures { result ≡ path_cmp self.now.state.path path.now }
    {
        self.path().compare(path)
    }

    pub fn set(&mut self, entry: Entry)
        ensures { self.new ≡ entry }
    {
        *self.inner = entry;
    }

    pub fn set_mode(&mut self, mode: Mode)
        ensures { self.new ≡ record self.old { mode = mode } }
    {
        self.inner.mode = mode;
    }

    pub fn set_marked(&mut self, marked: bool)
        ensures { self.new ≡ record self.old { marked = marked } }
    {
        self.inner.marked = marked;
    }

    /// The thread waits no more.
    pub fn let_go(&mut self)
        ensures { self.new ≡ released self.old }
    {
        self.inner.mode = Mode::Running;
        self.inner.state.joined = None;
    }
}
