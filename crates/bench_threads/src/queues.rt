//! The threads that run, region by region, and those that wait, each in the order of their paths.
//!
//! A thread stands on one of three shelves, by what it waits for and by its region. Each shelf has room for all threads, so that a thread
//! can change over without taking memory.
ghost use Rattle.std.specs.Prelude.{◌≡◌, ◌<◌, ◌≤◌, None, OnOk, IfSome, is_some, ◌^◌, true, option_map, length, take, slice_index_or};
ghost use Rattle.std.specs.Option.{option_copied, IfNone};
ghost use Rattle.std.specs.FinMap as map;
ghost use Rattle.bench_threads.specs.Threads.{change, with_mark, running, woken, waits_at, unmarked, quiet, may_act, is_enabled, least_unmarked, spent_seen, spent_named, first_spent, edge_of, tick_mode, tick, sooner, edges_of, edges_ahead, is_awaited};
ghost use Rattle.bench_threads.specs.Queues.{waiting_of};
ghost use Rattle.bench_threads.specs.declared.entry.Entry.{Entry};

use crate::entry::{Edge, Entry, Mode, Queue};
use crate::seat::Seat;
use crate::shelf::Shelf;
use std::alloc::Global;
use std::marker::Model;
use tb_base::{Memory, Path, Region};

/// The threads that are there. Contracts see the map of them by path, and for how many threads there is room.
#[derive(Drop)]
pub struct Queues {
    drivers: Shelf,
    monitors: Shelf,
    waiting: Shelf,
}

impl Model for Queues {
    ghost use Rattle.bench_threads.specs.contracts.entry.Entry as entry;
    ghost use Rattle.bench_threads.specs.Shelves.{Shelved, shelved_code};
    ghost use Rattle.bench_threads.specs.Houses.{all, room_in, Shared};

    ghost Value = { Shelved };

    ghost coded = { shelved_code entry.the_row.coded };

    ghost view = { λ q. record { threads = all q.drivers.threads q.monitors.threads q.waiting.threads; room = room_in q.drivers q.monitors q.waiting } };

    ghost invariant = { λ q. Shared q.drivers q.monitors q.waiting };
}

/// The lesser of two numbers of edges, where `None` is more than each number.
fn sooner(this: Option<u128>, that: Option<u128>) -> Option<u128>
    ensures { result ≡ sooner this that }
{
    match this {
        None => that,
        Some(first) => match that {
            None => Some(first),
            Some(second) => Some(first.min(second)),
        },
    }
}

impl Queues {
    /// No threads. Takes no memory.
    pub fn new(alloc: Global) -> Queues
        ensures { result.threads ≡ map.empty }
    {
        Queues {
            drivers: Shelf::new(alloc),
            monitors: Shelf::new(alloc),
            waiting: Shelf::new(alloc),
        }
    }

    /// How many threads are there.
    pub fn len(&self) -> usize
        ensures is { result ≡ map.len self.now.threads }
        ensures room { map.len self.now.threads ≤ self.now.room }
        ensures bound { self.now.room < 2 ^ 63 }
    {
        self.drivers.len() + self.monitors.len() + self.waiting.len()
    }

    /// The thread of a path.
    pub fn find(&self, path: &Path) -> Option<&Entry>
        ensures found { option_copied result ≡ map.get self.now.threads path.now }
        ensures path { IfSome result (λ entry. entry.now.state.path ≡ path.now) }
    {
        if let Some(entry) = self.drivers.find(path) {
            return Some(entry);
        }
        if let Some(entry) = self.monitors.find(path) {
            return Some(entry);
        }
        self.waiting.find(path)
    }

    /// Takes the thread of a path out.
    pub fn take(&mut self, path: &Path) -> Option<Seat>
        ensures found { result ≡ map.get self.old.threads path.now }
        ensures path { IfSome result (λ seat. seat.state.path ≡ path.now) }
        ensures threads { self.new.threads ≡ map.remove self.old.threads path.now }
        ensures room { self.new.room ≡ self.old.room }
        ensures spare { IfSome result (λ _. map.len self.new.threads < self.new.room) }
    {
        if let Some(seat) = self.drivers.take(path) {
            return Some(seat);
        }
        if let Some(seat) = self.monitors.take(path) {
            return Some(seat);
        }
        self.waiting.take(path)
    }

    /// Puts a thread in whose path isn't there. Takes no memory.
    pub fn insert(&mut self, seat: Seat)
        requires absent { map.get self.old.threads seat.state.path ≡ None }
        requires room { map.len self.old.threads < self.old.room }
        ensures threads { self.new.threads ≡ map.insert self.old.threads seat.state.path seat }
        ensures room { self.new.room ≡ self.old.room }
    {
        match seat.entry().queue() {
            Queue::Drivers => self.drivers.insert(seat),
            Queue::Monitors => self.monitors.insert(seat),
            Queue::Waiting => self.waiting.insert(seat),
        }
    }

    /// Takes room for one more thread.
    pub fn reserve_one(&mut self) -> Result<(), Memory>
        ensures threads { self.new.threads ≡ self.old.threads }
        ensures more { self.old.room ≤ self.new.room }
        ensures room { OnOk result (map.len self.old.threads < self.new.room) }
    {
        let total = self.len() + 1;
        self.drivers.make_room(total)?;
        self.monitors.make_room(total)?;
        self.waiting.make_room(total)
    }

    /// Puts a thread in the place of the one with its path, where both stand on the same shelf. Else gives it back.
    fn replace_in_place(&mut self, entry: Entry) -> Option<Entry>
        ensures kept { IfSome result (λ back. back ≡ entry) }
        ensures same { IfSome result (λ _. self.new.threads ≡ self.old.threads) }
        ensures done { IfNone result (self.new.threads ≡ map.insert self.old.threads entry.state.path entry) }
        ensures room { self.new.room ≡ self.old.room }
    {
        match entry.queue() {
            Queue::Drivers => self.drivers.replace(entry),
            Queue::Monitors => self.monitors.replace(entry),
            Queue::Waiting => self.waiting.replace(entry),
        }
    }

    /// Puts a thread in the place of the one with its path, which may stand on another shelf.
    fn change_over(&mut self, entry: Entry)
        requires { is_some (map.get self.old.threads entry.state.path) ≡ true }
        ensures threads { self.new.threads ≡ map.insert self.old.threads entry.state.path entry }
        ensures room { self.new.room ≡ self.old.room }
    {
        match self.take(&entry.state.path) {
            None => unreachable!(),
            Some(mut seat) => {
                seat.set(entry);
                self.insert(seat);
            }
        }
    }

    /// Puts a thread in the place of the one with its path, which is there. Takes no memory.
    pub fn replace(&mut self, entry: Entry)
        requires { is_some (map.get self.old.threads entry.state.path) ≡ true }
        ensures threads { self.new.threads ≡ map.insert self.old.threads entry.state.path entry }
        ensures room { self.new.room ≡ self.old.room }
    {
        match self.replace_in_place(entry) {
            None => {}
            Some(entry) => self.change_over(entry),
        }
    }

    /// Sets or clears the mark of the thread of a path, where there is one.
    pub fn set_marked(&mut self, path: &Path, marked: bool)
        ensures threads { self.new.threads ≡ change (with_mark marked) self.old.threads path.now }
        ensures room { self.new.room ≡ self.old.room }
    {
        let _driver = self.drivers.set_marked(path, marked);
        let _monitor = self.monitors.set_marked(path, marked);
        let _waiting = self.waiting.set_marked(path, marked);
    }

    /// Whether no thread is running.
    pub fn is_quiet(&self) -> bool
        ensures { result ≡ quiet self.now.threads }
    {
        self.drivers.is_empty() && self.monitors.is_empty()
    }

    /// Whether no thread but that of a path is running. Takes two look-ups at most.
    pub fn runs_alone(&self, path: &Path) -> bool
        ensures { result ≡ quiet (map.remove self.now.threads path.now) }
    {
        self.drivers.has_no_other(path) && self.monitors.has_no_other(path)
    }

    /// Whether a thread may act.
    fn may_act(&self, entry: &Entry) -> bool
        ensures { result ≡ may_act self.now.threads entry.now }
    {
        match entry.queue() {
            Queue::Drivers => true,
            Queue::Monitors => self.drivers.is_empty(),
            Queue::Waiting => false,
        }
    }

    /// Whether the thread of a path is there and may act.
    pub fn is_enabled(&self, path: &Path) -> bool
        ensures { result ≡ is_enabled self.now.threads (map.get self.now.threads path.now) }
    {
        match self.find(path) {
            None => false,
            Some(entry) => self.may_act(entry),
        }
    }

    /// The thread of least path that may act and isn't marked.
    pub fn least_unmarked(&self) -> Option<&Entry>
        ensures { option_copied result ≡ least_unmarked self.now.threads }
    {
        if self.drivers.is_empty() {
            self.monitors.first_unmarked()
        } else {
            self.drivers.first_unmarked()
        }
    }

    /// Takes all marks away. Goes over all threads.
    pub fn unmark_all(&mut self)
        ensures threads { self.new.threads ≡ unmarked self.old.threads }
        ensures room { self.new.room ≡ self.old.room }
    {
        self.drivers.unmark_all();
        self.monitors.unmark_all();
        self.waiting.unmark_all();
    }

    /// Whether the thread of a path is there and waits for the end of this child.
    fn waits_for(&self, path: &Path, child: &Path) -> bool
        ensures { result ≡ waits_at child.now (map.get self.now.threads path.now) }
    {
        match self.find(path) {
            None => false,
            Some(entry) => entry.mode.waits_for(child),
        }
    }

    /// The thread of a path, where it is there, runs from now on.
    fn run(&mut self, path: &Path)
        ensures threads { self.new.threads ≡ change running self.old.threads path.now }
        ensures room { self.new.room ≡ self.old.room }
    {
        match self.take(path) {
            None => {}
            Some(mut seat) => {
                seat.set_mode(Mode::Running);
                self.insert(seat);
            }
        }
    }

    /// Lets the thread of a path run, where it is there and waits for the end of this child. Takes no memory.
    pub fn wake(&mut self, path: &Path, child: &Path)
        ensures threads { self.new.threads ≡ change (woken child.now) self.old.threads path.now }
        ensures room { self.new.room ≡ self.old.room }
    {
        if self.waits_for(path, child) {
            self.run(path);
        }
    }

    /// The thread that is spent, of the least region and in it of the least path, with its line. Goes over those that wait.
    pub fn first_spent(&self) -> Option<(&Path, u32)>
        ensures { option_map spent_seen result ≡ option_map spent_named (first_spent (map.entries self.now.threads)) }
    {
        if let Some(spent) = self.waiting.first_spent(Region::Main) {
            return Some(spent);
        }
        self.waiting.first_spent(Region::Monitor)
    }

    /// What an edge does to a thread that waits so.
    fn after_edge(&self, mode: &Mode) -> Edge
        ensures { result ≡ edge_of self.now.threads mode.now }
    {
        match mode {
            Mode::AtEdges(left) if *left <= 1 => Edge::LetGo,
            Mode::AtEdges(left) => Edge::Counts(*left - 1),
            Mode::AtJoinStep(child) => match self.find(child) {
                None => Edge::LetGo,
                Some(_) => Edge::Stays,
            },
            _ => Edge::Stays,
        }
    }

    /// The edge for the thread at an index of those that wait.
    fn tick_at(&mut self, index: usize)
        requires { index < length (waiting_of self.old.threads) }
        ensures threads { (d : Entry) → let e = slice_index_or (waiting_of self.old.threads) index d in self.new.threads ≡ map.insert self.old.threads e.state.path (tick_mode self.old.threads e e.mode) }
        ensures front { take index (waiting_of self.new.threads) ≡ take index (waiting_of self.old.threads) }
        ensures room { self.new.room ≡ self.old.room }
    {
        match self.after_edge(&self.waiting.at(index).mode) {
            Edge::Stays => {}
            Edge::Counts(left) => self.waiting.set_mode_at(index, Mode::AtEdges(left)),
            Edge::LetGo => {
                let mut seat = self.waiting.take_at(index);
                seat.let_go();
                self.insert(seat);
            }
        }
    }

    /// An edge: counts of edges go down, and those who have none left, or wait for a child that is gone, run from now on. Goes over those
    /// that wait, and takes no memory.
    pub fn tick(&mut self)
        ensures threads { self.new.threads ≡ tick self.old.threads }
        ensures room { self.new.room ≡ self.old.room }
    {
        let mut left = self.waiting.len();
        while left > 0 {
            left -= 1;
            self.tick_at(left);
        }
    }

    /// After how many edges a thread that waits so runs, if nobody acts before.
    fn edges_of(&self, mode: &Mode) -> Option<u128>
        ensures { result ≡ edges_of self.now.threads mode.now }
    {
        match mode {
            Mode::AtEdges(left) => Some((*left).max(1)),
            Mode::AtJoinStep(child) => match self.find(child) {
                None => Some(1),
                Some(_) => None,
            },
            _ => None,
        }
    }

    /// After how many edges the first thread that waits runs, if nobody acts before. Goes over those that wait, and takes no memory.
    pub fn edges_ahead(&self) -> Option<u128>
        ensures { result ≡ edges_ahead self.now.threads }
    {
        let mut first = None;
        let mut index = self.waiting.len();
        while index > 0 {
            index -= 1;
            first = sooner(self.edges_of(&self.waiting.at(index).mode), first);
        }
        first
    }

    /// Whether some thread waits at a joinstep for the end of this child. Goes over those that wait.
    pub fn is_awaited(&self, child: &Path) -> bool
        ensures { result ≡ is_awaited self.now.threads child.now }
    {
        self.waiting.awaits(child)
    }
}
