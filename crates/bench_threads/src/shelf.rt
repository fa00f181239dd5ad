//! Threads in the order of their paths, with room for more that was taken before.
//!
//! A thread is found by a binary search. To put one in or to take one out moves the pointers behind it. Only `reserve_one` takes memory.
ghost use Rattle.std.specs.Prelude.{◌≡◌, ◌<◌, ◌≤◌, T, Some, None, IfOk, IfErr, OnOk, IfSome, cond, is_some, ◌^◌, length, option_map, false, slice_index_or, slice_set};
ghost use Rattle.std.specs.Prelude as list;
ghost use Rattle.std.specs.List.{remove, list_any};
ghost use Rattle.std.specs.Option.{option_copied};
ghost use Rattle.std.specs.FinMap as map;
ghost use Rattle.std.specs.FinMap.{is_sorted};
ghost use Rattle.bench_model.specs.Paths.{path_cmp};
ghost use Rattle.bench_threads.specs.Modes.{waits_step};
ghost use Rattle.bench_threads.specs.Shelves.{keyed, IsAt, IsGap, Listed, is_nil, first_unmarked};
ghost use Rattle.bench_threads.specs.declared.entry.Entry.{Entry};
ghost use Rattle.bench_threads.specs.Threads.{change, with_mark, unmarked, spent_seen, spent_in};

use crate::entry::{Entry, Mode};
use crate::seat::Seat;
use std::alloc::Global;
use std::marker::Model;
use tb_base::{Memory, Path, Region};

/// Threads in the order of their paths. Contracts see the map of them by path, and for how many threads there is room.
#[derive(Drop)]
pub struct Shelf {
    seats: Vec<Seat>,
}

impl Model for Shelf {
    ghost use Rattle.std.specs.Prelude.{T, vec_capacity};
    ghost use Rattle.std.specs.Coded.{codes};
    ghost use Rattle.std.specs.FinMap.{is_sorted};
    ghost use Rattle.bench_model.specs.Paths.{path_cmp};
    ghost use Rattle.bench_threads.specs.contracts.entry.Entry as entry;
    ghost use Rattle.bench_threads.specs.Shelves.{Shelved, keyed, shelved, shelved_code};

    ghost Value = { Shelved };

    ghost coded = { shelved_code entry.the_row.coded };

    ghost view = { λ s. record { threads = shelved s.seats.items; room = vec_capacity s.seats } };

    ghost invariant = { λ s. T (is_sorted path_cmp (keyed s.seats.items)) };
}

/// The place of a path among threads in order, or the place where it would go.
fn place(seats: &[Seat], path: &Path) -> Result<usize, usize>
    requires { T (is_sorted path_cmp (keyed seats.now)) }
    ensures found { IfOk result (λ i. IsAt seats.now path.now i) }
    ensures absent { IfErr result (λ i. IsGap seats.now path.now i) }
{
    seats.binary_search_by(|seat| seat.compare(path))
}

/// Whether one of these threads waits at a joinstep for the end of this child.
fn some_awaits(seats: &[Seat], child: &Path) -> bool
    ensures { result ≡ list_any (λ e. waits_step child.now e.mode) seats.now }
{
    seats.iter().any(|seat| seat.entry().mode.awaits(child))
}

/// Takes the marks of these threads away.
fn unmark(seats: &mut [Seat])
    ensures { seats.new ≡ list.map (with_mark false) seats.old }
{
    for seat in seats.iter_mut() {
        seat.set_marked(false);
    }
}

impl Shelf {
    /// No threads. Takes no memory.
    pub fn new(alloc: Global) -> Shelf
        ensures { result.threads ≡ map.empty }
    {
        Shelf {
            seats: Vec::new(alloc),
        }
    }

    /// How many threads are there.
    pub fn len(&self) -> usize
        ensures is { result ≡ map.len self.now.threads }
        ensures room { map.len self.now.threads ≤ self.now.room }
        ensures bound { self.now.room < 2 ^ 63 }
        ensures values { result ≡ length (map.values self.now.threads) }
        ensures listed { Listed self.now.threads }
    {
        self.seats.len()
    }

    /// Whether no thread is there.
    pub fn is_empty(&self) -> bool
        ensures { result ≡ is_nil (map.entries self.now.threads) }
    {
        self.seats.is_empty()
    }

    /// Whether no thread but that of this path is there. Takes a look-up where one thread is there.
    pub fn has_no_other(&self, path: &Path) -> bool
        ensures { result ≡ is_nil (map.entries (map.remove self.now.threads path.now)) }
    {
        match self.len() {
            0 => true,
            1 => self.find(path).is_some(),
            _ => false,
        }
    }

    /// The thread of a path. Takes a binary search.
    pub fn find(&self, path: &Path) -> Option<&Entry>
        ensures found { option_copied result ≡ map.get self.now.threads path.now }
        ensures path { IfSome result (λ entry. entry.now.state.path ≡ path.now) }
    {
        match place(&self.seats, path) {
            Ok(at) => Some(self.seats[at].entry()),
            Err(_) => None,
        }
    }

    /// Takes the thread of a path out.
    pub fn take(&mut self, path: &Path) -> Option<Seat>
        ensures found { result ≡ map.get self.old.threads path.now }
        ensures path { IfSome result (λ seat. seat.state.path ≡ path.now) }
        ensures threads { self.new.threads ≡ map.remove self.old.threads path.now }
        ensures room { self.new.room ≡ self.old.room }
    {
        match place(&self.seats, path) {
            Ok(at) => Some(self.seats.remove(at)),
            Err(_) => None,
        }
    }

    /// Puts a thread in whose path isn't there. Takes no memory.
    pub fn insert(&mut self, seat: Seat)
        requires absent { map.get self.old.threads seat.state.path ≡ None }
        requires room { map.len self.old.threads < self.old.room }
        ensures threads { self.new.threads ≡ map.insert self.old.threads seat.state.path seat }
        ensures room { self.new.room ≡ self.old.room }
    {
        match place(&self.seats, seat.path()) {
            Ok(_) => unreachable!(),
            Err(at) => match self.seats.insert(at, seat) {
                Ok(()) => {}
                Err(_) => unreachable!(),
            },
        }
    }

    /// Takes room for so many threads in all.
    pub fn make_room(&mut self, total: usize) -> Result<(), Memory>
        ensures threads { self.new.threads ≡ self.old.threads }
        ensures more { self.old.room ≤ self.new.room }
        ensures room { OnOk result (total ≤ self.new.room) }
    {
        let len = self.seats.len();
        if total > len {
            self.seats.reserve(total - len)?;
        }
        Ok(())
    }

    /// Puts a thread in the place of the one with its path, and gives it back where there is none.
    pub fn replace(&mut self, entry: Entry) -> Option<Entry>
        ensures back { result ≡ cond (is_some (map.get self.old.threads entry.state.path)) None (Some entry) }
        ensures threads { self.new.threads ≡ cond (is_some (map.get self.old.threads entry.state.path)) (map.insert self.old.threads entry.state.path entry) self.old.threads }
        ensures room { self.new.room ≡ self.old.room }
    {
        match place(&self.seats, &entry.state.path) {
            Ok(at) => {
                self.seats[at].set(entry);
                None
            }
            Err(_) => Some(entry),
        }
    }

    /// Sets or clears the mark of the thread of a path, and says whether there is one.
    pub fn set_marked(&mut self, path: &Path, marked: bool) -> bool
        ensures found { result ≡ is_some (map.get self.old.threads path.now) }
        ensures threads { self.new.threads ≡ change (with_mark marked) self.old.threads path.now }
        ensures room { self.new.room ≡ self.old.room }
    {
        match place(&self.seats, path) {
            Ok(at) => {
                self.seats[at].set_marked(marked);
                true
            }
            Err(_) => false,
        }
    }

    /// The first thread without a mark. Goes past those with one at the front.
    pub fn first_unmarked(&self) -> Option<&Entry>
        ensures { option_copied result ≡ first_unmarked (map.values self.now.threads) }
    {
        for seat in &self.seats {
            if !seat.entry().marked {
                return Some(seat.entry());
            }
        }
        None
    }

    /// Takes all marks away. Goes over all threads.
    pub fn unmark_all(&mut self)
        ensures threads { self.new.threads ≡ unmarked self.old.threads }
        ensures room { self.new.room ≡ self.old.room }
    {
        unmark(self.seats.as_mut_slice());
    }

    /// The first thread that is spent in a region, with its line. Goes over all threads.
    pub fn first_spent(&self, region: Region) -> Option<(&Path, u32)>
        ensures { option_map spent_seen result ≡ spent_in region (map.values self.now.threads) }
    {
        for seat in &self.seats {
            if let Some(line) = seat.entry().spent_line(region) {
                return Some((seat.path(), line));
            }
        }
        None
    }

    /// Whether some thread waits at a joinstep for the end of this child. Goes over the threads.
    pub fn awaits(&self, child: &Path) -> bool
        ensures { result ≡ list_any (λ e. waits_step child.now e.mode) (map.values self.now.threads) }
    {
        some_awaits(self.seats.as_slice(), child)
    }

    /// The thread at an index.
    pub fn at(&self, index: usize) -> &Entry
        requires { index < length (map.values self.now.threads) }
        ensures item { (d : Entry) → result.now ≡ slice_index_or (map.values self.now.threads) index d }
        ensures there { map.get self.now.threads result.now.state.path ≡ Some result.now }
    {
        self.seats[index].entry()
    }

    /// Takes the thread at an index out.
    pub fn take_at(&mut self, index: usize) -> Seat
        requires { index < length (map.values self.old.threads) }
        ensures item { (d : Entry) → result ≡ slice_index_or (map.values self.old.threads) index d }
        ensures threads { self.new.threads ≡ map.remove self.old.threads result.state.path }
        ensures values { map.values self.new.threads ≡ remove (map.values self.old.threads) index }
        ensures room { self.new.room ≡ self.old.room }
    {
        self.seats.remove(index)
    }

    /// Says for what the thread at an index waits from now on.
    pub fn set_mode_at(&mut self, index: usize, mode: Mode)
        requires { index < length (map.values self.old.threads) }
        ensures threads { (d : Entry) → let e = slice_index_or (map.values self.old.threads) index d in self.new.threads ≡ map.insert self.old.threads e.state.path (record e { mode = mode }) }
        ensures values { (d : Entry) → let e = slice_index_or (map.values self.old.threads) index d in map.values self.new.threads ≡ slice_set (map.values self.old.threads) index (record e { mode = mode }) }
        ensures room { self.new.room ≡ self.old.room }
    {
        self.seats[index].set_mode(mode);
    }
}
