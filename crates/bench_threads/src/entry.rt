//! A thread of a bench, with what it waits for.
ghost use Rattle.std.specs.Prelude.{◌≡◌};
ghost use Rattle.bench_threads.specs.Modes.{is_running, waits_for, waits_step};
ghost use Rattle.bench_threads.specs.Queues.{queue_for, queue_of};
ghost use Rattle.bench_threads.specs.Threads.{same_region, line_in};

use std::cmp::Ordering;
use tb_base::{Path, Region};
use tl_code::ThreadState;

/// What a thread waits for.
#[derive(Debug, Drop)]
pub enum Mode {
    /// Nothing: it runs.
    Running,
    /// The end of this child.
    AtJoin(Path),
    /// So many edges.
    AtEdges(u128),
    /// The first edge at which this child has ended.
    AtJoinStep(Path),
    /// Nothing ever again: it has used up its local statements at this line.
    Spent(u32),
}

/// A thread that is there.
#[derive(Debug, Drop)]
pub struct Entry {
    pub state: ThreadState,
    pub mode: Mode,
    /// Whether its next action is handed out.
    pub marked: bool,
}

/// Where a thread stands: among those of its region that run, or among those that wait.
#[derive(Clone, Copy, Debug, PartialEq, Eq)]
pub enum Queue {
    Drivers,
    Monitors,
    Waiting,
}

/// What an edge does to a thread.
#[derive(Clone, Copy, Debug, PartialEq, Eq)]
pub enum Edge {
    /// Nothing.
    Stays,
    /// So many edges are left.
    Counts(u128),
    /// It waits no more.
    LetGo,
}

fn queue_for(mode: &Mode, region: Region) -> Queue
    ensures { result ≡ queue_for mode.now region }
{
    match mode {
        Mode::Running => match region {
            Region::Main => Queue::Drivers,
            Region::Monitor => Queue::Monitors,
        },
        _ => Queue::Waiting,
    }
}

impl Entry {
    /// Where the thread stands.
    pub fn queue(&self) -> Queue
        ensures { result ≡ queue_of self.now }
    {
        queue_for(&self.mode, self.state.region)
    }
}

impl Entry {
    /// Whether the thread is of a region.
    fn is_in(&self, region: Region) -> bool
        ensures { result ≡ same_region region self.now.state.region }
    {
        match region {
            Region::Main => matches!(self.state.region, Region::Main),
            Region::Monitor => matches!(self.state.region, Region::Monitor),
        }
    }

    /// The line at which the thread is spent, if it is and is of this region.
    pub fn spent_line(&self, region: Region) -> Option<u32>
        ensures { result ≡ line_in region self.now }
    {
        if !self.is_in(region) {
            return None;
        }
        match self.mode {
            Mode::Spent(line) => Some(line),
            _ => None,
        }
    }
}

impl Mode {
    /// Whether the thread waits for the end of this child, by a join.
    pub fn waits_for(&self, child: &Path) -> bool
        ensures { result ≡ waits_for child.now self.now }
    {
        match self {
            Mode::AtJoin(other) => matches!(child.compare(other), Ordering::Equal),
            _ => false,
        }
    }

    /// Whether the thread waits at a joinstep for the end of this child.
    pub fn awaits(&self, child: &Path) -> bool
        ensures { result ≡ waits_step child.now self.now }
    {
        match self {
            Mode::AtJoinStep(other) => matches!(child.compare(other), Ordering::Equal),
            _ => false,
        }
    }

    /// Whether the thread waits for nothing.
    pub fn is_running(&self) -> bool
        ensures { result ≡ is_running self.now }
    {
        matches!(self, Mode::Running)
    }
}
