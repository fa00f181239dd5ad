//! What a thread did, as far as the order of events and their conflicts depend on it.
ghost use Rattle.std.specs.Prelude.{◌≡◌};

use net_core::Signal;
use tb_base::{Path, Region};

/// One act of a thread.
#[derive(Debug, Drop)]
pub struct Event {
    /// The thread that acted.
    pub path: Path,
    pub region: Region,
    /// The child that the thread's act before this one joined, if that was a join.
    pub joined: Option<Path>,
    /// The line of its statement; the end of a thread has line 0.
    pub line: u32,
    pub kind: Kind,
}

/// What an act does. A child is named by its path.
#[derive(Debug, Drop)]
pub enum Kind {
    Poke(Signal),
    Peek(Signal),
    Expect(Signal),
    Fork(Path),
    Join(Path),
    Arrive,
    JoinStep(Path),
    Spend,
    End,
}

impl Kind {
    /// An equal kind. Takes no memory.
    pub fn copy(&self) -> Kind
        ensures { result ≡ self.now }
    {
        match self {
            Kind::Poke(port) => Kind::Poke(*port),
            Kind::Peek(signal) => Kind::Peek(*signal),
            Kind::Expect(signal) => Kind::Expect(*signal),
            Kind::Fork(child) => Kind::Fork(child.copy()),
            Kind::Join(child) => Kind::Join(child.copy()),
            Kind::Arrive => Kind::Arrive,
            Kind::JoinStep(child) => Kind::JoinStep(child.copy()),
            Kind::Spend => Kind::Spend,
            Kind::End => Kind::End,
        }
    }
}

impl Event {
    /// An equal event. Takes no memory.
    pub fn copy(&self) -> Event
        ensures { result ≡ self.now }
    {
        Event {
            path: self.path.copy(),
            region: self.region,
            joined: self.joined.as_ref().map(|child| child.copy()),
            line: self.line,
            kind: self.kind.copy(),
        }
    }
}
