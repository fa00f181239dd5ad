//! What threads saw at ports.
ghost use Rattle.std.specs.Prelude.{◌≡◌};

use net_core::Signal;
use tb_base::{Path, Region};

/// What a thread saw at a port: a peek, or an expect that failed.
#[derive(Debug, Drop)]
pub struct Observation {
    /// The time step, counted from 0.
    pub time: u32,
    pub region: Region,
    pub path: Path,
    /// How many actions the thread had taken before.
    pub place: u32,
    /// The line of the statement.
    pub line: u32,
    pub port: Signal,
    /// The port's value, extended to 128 bits.
    pub value: u128,
    /// The number that was wanted; it is there exactly for a failure.
    pub wanted: Option<u128>,
}

impl Observation {
    /// An equal observation. Takes no memory.
    pub fn copy(&self) -> Observation
        ensures { result ≡ self.now }
    {
        Observation {
            time: self.time,
            region: self.region,
            path: self.path.copy(),
            place: self.place,
            line: self.line,
            port: self.port,
            value: self.value,
            wanted: self.wanted,
        }
    }
}
