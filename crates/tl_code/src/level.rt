//! Where a place stands, but for the names that are known there.
ghost use Rattle.std.specs.Prelude.{◌≡◌, ◌<◌, suc};

use tb_base::Region;

/// The forks round a place, the region of the threads that come to it, and the `repeat`s round it within the innermost fork.
#[derive(Clone, Copy, Debug, PartialEq, Eq)]
pub struct Level {
    pub depth: u32,
    pub region: Region,
    pub loops: u32,
}

impl Level {
    /// Where a test begins.
    pub fn first() -> Level
        ensures { result ≡ record { depth = 0; region = Region.Main; loops = 0 } }
    {
        Level {
            depth: 0,
            region: Region::Main,
            loops: 0,
        }
    }

    /// Inside a `repeat`.
    pub fn inside_repeat(self) -> Level
        requires { self.loops < u32.MAX }
        ensures { result ≡ record self { loops = suc self.loops } }
    {
        Level {
            depth: self.depth,
            region: self.region,
            loops: self.loops + 1,
        }
    }

    /// Inside a fork whose child has this region.
    pub fn inside_fork(self, region: Region) -> Level
        requires { self.depth < u32.MAX }
        ensures { result ≡ record { depth = suc self.depth; region = region; loops = 0 } }
    {
        Level {
            depth: self.depth + 1,
            region,
            loops: 0,
        }
    }
}
