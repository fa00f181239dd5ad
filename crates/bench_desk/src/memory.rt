//! A desk that keeps everything in memory.
//!
//! A slot that was opened is a `Reader`: the number of the file in `files` and how many of its bytes were taken.
//! So an open copies nothing. Both lanes take their room when the desk is made, so that no call takes memory.
//!
//! Invariants: a piece is at least one byte; the two lanes together hold at most `room` bytes, and each has
//! room for that many; a reader that reads stands in a file that is there and is the first of its name, and has
//! taken no more than the file has.
ghost use Rattle.std.specs.Prelude.{◌≡◌, ℕ, ◌+◌, ◌<◌, ◌≤◌, length, vec_len, vec_capacity, IsTrue};
ghost use Rattle.bench_desk.specs.Placed.{IsPlaced};

use crate::desk::{DeskFile, Lane, Phase};

mod calls;

use std::alloc::Global;
use tb_base::{Memory, Name, Seq};

/// How far the reading of one slot has come, and in which of the files.
#[derive(Clone, Copy)]
pub struct Reader {
    pub phase: Phase,
    pub file: usize,
    pub taken: usize,
}

/// A desk in memory, some calls of which fail.
///
/// Its calls, of all four kinds together, are numbered from 0. None of them takes memory.
#[derive(Drop)]
pub struct MemoryDesk {
    files: Seq<DeskFile>,
    can_make: Name,
    piece: usize,
    failing: Seq<u32>,
    room: usize,
    calls: u64,
    faults: u64,
    circuit: Reader,
    test: Reader,
    made: bool,
    report: Vec<u8>,
    wave: Vec<u8>,
    ghost some: { 0 < piece },
    ghost fits: { vec_len report + vec_len wave ≤ room },
    ghost report_room: { room ≤ vec_capacity report },
    ghost wave_room: { room ≤ vec_capacity wave },
    ghost circuit_placed: { IsPlaced files circuit.phase circuit.file circuit.taken },
    ghost test_placed: { IsPlaced files test.phase test.file test.taken },
}

impl MemoryDesk {
    ghost use Rattle.std.specs.Prelude.{IfOk, IfSome};
    ghost use Rattle.bench_desk.specs.Memory.{memory_meaning, settings};
    ghost use Rattle.bench_desk.specs.Fresh.{fresh};
    ghost use Rattle.bench_desk.specs.Meaning.{lane_of};

    /// A desk that holds these files, with no slot open, no file made and nothing put.
    ///
    /// `wave` is the one name that it can make. A pull and a put move at most `piece` bytes. The calls whose
    /// numbers stand in `failing` fail, and so does a put that would bring both lanes together above `room`
    /// bytes. Want of memory is the one refusal, and drops what was passed.
    pub fn new(
        alloc: Global,
        files: Seq<DeskFile>,
        wave: Name,
        piece: usize,
        failing: Seq<u32>,
        room: usize,
    ) -> Result<MemoryDesk, Memory>
        requires { 0 < piece }
        ensures meaning { IfOk result (λ d. memory_meaning d ≡ fresh files wave) }
        ensures settings { IfOk result (λ d. settings d
            ≡ record { piece = piece; failing = failing; room = room }) }
        ensures calls { IfOk result (λ d. d.calls ≡ 0) }
    {
        let report_bytes = Vec::with_capacity(alloc, room)?;
        let wave_bytes = Vec::with_capacity(alloc, room)?;
        let start = Reader {
            phase: Phase::Closed,
            file: 0,
            taken: 0,
        };
        Ok(MemoryDesk {
            files,
            can_make: wave,
            piece,
            failing,
            room,
            calls: 0,
            faults: 0,
            circuit: start,
            test: start,
            made: false,
            report: report_bytes,
            wave: wave_bytes,
        })
    }

    /// All bytes that were put on the lane.
    pub fn lane(&self, lane: Lane) -> &[u8]
        ensures { IfSome (memory_meaning self.now).outputs (λ o. result.now ≡ lane_of lane o) }
    {
        match lane {
            Lane::Report => self.report.as_slice(),
            Lane::Wave => self.wave.as_slice(),
        }
    }
}
