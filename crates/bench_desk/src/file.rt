//! A desk over files and standard output, which does not tell what they hold.
//!
//! The report goes to standard output as it comes, with no buffer of its own. What a file or a terminal holds is
//! outside what is proved. A sink that takes no byte counts as a fault, so that a put always moves on.
ghost use Rattle.std.specs.Prelude.{◌≡◌, ℕ, ◌≤◌, ◌==◌, length, IfOk, OnErr, if◌then◌else◌};
ghost use Rattle.bench_desk.specs.Causes.{Rose};
ghost use Rattle.bench_desk.specs.Files.{file_meaning, input_phase, untold};

use crate::desk::{Desk, Failed, Lane, Phase, Slot};
use std::io::{Read, Write};
use std::rt::Files;
use std::{fs, io};

/// An input: not open, open, or read to its end and closed.
#[derive(Drop)]
pub enum Input<F> {
    Closed,
    Open(F),
    Ended,
}

/// A desk over files and standard output.
#[derive(Drop)]
pub struct FileDesk<R: Files + Print + Drop> {
    rt: R,
    faults: u64,
    circuit: Input<R::File>,
    test: Input<R::File>,
    wave: Option<R::File>,
}

impl<R: Files + Print + Drop> FileDesk<R> {
    /// A desk with no file open or made, whose count of faults is 0.
    pub fn new(rt: R) -> FileDesk<R>
        ensures { file_meaning result.faults result.circuit result.test result.wave ≡ untold }
    {
        FileDesk {
            rt,
            faults: 0,
            circuit: Input::Closed,
            test: Input::Closed,
            wave: None,
        }
    }

    /// Counts a call that failed.
    fn fault(&mut self) -> Failed
        ensures rose { Rose self.old.faults self.new.faults }
        ensures later { self.old.faults ≤ self.new.faults }
        ensures same { self.new ≡ record self.old { faults = self.new.faults } }
    {
        self.faults = self.faults.saturating_add(1);
        Failed
    }
}

/// Reads some bytes of an open input, and ends it where there are none.
fn pull_from<F: Read + Drop>(input: &mut Input<F>, buf: &mut [u8]) -> io::Result<usize>
    requires { input_phase input.old ≡ Phase.Reading }
    ensures bound { IfOk result (λ n. n ≤ length buf.new) }
    ensures ok { IfOk result (λ n. input_phase input.new ≡ (if n == 0 then Phase.Ended else Phase.Reading)) }
    ensures err { OnErr result (input_phase input.new ≡ Phase.Reading) }
{
    let count = match input {
        Input::Open(file) => file.read(buf)?,
        _ => 0,
    };
    if count == 0 {
        *input = Input::Ended;
    }
    Ok(count)
}

impl<R: Files + Print + Drop> Desk for FileDesk<R> {
    ghost meaning = { λ d. file_meaning d.faults d.circuit d.test d.wave };

    fn open_slot(&mut self, slot: Slot, name: &str) -> Result<(), Failed> {
        match fs::open(&self.rt, name) {
            Ok(file) => {
                match slot {
                    Slot::Circuit => self.circuit = Input::Open(file),
                    Slot::Test => self.test = Input::Open(file),
                }
                Ok(())
            }
            Err(_) => Err(self.fault()),
        }
    }

    fn pull(&mut self, slot: Slot, buf: &mut [u8]) -> Result<usize, Failed> {
        let pulled = match slot {
            Slot::Circuit => pull_from(&mut self.circuit, buf),
            Slot::Test => pull_from(&mut self.test, buf),
        };
        match pulled {
            Ok(count) => Ok(count),
            Err(_) => Err(self.fault()),
        }
    }

    fn create(&mut self, name: &str) -> Result<(), Failed> {
        match fs::create(&self.rt, name) {
            Ok(file) => {
                self.wave = Some(file);
                Ok(())
            }
            Err(_) => Err(self.fault()),
        }
    }

    fn put(&mut self, lane: Lane, bytes: &[u8]) -> Result<usize, Failed> {
        let taken = match (lane, &mut self.wave) {
            (Lane::Wave, Some(file)) => file.write(bytes),
            _ => io::writer(&self.rt).write(bytes),
        };
        match taken {
            Ok(count) if count > 0 => Ok(count),
            _ => Err(self.fault()),
        }
    }
}
