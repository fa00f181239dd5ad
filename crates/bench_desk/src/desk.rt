//! What a desk does and means.
ghost use Rattle.std.specs.Prelude.{◌≡◌, ℕ, ◌+◌, ◌<◌, ◌≤◌, ◌↔◌, ◌⊎◌, Bool, true, false, length, take, drop, OnOk, OnErr, IfOk, IfSome, IsSome};
ghost use Rattle.bench_desk.specs.Causes.{Rose};
ghost use Rattle.bench_desk.specs.Meaning.{Meaning, content, slot_of, place_bytes, failed, opened, pulled, created, put_on, LacksFile, LacksMaking, has_lane};

use tb_base::{Name, Seq};

/// A call on a desk failed. Nothing but the desk's count of faults has changed.
#[derive(Clone, Copy, Debug, PartialEq, Eq)]
pub struct Failed;

/// An input: the file of the circuit, or the file of the test.
#[derive(Clone, Copy, Debug, PartialEq, Eq)]
pub enum Slot {
    Circuit,
    Test,
}

/// An output. The report is there from the start; the waveform wants a file to be made first.
#[derive(Clone, Copy, Debug, PartialEq, Eq)]
pub enum Lane {
    Report,
    Wave,
}

/// How far the reading of a slot has come: not begun, going on, or at an end.
#[derive(Clone, Copy, Debug, PartialEq, Eq)]
pub enum Phase {
    Closed,
    Reading,
    Ended,
}

/// A file that a desk in memory holds.
#[derive(Drop)]
pub struct DeskFile {
    pub name: Name,
    pub bytes: Seq<u8>,
}

/// Two inputs and two outputs, each call of which may fail.
///
/// A desk keeps a count of faults, which never falls. A call answers `Failed` only where the count rose in it
/// or stands at its last value, 2^64 - 1, or where the desk tells its files and has none of the name to open,
/// or cannot make the name to create. After `Failed` all is as before the call, but for the count.
pub trait Desk {
    ghost meaning: { Self → Meaning };

    /// Opens the file of that name for the slot, with no bytes taken, also where the slot was open.
    ///
    /// Where a desk holds two files of that name, the first is meant.
    fn open_slot(&mut self, slot: Slot, name: &str) -> Result<(), Failed>
        ensures later { (meaning self.old).faults ≤ (meaning self.new).faults }
        ensures ok { OnOk result (meaning self.new
            ≡ opened slot name.now (meaning self.old) (meaning self.new).faults) }
        ensures held { OnOk result (IfSome (meaning self.old).files (λ f.
            IsSome (content f.held name.now))) }
        ensures err { OnErr result (meaning self.new
            ≡ failed (meaning self.old) (meaning self.new).faults) }
        ensures cause { OnErr result (Rose (meaning self.old).faults (meaning self.new).faults
            ⊎ LacksFile (meaning self.old) name.now) };

    /// Takes the next bytes of the slot's file into the front of the buffer, and says how many.
    ///
    /// It takes at most as many as the buffer holds, and none exactly at the end of the file. After that the
    /// slot is at its end, and is not pulled again before it is opened anew.
    fn pull(&mut self, slot: Slot, buf: &mut [u8]) -> Result<usize, Failed>
        requires reading { (slot_of slot (meaning self.old)).phase ≡ Phase.Reading }
        requires room { 0 < length buf.old }
        ensures later { (meaning self.old).faults ≤ (meaning self.new).faults }
        ensures bound { IfOk result (λ n. n ≤ length buf.new) }
        ensures ok { IfOk result (λ n. meaning self.new
            ≡ pulled slot n (meaning self.old) (meaning self.new).faults) }
        ensures bytes { IfOk result (λ n. IfSome (meaning self.old).files (λ f.
            IfSome (slot_of slot (meaning self.old)).place (λ p.
            take n buf.new ≡ take n (drop p.taken (place_bytes f.held p))))) }
        ensures end { IfOk result (λ n. IfSome (meaning self.old).files (λ f.
            IfSome (slot_of slot (meaning self.old)).place (λ p. (n ≡ 0)
            ↔ (length (place_bytes f.held p) ≤ p.taken)))) }
        ensures err { OnErr result (meaning self.new
            ≡ failed (meaning self.old) (meaning self.new).faults) }
        ensures cause { OnErr result (Rose (meaning self.old).faults (meaning self.new).faults) };

    /// Makes the file of that name for the waveform. What was put stays. A desk makes one file at most.
    fn create(&mut self, name: &str) -> Result<(), Failed>
        requires { (meaning self.old).has_wave ≡ false }
        ensures later { (meaning self.old).faults ≤ (meaning self.new).faults }
        ensures ok { OnOk result (meaning self.new
            ≡ created name.now (meaning self.old) (meaning self.new).faults) }
        ensures err { OnErr result (meaning self.new
            ≡ failed (meaning self.old) (meaning self.new).faults) }
        ensures cause { OnErr result (Rose (meaning self.old).faults (meaning self.new).faults
            ⊎ LacksMaking (meaning self.old) name.now) };

    /// Puts the first of the bytes on the lane, at least one and at most all, and says how many.
    fn put(&mut self, lane: Lane, bytes: &[u8]) -> Result<usize, Failed>
        requires lane { has_lane lane (meaning self.old) ≡ true }
        requires some { 0 < length bytes.now }
        ensures later { (meaning self.old).faults ≤ (meaning self.new).faults }
        ensures bound { IfOk result (λ n. (0 < n) × (n ≤ length bytes.now)) }
        ensures ok { IfOk result (λ n. meaning self.new
            ≡ put_on lane (take n bytes.now) (meaning self.old) (meaning self.new).faults) }
        ensures err { OnErr result (meaning self.new
            ≡ failed (meaning self.old) (meaning self.new).faults) }
        ensures cause { OnErr result (Rose (meaning self.old).faults (meaning self.new).faults) };
}
