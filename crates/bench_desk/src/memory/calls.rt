//! The calls of a desk in memory. Each repeats what the trait says, and adds exactly when it fails.
ghost use Rattle.std.specs.Prelude.{◌⊎◌, ◌==◌, ◌||◌, ◌↔◌, not, is_err, is_some, OnOk, OnErr, IfOk, IsSome, ◌≡◌, ℕ, ◌+◌, ◌-◌, ◌<◌, ◌≤◌, true, false, length, take, drop, min, MatchBool, IfSome, IfNone, IsSomeAnd, Some, None, if◌then◌else◌};
ghost use Rattle.bench_desk.specs.Causes.{Rose};
ghost use Rattle.std.specs.Str.{bytes_eq};
ghost use Rattle.bench_desk.specs.Meaning.{content, slot_of, place_bytes, has_lane, opened, pulled, put_on, created, failed, LacksFile, LacksMaking};
ghost use Rattle.bench_desk.specs.Memory.{memory_meaning, reader_of, with_reader, counted, fails_next, put_count, passes_room, settings, IsNextCall};
ghost use Rattle.bench_desk.specs.Placed.{file_at, IsPlaced};

use super::{MemoryDesk, Reader};
use crate::desk::{Desk, DeskFile, Failed, Lane, Phase, Slot};

/// The first file of that name.
fn position_of(files: &[DeskFile], name: &[u8]) -> Option<usize>
    ensures some { IfSome result (λ i. (i < length files.now)
        × (content files.now name.now ≡ Some (file_at files.now i).bytes)
        × ((file_at files.now i).name ≡ name.now)) }
    ensures none { IfNone result (content files.now name.now ≡ None) }
{
    for (i, file) in files.iter().enumerate() {
        if file.name.bytes() == name {
            return Some(i);
        }
    }
    None
}

/// Copies as much of the source as the buffer and the piece allow.
fn copy_piece(buf: &mut [u8], source: &[u8], piece: usize) -> usize
    requires room { 0 < length buf.old }
    requires piece { 0 < piece }
    ensures count { result ≡ min (min (length source.now) (length buf.old)) piece }
    ensures bytes { take result buf.new ≡ take result source.now }
{
    let count = source.len().min(buf.len()).min(piece);
    buf[..count].copy_from_slice(&source[..count]);
    count
}

impl MemoryDesk {
    /// Counts a call, and says whether it is one that fails.
    fn fails(&mut self) -> bool
        ensures listed { result ≡ fails_next self.old }
        ensures faults { self.new.faults ≡
            (if result then counted self.old.faults else self.old.faults) }
        ensures later { self.old.faults ≤ self.new.faults }
        ensures same { self.new
            ≡ record self.old { calls = counted self.old.calls; faults = self.new.faults } }
    {
        let number = self.calls;
        self.calls = self.calls.saturating_add(1);
        let fails = self.failing.items().iter().any(|k| u64::from(*k) == number);
        if fails {
            self.faults = self.faults.saturating_add(1);
        }
        fails
    }

    fn reader(&self, slot: Slot) -> Reader
        ensures { result ≡ reader_of slot self.now }
    {
        match slot {
            Slot::Circuit => self.circuit,
            Slot::Test => self.test,
        }
    }

    fn set_reader(&mut self, slot: Slot, reader: Reader)
        requires { IsPlaced self.old.files reader.phase reader.file reader.taken }
        ensures meaning { memory_meaning self.new
            ≡ with_reader slot reader self.old.files (memory_meaning self.old) }
        ensures calls { self.new.calls ≡ self.old.calls }
        ensures settings { settings self.new ≡ settings self.old }
    {
        match slot {
            Slot::Circuit => self.circuit = reader,
            Slot::Test => self.test = reader,
        }
    }
}

impl Desk for MemoryDesk {
    ghost meaning = { memory_meaning };

    /// Fails exactly where the call's number is among those that fail, or no file has that name.
    fn open_slot(&mut self, slot: Slot, name: &str) -> Result<(), Failed>
        ensures later { (memory_meaning self.old).faults ≤ (memory_meaning self.new).faults }
        ensures ok { OnOk result (memory_meaning self.new
            ≡ opened slot name.now (memory_meaning self.old) (memory_meaning self.new).faults) }
        ensures held { OnOk result (IfSome (memory_meaning self.old).files (λ f.
            IsSome (content f.held name.now))) }
        ensures err { OnErr result (memory_meaning self.new
            ≡ failed (memory_meaning self.old) (memory_meaning self.new).faults) }
        ensures cause { OnErr result (Rose (memory_meaning self.old).faults
            (memory_meaning self.new).faults ⊎ LacksFile (memory_meaning self.old) name.now) }
        ensures exactly { is_err result ≡ (fails_next self.old || not (is_some
            (content self.old.files name.now))) }
        ensures faults { self.new.faults ≡
            (if fails_next self.old then counted self.old.faults else self.old.faults) }
        ensures next { IsNextCall self.old self.new }
    {
        if self.fails() {
            return Err(Failed);
        }
        match position_of(self.files.items(), name.as_bytes()) {
            Some(file) => {
                let reader = Reader {
                    phase: Phase::Reading,
                    file,
                    taken: 0,
                };
                self.set_reader(slot, reader);
                Ok(())
            }
            None => Err(Failed),
        }
    }

    /// Gives as many of the bytes left as the buffer and the piece allow. Fails exactly where the call's number
    /// is among those that fail.
    fn pull(&mut self, slot: Slot, buf: &mut [u8]) -> Result<usize, Failed>
        requires reading { (slot_of slot (memory_meaning self.old)).phase ≡ Phase.Reading }
        requires room { 0 < length buf.old }
        ensures later { (memory_meaning self.old).faults ≤ (memory_meaning self.new).faults }
        ensures bound { IfOk result (λ n. n ≤ length buf.new) }
        ensures ok { IfOk result (λ n. memory_meaning self.new
            ≡ pulled slot n (memory_meaning self.old) (memory_meaning self.new).faults) }
        ensures bytes { IfOk result (λ n. IfSome (memory_meaning self.old).files (λ f.
            IfSome (slot_of slot (memory_meaning self.old)).place (λ p.
            take n buf.new ≡ take n (drop p.taken (place_bytes f.held p))))) }
        ensures end { IfOk result (λ n. IfSome (memory_meaning self.old).files (λ f.
            IfSome (slot_of slot (memory_meaning self.old)).place (λ p. (n ≡ 0)
            ↔ (length (place_bytes f.held p) ≤ p.taken)))) }
        ensures err { OnErr result (memory_meaning self.new
            ≡ failed (memory_meaning self.old) (memory_meaning self.new).faults) }
        ensures cause { OnErr result (Rose (memory_meaning self.old).faults
            (memory_meaning self.new).faults) }
        ensures amount { IfOk result (λ n. IfSome (memory_meaning self.old).files (λ f.
            IfSome (slot_of slot (memory_meaning self.old)).place (λ p.
            n ≡ min (min (length (place_bytes f.held p) - p.taken)
            (length buf.old)) self.old.piece))) }
        ensures exactly { is_err result ≡ fails_next self.old }
        ensures faults { self.new.faults ≡
            (if fails_next self.old then counted self.old.faults else self.old.faults) }
        ensures next { IsNextCall self.old self.new }
    {
        if self.fails() {
            return Err(Failed);
        }
        let Reader { file, taken, .. } = self.reader(slot);
        let rest = &self.files.items()[file].bytes.items()[taken..];
        let count = copy_piece(buf, rest, self.piece);
        let reader = Reader {
            phase: if count == 0 {
                Phase::Ended
            } else {
                Phase::Reading
            },
            file,
            taken: taken + count,
        };
        self.set_reader(slot, reader);
        Ok(count)
    }

    /// Fails exactly where the call's number is among those that fail, or the name is another than the one that
    /// the desk can make.
    fn create(&mut self, name: &str) -> Result<(), Failed>
        requires { self.old.made ≡ false }
        ensures later { (memory_meaning self.old).faults ≤ (memory_meaning self.new).faults }
        ensures ok { OnOk result (memory_meaning self.new
            ≡ created name.now (memory_meaning self.old) (memory_meaning self.new).faults) }
        ensures err { OnErr result (memory_meaning self.new
            ≡ failed (memory_meaning self.old) (memory_meaning self.new).faults) }
        ensures cause { OnErr result (Rose (memory_meaning self.old).faults
            (memory_meaning self.new).faults ⊎ LacksMaking (memory_meaning self.old) name.now) }
        ensures exactly { is_err result ≡ (fails_next self.old || not
            (bytes_eq self.old.can_make name.now)) }
        ensures faults { self.new.faults ≡
            (if fails_next self.old then counted self.old.faults else self.old.faults) }
        ensures next { IsNextCall self.old self.new }
    {
        if self.fails() {
            return Err(Failed);
        }
        if self.can_make.bytes() != name.as_bytes() {
            return Err(Failed);
        }
        self.made = true;
        Ok(())
    }

    /// Takes as many of the bytes as the piece allows. Fails exactly where the call's number is among those that
    /// fail, or what it would take would bring both lanes together above the room. The second is a fault too.
    fn put(&mut self, lane: Lane, bytes: &[u8]) -> Result<usize, Failed>
        requires lane { has_lane lane (memory_meaning self.old) ≡ true }
        requires some { 0 < length bytes.now }
        ensures later { (memory_meaning self.old).faults ≤ (memory_meaning self.new).faults }
        ensures bound { IfOk result (λ n. (0 < n) × (n ≤ length bytes.now)) }
        ensures ok { IfOk result (λ n. memory_meaning self.new
            ≡ put_on lane (take n bytes.now) (memory_meaning self.old)
            (memory_meaning self.new).faults) }
        ensures err { OnErr result (memory_meaning self.new
            ≡ failed (memory_meaning self.old) (memory_meaning self.new).faults) }
        ensures cause { OnErr result (Rose (memory_meaning self.old).faults
            (memory_meaning self.new).faults) }
        ensures amount { IfOk result (λ n. n ≡ put_count self.old (length bytes.now)) }
        ensures exactly { is_err result ≡ (fails_next self.old || passes_room self.old
            (length bytes.now)) }
        ensures faults { self.new.faults ≡ (if fails_next self.old || passes_room self.old
            (length bytes.now) then counted self.old.faults else self.old.faults) }
        ensures next { IsNextCall self.old self.new }
    {
        if self.fails() {
            return Err(Failed);
        }
        let count = bytes.len().min(self.piece);
        if count > self.room - (self.report.len() + self.wave.len()) {
            self.faults = self.faults.saturating_add(1);
            return Err(Failed);
        }
        let taken = match lane {
            Lane::Report => self.report.extend_from_slice(&bytes[..count]),
            Lane::Wave => self.wave.extend_from_slice(&bytes[..count]),
        };
        taken.unwrap();
        Ok(count)
    }
}
