//! Instructions that were read.
ghost use Rattle.std.specs.Prelude.{◌≡◌, [], IfOk, IfErr, OnOk};
ghost use Rattle.tl_prepare.specs.Listed.{ByPlace, IsAt, IsGap, Once};
ghost use Rattle.tl_prepare.specs.Runs.{AreHeld, CanNote, NotesMore, NotesSame};

use std::alloc::Global;
use std::marker::Model;
use tb_base::Memory;
use tl_code::Fetched;
use tl_threads::code::Instr;

/// How many may stand behind those that are sorted, however few these are.
const FEW: usize = 16;

/// Instructions that were read. Contracts see their list.
///
/// The first `settled` of them stand by place, each place once. A new one that was read behind all others goes to their end, and any other
/// one behind them, maybe once more while it is there. As soon as that rest is the longer part the whole list is sorted, so each is moved a
/// few times in all, and no memory is taken but that of the list.
#[derive(Drop)]
pub struct Notes {
    fetched: Vec<Fetched>,
    settled: usize,
}

impl Model for Notes {
    ghost use Rattle.std.specs.Prelude.{◌≤◌, List, length, take};
    ghost use Rattle.tl_code.specs.declared.state.Fetched.{Fetched};
    ghost use Rattle.tl_prepare.specs.Listed.{ByPlace};

    ghost Value = { List Fetched };

    ghost view = { λ n. n.fetched.items };

    ghost invariant = { λ n. (n.settled ≤ length n.fetched.items) × ByPlace (take n.settled n.fetched.items) };
}

/// Where a place is among these, or where it would go.
fn search(settled: &[Fetched], pc: u32) -> Result<usize, usize>
    requires { ByPlace settled.now }
    ensures found { IfOk result (IsAt settled.now pc) }
    ensures absent { IfErr result (IsGap settled.now pc) }
{
    settled.binary_search_by_key(&pc, |fetched| fetched.pc)
}

/// Sorts by place, and drops what is there more than once.
fn settle(fetched: &mut Vec<Fetched>)
    requires { AreHeld fetched.old.items }
    ensures sorted { ByPlace fetched.new.items }
    ensures same { NotesSame fetched.old.items fetched.new.items }
{
    fetched.sort_unstable_by_key(|fetched| fetched.pc);
    fetched.dedup_by_key(|fetched| fetched.pc);
}

impl Notes {
    /// None. Takes no memory.
    pub fn new(alloc: Global) -> Notes
        ensures { result ≡ [] }
    {
        Notes {
            fetched: Vec::new(alloc),
            settled: 0,
        }
    }

    /// Takes note of an instruction that was read at a place. The time is that of a look-up, and over many notes a few steps of a sort each.
    pub fn note(&mut self, pc: u32, instr: &Instr) -> Result<(), Memory>
        requires { CanNote self.old pc instr.now }
        ensures { OnOk result (NotesMore self.old self.new pc instr.now) }
    {
        let gap = match search(&self.fetched.as_slice()[..self.settled], pc) {
            Ok(_) => return Ok(()),
            Err(gap) => gap,
        };
        let is_last = gap == self.fetched.len();
        let instr = instr.copy()?;
        self.fetched.push(Fetched { pc, instr })?;
        if is_last {
            self.settled += 1;
        } else if self.fetched.len() - self.settled > self.settled.max(FEW) {
            settle(&mut self.fetched);
            self.settled = self.fetched.len();
        }
        Ok(())
    }

    /// Their list, by place. Takes no memory.
    pub fn into_fetched(self) -> Vec<Fetched>
        requires { AreHeld self }
        ensures same { NotesSame self result.items }
        ensures once { Once result.items }
    {
        let Notes {
            mut fetched,
            settled,
        } = self;
        if settled < fetched.len() {
            settle(&mut fetched);
        }
        fetched
    }
}
