//! How many slots code has.
ghost use Rattle.std.specs.Prelude.{◌≡◌, ◌≤◌};
ghost use Rattle.tl_code.specs.Slots as slots;

use tl_threads::code::{Instr, Placed};

fn set_slots(instr: &Instr) -> usize
    ensures { result ≡ slots.set_slots instr.now }
{
    match instr {
        Instr::Store {
            line: _,
            slot,
            value: _,
        } => *slot as usize + 1,
        _ => 0,
    }
}

fn fork_slots(instr: &Instr) -> usize
    ensures { result ≡ slots.fork_slots instr.now }
{
    match instr {
        Instr::Fork {
            line: _,
            region: _,
            slot,
            after: _,
        } => *slot as usize + 1,
        _ => 0,
    }
}

/// How many slots for variables the instructions need. The time is linear in their number.
pub fn variable_slots(code: &[Placed]) -> usize
    ensures { result ≡ slots.variable_slots code.now }
{
    let mut most = 0;
    for placed in code {
        most = most.max(set_slots(&placed.instr));
    }
    most
}

/// How many slots for handles the instructions need. The time is linear in their number.
pub fn handle_slots(code: &[Placed]) -> usize
    ensures { result ≡ slots.handle_slots code.now }
{
    let mut most = 0;
    for placed in code {
        most = most.max(fork_slots(&placed.instr));
    }
    most
}
