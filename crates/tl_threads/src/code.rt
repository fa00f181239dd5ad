//! Flat code: instructions one behind the other, with jumps to places and with numbered slots.
//!
//! A thread that runs code has a place, a slot for each variable that is known, a slot for each handle that is known, and a count
//! for each open `repeat`. Places, slots and lines are numbers of 32 bits; a place is that of an instruction, from 0.
ghost use Rattle.std.specs.Prelude.{◌≡◌, IfOk};
ghost use Rattle.std.specs.Bool.{Decides};

use net_core::Signal;
use std::alloc::Global;
use std::marker::Model;
use std::sync::ArcSlice;
use tb_base::{Memory, Region};
use tl_ast::TestOp;

/// A step of an expression's computation, over a stack of numbers.
#[derive(Clone, Copy, Debug, PartialEq, Eq)]
pub enum Item {
    /// This number goes onto the stack.
    Number(u128),
    /// The number in a variable's slot goes onto the stack.
    Slot(u32),
    /// The topmost number gets the other sign.
    Negate,
    /// The two topmost numbers make way for what the operation gives; the second operand is the topmost.
    Apply(TestOp),
}

/// An expression in postfix form: its items in turn leave its number alone on the stack. Contracts see it as the list of its items.
///
/// An expression has at most 64 operators, so an operand has at most 129 items. Its copies share one list, since instructions are
/// copied each time that they are read for a thread: a copy takes no memory.
#[derive(Debug, Drop)]
pub struct Operand {
    items: ArcSlice<Item>,
}

impl Model for Operand {
    ghost use Rattle.std.specs.Prelude.{List};
    ghost use Rattle.std.specs.Arc.{arc_slice_items};
    ghost use Rattle.tl_threads.specs.declared.code.Item.{Item};

    ghost Value = { List Item };

    ghost view = { λ o. arc_slice_items o.items };
}

impl Operand {
    /// The operand of these items.
    pub fn of(items: Vec<Item>) -> Result<Operand, Memory>
        ensures { IfOk result (λ o. o ≡ items.items) }
    {
        let items = ArcSlice::from_vec(items)?;
        Ok(Operand { items })
    }

    /// The items, in their order.
    pub fn items(&self) -> &[Item]
        ensures { result.now ≡ self.now }
    {
        self.items.as_slice()
    }

    /// An equal operand. Takes no memory; `Err(Memory)` says that the list has as many copies as can be counted, 2 ^ 63.
    pub fn copy(&self) -> Result<Operand, Memory>
        ensures { IfOk result (λ o. o ≡ self.now) }
    {
        let items = self.items.clone()?;
        Ok(Operand { items })
    }
}

impl PartialEq for Operand {
    ghost use Rattle.std.specs.Cmp.Lexicographic.{pointwise, lists_per};
    ghost use Rattle.tl_threads.specs.contracts.code.ItemPartialEq.TheImpl as item;
    ghost use Rattle.tl_threads.specs.contracts.code.ItemPartialEq.TheImpl.Laws as item_laws;

    ghost eq = { pointwise ((item.ghosts).eq) };

    ghost laws = { lists_per item_laws.laws-law };

    fn eq(&self, other: &Operand) -> bool {
        self.items() == other.items()
    }
}

impl Eq for Operand {
    ghost use Rattle.std.specs.Cmp.Lexicographic.{lists_equiv};
    ghost use Rattle.tl_threads.specs.contracts.code.ItemEq.TheImpl.Laws as item_laws;

    ghost laws = { lists_equiv item_laws.laws-law };
}

/// One instruction. `line` is that of the statement that it comes from.
#[derive(Debug, Drop, PartialEq, Eq)]
pub enum Instr {
    /// Acts: the number goes to the input `port`.
    Poke {
        line: u32,
        port: Signal,
        value: Operand,
    },
    /// Acts: the number of `port` goes into the variable's slot `into`, or into a record where there is none.
    Peek {
        line: u32,
        port: Signal,
        into: Option<u32>,
    },
    /// Acts: the number of `port` is compared with this one.
    Expect {
        line: u32,
        port: Signal,
        value: Operand,
    },
    /// Acts: the thread waits for so many edges.
    Step {
        line: u32,
        count: u128,
    },
    /// The number goes into a variable's slot. It is the code of `let` and of `set`.
    Store {
        line: u32,
        slot: u32,
        value: Operand,
    },
    /// The head of an `if`: where the condition is 0 the thread goes on at `other`.
    Unless {
        line: u32,
        cond: Operand,
        other: u32,
    },
    /// The thread goes on at `to`, which is a later place. It isn't counted.
    Goto {
        to: u32,
    },
    /// The head of a `while`, its first test: where the condition is 0 the thread goes on at `out`.
    Enter {
        line: u32,
        cond: Operand,
        out: u32,
    },
    /// The foot of a `while`, each later test: where the condition isn't 0 the thread goes on at `back`.
    Turn {
        line: u32,
        cond: Operand,
        back: u32,
    },
    /// The head of a `repeat`, its first test: where the count is 0 the thread goes on at `out`. Else the count less 1 is kept.
    Count {
        line: u32,
        count: Operand,
        out: u32,
    },
    /// The foot of a `repeat`, each later test: where the innermost count that is kept is 0 it is dropped. Else it is one less, and
    /// the thread goes on at `back`.
    Again {
        line: u32,
        back: u32,
    },
    /// Acts: a child begins at the next place, in this region, and its number goes into a handle's slot. The thread goes on at `after`.
    Fork {
        line: u32,
        region: Region,
        slot: u32,
        after: u32,
    },
    /// Acts: the thread waits for the end of the child in a handle's slot.
    Join {
        line: u32,
        slot: u32,
    },
    /// Acts: the thread waits for the first edge after the end of the child in a handle's slot.
    JoinStep {
        line: u32,
        slot: u32,
    },
    /// Acts: the thread ends.
    End,
}

/// An instruction with what is known at its place.
#[derive(Debug, Drop)]
pub struct Placed {
    pub instr: Instr,
    /// The number of forks round the place.
    pub depth: u32,
    /// The region of the threads that come to the place.
    pub region: Region,
    /// The number of handles that are known. They are in the first slots.
    pub handles: u32,
    /// The number of `repeat`s round the place, those outside the innermost fork round it not counted.
    pub loops: u32,
}

impl Instr {
    /// Whether it is the same instruction: the same variant, with equal numbers and equal operands. The time is linear in the length of
    /// its operand.
    pub fn same(&self, other: &Instr) -> bool
        ensures { Decides result (self.now ≡ other.now) }
    {
        self == other
    }

    /// An equal instruction. Takes no memory; `Err(Memory)` is as for [`Operand::copy`].
    pub fn copy(&self) -> Result<Instr, Memory>
        ensures { IfOk result (λ i. i ≡ self.now) }
    {
        Ok(match self {
            Instr::Poke { line, port, value } => Instr::Poke {
                line: *line,
                port: *port,
                value: value.copy()?,
            },
            Instr::Peek { line, port, into } => Instr::Peek {
                line: *line,
                port: *port,
                into: *into,
            },
            Instr::Expect { line, port, value } => Instr::Expect {
                line: *line,
                port: *port,
                value: value.copy()?,
            },
            Instr::Step { line, count } => Instr::Step {
                line: *line,
                count: *count,
            },
            Instr::Store { line, slot, value } => Instr::Store {
                line: *line,
                slot: *slot,
                value: value.copy()?,
            },
            Instr::Unless { line, cond, other } => Instr::Unless {
                line: *line,
                cond: cond.copy()?,
                other: *other,
            },
            Instr::Goto { to } => Instr::Goto { to: *to },
            Instr::Enter { line, cond, out } => Instr::Enter {
                line: *line,
                cond: cond.copy()?,
                out: *out,
            },
            Instr::Turn { line, cond, back } => Instr::Turn {
                line: *line,
                cond: cond.copy()?,
                back: *back,
            },
            Instr::Count { line, count, out } => Instr::Count {
                line: *line,
                count: count.copy()?,
                out: *out,
            },
            Instr::Again { line, back } => Instr::Again {
                line: *line,
                back: *back,
            },
            Instr::Fork {
                line,
                region,
                slot,
                after,
            } => Instr::Fork {
                line: *line,
                region: *region,
                slot: *slot,
                after: *after,
            },
            Instr::Join { line, slot } => Instr::Join {
                line: *line,
                slot: *slot,
            },
            Instr::JoinStep { line, slot } => Instr::JoinStep {
                line: *line,
                slot: *slot,
            },
            Instr::End => Instr::End,
        })
    }
}
