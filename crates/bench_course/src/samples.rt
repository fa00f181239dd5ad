//! The samples of a run, with room for more that was taken before.
ghost use Rattle.std.specs.Prelude.{◌≡◌, ◌+◌, ◌≤◌, ◌<◌, ◌++◌, ◌∷◌, [], length, OnOk, IfOk, vec_len, vec_capacity};
ghost use Rattle.std.specs.List.{All};
ghost use Rattle.net_design.specs.Designs.{ports_of};
ghost use Rattle.bench_setting.specs.Settings.{circuit_of, port_numbers};
ghost use Rattle.bench_course.specs.Samples.{IsSpare};

use bench_device::Device;
use net_core::Engine;
use std::alloc::Global;
use std::marker::Model;
use tb_base::{Memory, Seq};

/// The samples so far, each of as many numbers as there are ports, and empty rows for further ones. Contracts see the samples, how many
/// numbers a row has room for, and for how many more samples there is room.
#[derive(Drop)]
pub struct Samples {
    rows: Vec<Seq<u128>>,
    spare: Vec<Vec<u128>>,
    width: usize,
}

impl Model for Samples {
    ghost use Rattle.std.specs.Prelude.{◌-◌, min, vec_len, vec_capacity};
    ghost use Rattle.std.specs.List.{All};
    ghost use Rattle.bench_course.specs.Samples.{SamplesValue, IsSpare};

    ghost Value = { SamplesValue };

    ghost view = { λ s. record { rows = s.rows.items; width = s.width; room = min (vec_len s.spare) (vec_capacity s.rows - vec_len s.rows) } };

    ghost invariant = { λ s. All (IsSpare s.width) s.spare.items };
}

/// Adds an empty row with room for so many numbers.
fn add_spare(alloc: Global, spare: &mut Vec<Vec<u128>>, width: usize) -> Result<(), Memory>
    requires { All (IsSpare width) spare.old.items }
    ensures spare { All (IsSpare width) spare.new.items }
    ensures one { OnOk result (vec_len spare.new ≡ vec_len spare.old + 1) }
{
    let row = Vec::with_capacity(alloc, width)?;
    spare.push(row)?;
    Ok(())
}

/// Adds empty rows until there are as many as asked.
fn add_spares(
    alloc: Global,
    spare: &mut Vec<Vec<u128>>,
    width: usize,
    count: usize,
) -> Result<(), Memory>
    requires { All (IsSpare width) spare.old.items }
    ensures spare { All (IsSpare width) spare.new.items }
    ensures enough { OnOk result (count ≤ vec_len spare.new) }
{
    'fill: while spare.len() < count {
        add_spare(alloc, spare, width)?;
    }
    Ok(())
}

impl Samples {
    /// No samples, for so many ports. Takes no memory.
    pub fn new(alloc: Global, width: usize) -> Samples
        ensures rows { result.rows ≡ [] }
        ensures width { result.width ≡ width }
    {
        Samples {
            rows: Vec::new(alloc),
            spare: Vec::new(alloc),
            width,
        }
    }

    /// Takes room for so many samples in all, those included for which there is room. `Err(Memory)` says that there wasn't enough memory; the
    /// samples are as they were.
    pub fn reserve(&mut self, alloc: Global, count: usize) -> Result<(), Memory>
        ensures rows { self.new.rows ≡ self.old.rows }
        ensures width { self.new.width ≡ self.old.width }
        ensures room { OnOk result (count ≤ self.new.room) }
    {
        self.rows.reserve(count)?;
        let width = self.width;
        add_spares(alloc, &mut self.spare, width, count)
    }

    /// Takes a sample of all ports of a circuit into an empty row. Takes no memory, and what the engine takes for a value of each port.
    pub fn take<E: Engine>(&mut self, device: &mut Device<E>)
        requires room { 1 ≤ self.old.room }
        requires width { self.old.width ≡ length (ports_of device.old.elab) }
        ensures rows { self.new.rows
            ≡ self.old.rows ++ port_numbers device.old.elab (circuit_of device.old.elab) device.old.inputs device.old.registers ∷ [] }
        ensures width { self.new.width ≡ self.old.width }
        ensures room { self.new.room + 1 ≡ self.old.room }
        ensures device { device.new ≡ device.old }
    {
        match self.spare.pop() {
            None => unreachable!(),
            Some(row) => {
                let numbers = device.sample_into(row);
                self.rows.push_reserved(numbers);
            }
        }
    }

    /// The samples, the oldest first. Takes no memory.
    pub fn into_rows(self) -> Vec<Seq<u128>>
        ensures { result.items ≡ self.rows }
    {
        let Samples {
            rows,
            spare: _,
            width: _,
        } = self;
        rows
    }
}
