//! Lists turned round: for each number, what reads it.
ghost use Rattle.std.specs.Prelude.{◌≡◌, ℕ, ◌<◌, ◌^◌, length, true, false, OnOk, IfOk};
ghost use Rattle.net_core.specs.Rules.{has};
ghost use Rattle.net_graph.specs.Graphs.{reads_in};
ghost use Rattle.net_graph.specs.Readers.{in_row, PutIn, Noted, TurnedBelow, Turned};

use std::alloc::Global;
use tb_base::{Memory, Seq};

/// Puts x into row y, where there is one.
fn put_in(x: u32, y: usize, readers: &mut Vec<Vec<u32>>) -> Result<(), Memory>
    ensures rows { length readers.new.items ≡ length readers.old.items }
    ensures put { OnOk result (PutIn x y readers.old.items readers.new.items) }
{
    if y < readers.len() {
        readers[y].push(x)?;
    }
    Ok(())
}

/// Notes that x reads all numbers of the list.
fn note(x: u32, list: &[u32], readers: &mut Vec<Vec<u32>>) -> Result<(), Memory>
    ensures rows { length readers.new.items ≡ length readers.old.items }
    ensures noted { OnOk result (Noted x list.now readers.old.items readers.new.items) }
{
    for y in list {
        put_in(x, *y as usize, readers)?;
    }
    Ok(())
}

fn empty_rows(alloc: Global, n: usize) -> Result<Vec<Vec<u32>>, Memory>
    ensures rows { IfOk result (λ v. length v.items ≡ n) }
    ensures empty { IfOk result (λ v. (z k : ℕ) → in_row v.items z k ≡ false) }
{
    let mut rows = Vec::new(alloc);
    for _ in 0..n {
        rows.push(Vec::new(alloc))?;
    }
    Ok(rows)
}

/// For each number the list of what reads it, as often as it does. The time is linear in the numbers and their reads.
pub(crate) fn readers_of(alloc: Global, lists: &[Seq<u32>]) -> Result<Vec<Vec<u32>>, Memory>
    requires few { length lists.now < 2 ^ 32 }
    ensures { IfOk result (λ v. Turned lists.now v.items) }
{
    let mut readers = empty_rows(alloc, lists.len())?;
    for x in 0..lists.len() {
        note(x as u32, lists[x].items(), &mut readers)?;
    }
    Ok(readers)
}
