//! The least widths, by a list of signals that rose.
//!
//! A sweep goes through all connects. Where a sink must rise, the rise is carried on at once to all connects that read
//! it, and so on, before the sweep goes on. Sweeps end with the first in which nothing rises: it shows that every
//! connect is met. No width rises above what each solution has, so the widths are the least ones. Which connects read a
//! signal only makes it fast: in a circuit the first sweep does the work, and the second finds nothing left.
//!
//! A connect is looked at once a sweep, and once each time that a signal that its source reads rises, which is at most
//! 129 times a signal. Each look takes time linear in the size of its source.
ghost use Rattle.std.specs.Prelude.{◌≡◌, ℕ, ◌+◌, ◌*◌, ◌<◌, ◌≤◌, length, IfOk, OnOk, true, false, vec_len, slice_index_or};
ghost use Rattle.net_core.specs.Signals.{info};
ghost use Rattle.net_core.specs.Widths.{is_free};
ghost use Rattle.fir_widths.specs.declared.gather.Asked.{Asked};
ghost use Rattle.fir_widths.specs.Raise.{need, raised, rises, slack, Grows, Met, MeetsAll};

use crate::gather::Asked;
use crate::judge::judge;
use net_core::{GroundExpr, Role, SignalInfo};
use std::alloc::Global;
use tb_base::Memory;

/// Whether the width of the signal of that number isn't written.
fn is_free_at(signals: &[SignalInfo], k: u32) -> bool
    ensures { result ≡ is_free (info signals.now k) }
{
    match signals.get(k as usize) {
        Some(signal) => signal.role == Role::Node || signal.width.is_none(),
        None => false,
    }
}

/// The width of a source.
fn source_width(signals: &[SignalInfo], asked: &Asked<'_>, widths: &[u8]) -> u8
    ensures value { result ≡ need signals.now asked.now widths.now }
    ensures most { result ≤ 129 }
{
    judge(signals, widths, asked.source).shape.width()
}

/// Raises the sink to the width of its source, and says whether it rose.
fn raise(signals: &[SignalInfo], asked: &Asked<'_>, widths: &mut [u8]) -> bool
    ensures value { widths.new ≡ raised signals.now asked.now widths.old }
    ensures rose { result ≡ rises signals.now asked.now widths.old }
{
    let wanted = source_width(signals, asked, widths);
    let sink = asked.sink as usize;
    if is_free_at(signals, asked.sink) && sink < widths.len() && widths[sink] < wanted {
        widths[sink] = wanted;
        true
    } else {
        false
    }
}

/// Raises by one connect, and puts a sink that rose on the stack.
fn raise_numbered(
    signals: &[SignalInfo],
    asked: &[Asked<'_>],
    number: usize,
    stack: &mut Vec<u32>,
    widths: &mut [u8],
) -> Result<(), Memory>
    requires at { number < length asked.now }
    ensures grows { OnOk result (Grows signals.now asked.now widths.old widths.new) }
    ensures room { OnOk result (2 * slack widths.new + vec_len stack.new ≤ 2 * slack widths.old + vec_len stack.old) }
{
    let one = asked[number];
    if raise(signals, &one, widths) {
        stack.push(one.sink)?;
        return Ok(());
    }
    Ok(())
}

/// Raises by each of the numbered connects, and puts the sinks that rose on the stack.
fn raise_all(
    signals: &[SignalInfo],
    asked: &[Asked<'_>],
    numbers: &[usize],
    stack: &mut Vec<u32>,
    widths: &mut [u8],
) -> Result<(), Memory>
    ensures grows { OnOk result (Grows signals.now asked.now widths.old widths.new) }
    ensures room { OnOk result (2 * slack widths.new + vec_len stack.new ≤ 2 * slack widths.old + vec_len stack.old) }
{
    for number in numbers {
        if *number < asked.len() {
            raise_numbered(signals, asked, *number, stack, widths)?;
        }
    }
    Ok(())
}

/// Carries a rise of one signal on to all that read it.
fn spread(
    signals: &[SignalInfo],
    asked: &[Asked<'_>],
    readers: &[Vec<usize>],
    signal: u32,
    stack: &mut Vec<u32>,
    widths: &mut [u8],
) -> Result<(), Memory>
    ensures { OnOk result (Grows signals.now asked.now widths.old widths.new) }
{
    stack.push(signal)?;
    while let Some(risen) = stack.pop() {
        if let Some(numbers) = readers.get(risen as usize) {
            raise_all(signals, asked, numbers, stack, widths)?;
        }
    }
    Ok(())
}

/// Raises by one connect, carries a rise on, and says whether there was one.
fn raise_and_spread(
    signals: &[SignalInfo],
    asked: &[Asked<'_>],
    readers: &[Vec<usize>],
    number: usize,
    stack: &mut Vec<u32>,
    widths: &mut [u8],
) -> Result<bool, Memory>
    requires at { number < length asked.now }
    requires long { length widths.old ≡ length signals.now }
    ensures grows { OnOk result (Grows signals.now asked.now widths.old widths.new) }
    ensures rose { IfOk result (λ rose. rose ≡ true → slack widths.new < slack widths.old) }
    ensures same { IfOk result (λ rose. rose ≡ false → widths.new ≡ widths.old) }
    ensures met { IfOk result (λ rose. rose ≡ false → (d : Asked) → Met signals.now widths.old (slice_index_or asked.now number d)) }
{
    let one = asked[number];
    if raise(signals, &one, widths) {
        spread(signals, asked, readers, one.sink, stack, widths)?;
        return Ok(true);
    }
    Ok(false)
}

/// Goes through all connects once, and says whether some width rose.
fn sweep(
    signals: &[SignalInfo],
    asked: &[Asked<'_>],
    readers: &[Vec<usize>],
    stack: &mut Vec<u32>,
    widths: &mut [u8],
) -> Result<bool, Memory>
    requires { length widths.old ≡ length signals.now }
    ensures grows { OnOk result (Grows signals.now asked.now widths.old widths.new) }
    ensures rose { IfOk result (λ rose. rose ≡ true → slack widths.new < slack widths.old) }
    ensures met { IfOk result (λ rose. rose ≡ false → MeetsAll signals.now widths.new asked.now) }
{
    let mut rose = false;
    for number in 0..asked.len() {
        if raise_and_spread(signals, asked, readers, number, stack, widths)? {
            rose = true;
        }
    }
    Ok(rose)
}

/// Notes that the connect of that number reads each signal of the expression.
#[cycle(note_reads)]
fn note_reads(
    readers: &mut Vec<Vec<usize>>,
    expr: &GroundExpr,
    number: usize,
) -> Result<(), Memory> {
    match expr {
        GroundExpr::Read(signal) => {
            if let Some(numbers) = readers.get_mut(signal.0 as usize) {
                numbers.push(number)?;
            }
            Ok(())
        }
        GroundExpr::Lit { .. } => Ok(()),
        GroundExpr::Apply { args, .. } => note_all(readers, args.as_slice(), number),
        GroundExpr::Select { index, items } => {
            note_reads(readers, index.get(), number)?;
            note_all(readers, items.as_slice(), number)
        }
        GroundExpr::IndexIs { index, .. } => note_reads(readers, index.get(), number),
    }
}

#[cycle(note_reads)]
fn note_all(
    readers: &mut Vec<Vec<usize>>,
    exprs: &[GroundExpr],
    number: usize,
) -> Result<(), Memory> {
    for expr in exprs {
        note_reads(readers, expr, number)?;
    }
    Ok(())
}

/// For each signal the numbers of the connects whose sources read it.
fn readers_of(alloc: Global, asked: &[Asked<'_>], count: usize) -> Result<Vec<Vec<usize>>, Memory> {
    let mut readers = Vec::with_capacity(alloc, count)?;
    for _ in 0..count {
        readers.push(Vec::new(alloc))?;
    }
    for (number, one) in asked.iter().enumerate() {
        note_reads(&mut readers, one.source, number)?;
    }
    Ok(readers)
}

/// The least widths that are at least `start` and meet every connect whose sink has no written width.
pub(crate) fn least_widths(
    alloc: Global,
    signals: &[SignalInfo],
    asked: &[Asked<'_>],
    start: Vec<u8>,
) -> Result<Vec<u8>, Memory>
    requires { length start.items ≡ length signals.now }
    ensures grows { IfOk result (λ w. Grows signals.now asked.now start.items w.items) }
    ensures met { IfOk result (λ w. MeetsAll signals.now w.items asked.now) }
{
    let readers = readers_of(alloc, asked, start.len())?;
    let mut stack = Vec::new(alloc);
    let mut widths = start;
    loop {
        if !sweep(signals, asked, &readers, &mut stack, &mut widths)? {
            return Ok(widths);
        }
    }
}
