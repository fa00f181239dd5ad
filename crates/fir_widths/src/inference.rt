//! The inference.
ghost use Rattle.std.specs.Prelude.{◌≡◌, ℕ, ◌<◌, IfOk, Ok, OnOk, IsErrOf, List, Some, None, map, option_map, length, slice_index, if◌then◌else◌, ◌==◌, ◌∷◌, []};
ghost use Rattle.net_core.specs.Body.{body_of};
ghost use Rattle.net_core.specs.Widths.{IsLeast, sources};
ghost use Rattle.net_core.specs.WidthRules.{width_rule, wide_signals, least_line, first_rule, too_wide, bad_range, use_lines, is_wide, is_bad, uses};
ghost use Rattle.net_core.specs.Formed.{Formed, Sized, with_widths, set_widths};
ghost use Rattle.fir_widths.specs.Gathering.{asked_seen, uses_seen};
ghost use Rattle.fir_widths.specs.declared.inference.WidthFault;
ghost use Rattle.fir_widths.specs.Inferring.{lesser_of, fault_of};
ghost use Rattle.fir_widths.specs.Least.{first_width};

use crate::gather::{Asked, Gathered, Use};
use crate::judge::judge;
use crate::solve::least_widths;
use net_core::{Elab, Role, SignalInfo};
use std::alloc::Global;
use tb_base::{Memory, Seq};
use thiserror::Error;

/// Why widths can't be inferred. The number is a line of the circuit's text.
#[derive(Debug, Drop, Error)]
pub enum WidthFault {
    /// A signal that is declared there, or an expression there, has more than 128 bits.
    #[error("line {0}: too wide")]
    TooWide(u32),
    /// A literal that its width can't hold, numbers that don't fit their operand, or a condition or reset of more than
    /// one bit.
    #[error("line {0}: out of range")]
    BadRange(u32),
    /// There wasn't enough memory.
    #[error("out of memory")]
    Memory(Memory),
}

impl From<Memory> for WidthFault {
    ghost use Rattle.std.specs.Prelude.{◌≡◌};
    ghost use Rattle.fir_widths.specs.declared.inference.WidthFault.TheVariants as fault;

    ghost from_gives = { λ m e. e ≡ fault.Memory m };

    fn from(memory: Memory) -> WidthFault {
        WidthFault::Memory(memory)
    }
}

/// Where each width starts.
fn start_widths(alloc: Global, signals: &[SignalInfo]) -> Result<Vec<u8>, Memory>
    ensures { IfOk result (λ v. v.items ≡ map first_width signals.now) }
{
    let mut widths = Vec::with_capacity(alloc, signals.len())?;
    for signal in signals {
        let is_free = signal.role == Role::Node || signal.width.is_none();
        let start = if is_free {
            0
        } else {
            signal.width.unwrap_or(0)
        };
        widths.push(start)?;
    }
    Ok(widths)
}

/// The lesser of the lines, of which the first may not be there.
fn lesser_line(found: Option<u32>, line: u32) -> Option<u32>
    ensures { result ≡ lesser_of found (Some line) }
{
    match found {
        None => Some(line),
        Some(other) => Some(other.min(line)),
    }
}

/// One signal more.
fn wider(found: Option<u32>, width: u8, line: u32) -> Option<u32>
    ensures { result ≡ if width == 129 then lesser_of found (Some line) else found }
{
    if width == 129 {
        lesser_line(found, line)
    } else {
        found
    }
}

/// The least line of a signal that is too wide.
fn wide_signal(signals: &[SignalInfo], widths: &[u8]) -> Option<u32>
    requires { length widths.now ≡ length signals.now }
    ensures { result ≡ least_line (wide_signals signals.now widths.now) }
{
    let mut found = None;
    for k in 0..signals.len() {
        let width = widths[k];
        let line = signals[k].line;
        found = wider(found, width, line);
    }
    found
}

/// The least lines at which the two rules are broken, as far as they were found.
#[derive(Clone, Copy)]
struct Found {
    wide: Option<u32>,
    bad: Option<u32>,
}

/// Looks at one expression more.
fn look(signals: &[SignalInfo], widths: &[u8], one: &Use<'_>, found: Found) -> Found
    ensures wide { result.wide ≡ lesser_of found.wide (least_line (use_lines (is_wide signals.now widths.now) (uses_seen (one.now ∷ [])))) }
    ensures bad { result.bad ≡ lesser_of found.bad (least_line (use_lines (is_bad signals.now widths.now) (uses_seen (one.now ∷ [])))) }
{
    let judged = judge(signals, widths, one.expr);
    let is_bad = judged.bad || (one.condition && judged.shape.width() > 1);
    Found {
        wide: if judged.wide {
            lesser_line(found.wide, one.line)
        } else {
            found.wide
        },
        bad: if is_bad {
            lesser_line(found.bad, one.line)
        } else {
            found.bad
        },
    }
}

/// Looks at all expressions, where `wide` is the least line of a signal that is too wide.
fn look_at_all(signals: &[SignalInfo], widths: &[u8], all: &[Use<'_>], wide: Option<u32>) -> Found
    ensures wide { result.wide ≡ lesser_of wide (least_line (use_lines (is_wide signals.now widths.now) (uses_seen all.now))) }
    ensures bad { result.bad ≡ least_line (use_lines (is_bad signals.now widths.now) (uses_seen all.now)) }
{
    let mut found = Found { wide, bad: None };
    for one in all {
        found = look(signals, widths, one, found);
    }
    found
}

/// Which of the two comes first.
fn first_fault(found: Found) -> Option<WidthFault>
    ensures { result ≡ option_map fault_of (first_rule found.wide found.bad) }
{
    match (found.wide, found.bad) {
        (None, None) => None,
        (Some(wide), None) => Some(WidthFault::TooWide(wide)),
        (None, Some(bad)) => Some(WidthFault::BadRange(bad)),
        (Some(wide), Some(bad)) => {
            if wide <= bad {
                Some(WidthFault::TooWide(wide))
            } else {
                Some(WidthFault::BadRange(bad))
            }
        }
    }
}

/// The width at a place, or 0 where there is none.
fn width_at(widths: &[u8], k: usize) -> u8
    ensures { result ≡ slice_index widths.now k }
{
    widths.get(k).copied().unwrap_or(0)
}

/// The same signals, with these widths.
fn with_all_widths(signals: Vec<SignalInfo>, widths: &[u8]) -> Vec<SignalInfo>
    ensures { result.items ≡ set_widths signals.items widths.now }
{
    let mut signals = signals;
    for k in 0..signals.len() {
        let width = width_at(widths, k);
        signals[k].width = Some(width);
    }
    signals
}

/// The connects and expressions of a circuit.
fn gather<'a>(alloc: Global, elab: &'a Elab) -> Result<Gathered<'a>, Memory>
    ensures asked { IfOk result (λ g. asked_seen g.asked.items ≡ sources (body_of elab.now.body)) }
    ensures uses { IfOk result (λ g. uses_seen g.uses.items ≡ uses (body_of elab.now.body)) }
{
    let mut gathered = Gathered::new(alloc);
    gathered.add_body(elab.body.items())?;
    Ok(gathered)
}

/// The least widths of a circuit with these connects.
fn all_least(alloc: Global, elab: &Elab, asked: &[Asked<'_>]) -> Result<Vec<u8>, Memory>
    requires { asked_seen asked.now ≡ sources (body_of elab.now.body) }
    ensures { IfOk result (λ w. IsLeast elab.now w.items) }
{
    let signals = elab.signals.items();
    let start = start_widths(alloc, signals)?;
    let widths = least_widths(alloc, signals, asked, start)?;
    Ok(widths)
}

/// The fault of a circuit with these expressions under its widths.
fn fault_in(elab: &Elab, all: &[Use<'_>], widths: &[u8]) -> Option<WidthFault>
    requires long { length widths.now ≡ length elab.now.signals }
    requires uses { uses_seen all.now ≡ uses (body_of elab.now.body) }
    ensures { result ≡ option_map fault_of (width_rule elab.now widths.now) }
{
    let signals = elab.signals.items();
    let wide = wide_signal(signals, widths);
    first_fault(look_at_all(signals, widths, all, wide))
}

/// The least widths, or the fault under them.
fn inferred(alloc: Global, elab: &Elab) -> Result<Vec<u8>, WidthFault>
    ensures least { IfOk result (λ w. IsLeast elab.now w.items × (width_rule elab.now w.items ≡ None)) }
    ensures wide { (line : ℕ) → IsErrOf result (WidthFault.TooWide line) → (w : List ℕ) × IsLeast elab.now w × (width_rule elab.now w ≡ Some (too_wide line)) }
    ensures bad { (line : ℕ) → IsErrOf result (WidthFault.BadRange line) → (w : List ℕ) × IsLeast elab.now w × (width_rule elab.now w ≡ Some (bad_range line)) }
{
    let gathered = gather(alloc, elab)?;
    let widths = all_least(alloc, elab, &gathered.asked)?;
    match fault_in(elab, &gathered.uses, &widths) {
        None => Ok(widths),
        Some(fault) => Err(fault),
    }
}

/// The same circuit, with these widths.
fn with_its_widths(elab: Elab, widths: &[u8]) -> Elab
    ensures { result ≡ with_widths elab widths.now }
{
    let Elab {
        name,
        signals,
        body,
    } = elab;
    let signals = with_all_widths(signals.into_vec(), widths);
    Elab {
        name,
        signals: Seq::of(signals),
        body,
    }
}

/// Gives each signal its least width.
///
/// The least widths are the least ones with which each signal whose width isn't written is at least as wide as the
/// source of each connect to it, as its initial value where it is a register, and as its expression where it is a
/// node. The circuit stays the same besides. Of a formed circuit the result is sized: it is formed, it has all widths,
/// a node is exactly as wide as its expression, and no line breaks a rule on widths. `TooWide` and `BadRange` tell of
/// the least line that breaks a rule under these widths; on one line `TooWide` comes first. A refused circuit is
/// dropped.
///
/// Each connect is looked at twice, and once more for each read in its source when the width of what it reads rises,
/// which is at most 129 times a signal. A look takes time linear in the size of the source.
pub fn infer(alloc: Global, elab: Elab) -> Result<Elab, WidthFault>
    ensures ok { IfOk result (λ e. (w : List ℕ) × IsLeast elab w × (width_rule elab w ≡ None) × (e ≡ with_widths elab w)) }
    ensures sized { IfOk result (λ e. Formed elab → Sized e) }
    ensures wide { (line : ℕ) → IsErrOf result (WidthFault.TooWide line) → (w : List ℕ) × IsLeast elab w × (width_rule elab w ≡ Some (too_wide line)) }
    ensures bad { (line : ℕ) → IsErrOf result (WidthFault.BadRange line) → (w : List ℕ) × IsLeast elab w × (width_rule elab w ≡ Some (bad_range line)) }
{
    let widths = inferred(alloc, &elab)?;
    Ok(with_its_widths(elab, &widths))
}
