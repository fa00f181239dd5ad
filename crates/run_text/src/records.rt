//! The lines of a run's records.
ghost use Rattle.std.specs.Prelude.{◌≡◌, ◌++◌, OnOk, flat_map, filter};
ghost use Rattle.net_core.specs.Signals.{info};
ghost use Rattle.bench_run.specs.Told.{record_told, outcome_told, result_told};
ghost use Rattle.run_text.specs.Report.{number_text, verb, wanted_text, where_text, seen_text, record_text, stops_within, is_printed};
ghost use Rattle.run_text.specs.Steps.{printed_text};

use bench_run::{Observation, Outcome, Run};
use net_core::SignalInfo;
use std::alloc::Global;
use tb_base::{Memory, put, put_decimal, put_path};

/// Puts a number, which is that of a signed port or not.
fn put_number(alloc: Global, out: &mut Vec<u8>, signed: bool, number: u128) -> Result<(), Memory>
    ensures { OnOk result (out.new.items ≡ out.old.items ++ number_text signed number) }
{
    if signed && number >= 1 << 127 {
        put(out, b"-")?;
        put_decimal(alloc, out, u128::MAX - number + 1)?;
        return Ok(());
    }
    put_decimal(alloc, out, number)?;
    Ok(())
}

/// The word for what made a record: a peek, or an expect where a number was wanted.
fn verb(wanted: Option<u128>) -> &'static [u8]
    ensures { result.now ≡ verb wanted }
{
    match wanted {
        None => b"peek",
        Some(_) => b"expect",
    }
}

/// Puts the number that was wanted, if one was.
fn put_wanted(
    alloc: Global,
    out: &mut Vec<u8>,
    signed: bool,
    wanted: Option<u128>,
) -> Result<(), Memory>
    ensures { OnOk result (out.new.items ≡ out.old.items ++ wanted_text signed wanted) }
{
    match wanted {
        None => Ok(()),
        Some(number) => {
            put(out, b" wanted ")?;
            put_number(alloc, out, signed, number)?;
            Ok(())
        }
    }
}

/// Puts where a record was made.
fn put_where(alloc: Global, out: &mut Vec<u8>, observation: &Observation) -> Result<(), Memory>
    ensures { OnOk result (out.new.items ≡ out.old.items ++ where_text (record_told observation.now)) }
{
    put_decimal(alloc, out, u128::from(observation.time))?;
    put(out, b" ")?;
    put_path(alloc, out, &observation.path)?;
    put(out, b" ")?;
    put_decimal(alloc, out, u128::from(observation.line))?;
    Ok(())
}

/// The name of a signal, and whether it is signed. Past the last signal the name is empty.
pub fn port_of(signals: &[SignalInfo], number: usize) -> (&[u8], bool)
    ensures name { result.0.now ≡ (info signals.now number).name }
    ensures signed { result.1 ≡ (info signals.now number).signed }
{
    match signals.get(number) {
        Some(signal) => (signal.name.bytes(), signal.signed),
        None => (b"", false),
    }
}

/// Puts what a record says of its port.
fn put_seen(
    alloc: Global,
    out: &mut Vec<u8>,
    signals: &[SignalInfo],
    observation: &Observation,
) -> Result<(), Memory>
    ensures { OnOk result (out.new.items
        ≡ out.old.items ++ seen_text (info signals.now observation.now.port.0) (record_told observation.now)) }
{
    let (name, signed) = port_of(signals, observation.port.0 as usize);
    put(out, verb(observation.wanted))?;
    put(out, b" ")?;
    put(out, name)?;
    put(out, b" = ")?;
    put_number(alloc, out, signed, observation.value)?;
    put_wanted(alloc, out, signed, observation.wanted)?;
    Ok(())
}

/// Puts the line of a record.
fn put_record(
    alloc: Global,
    out: &mut Vec<u8>,
    signals: &[SignalInfo],
    observation: &Observation,
) -> Result<(), Memory>
    ensures { OnOk result (out.new.items ≡ out.old.items ++ record_text signals.now (record_told observation.now)) }
{
    put_where(alloc, out, observation)?;
    put(out, b" ")?;
    put_seen(alloc, out, signals, observation)?;
    put(out, b"\n")?;
    Ok(())
}

/// Whether a run with this outcome stopped within the time step.
fn stops_within(outcome: &Outcome, time: u32) -> bool
    ensures { result ≡ stops_within (outcome_told outcome.now) time }
{
    match outcome {
        Outcome::Conflict { time: last, .. } => time == *last,
        Outcome::StepActions { time: last } => time == *last,
        Outcome::Failed { .. } => false,
        Outcome::Spent { .. } => false,
        Outcome::Finished { .. } => false,
        Outcome::ThreadLimit { .. } => false,
        Outcome::RecordLimit { .. } => false,
        Outcome::RunActions { .. } => false,
        Outcome::TimeLimit { .. } => false,
    }
}

/// Whether a record is printed in the report of a run with this outcome.
fn is_printed(brief: bool, outcome: &Outcome, observation: &Observation) -> bool
    ensures { result ≡ is_printed brief (outcome_told outcome.now) (record_told observation.now) }
{
    !(brief && observation.wanted.is_none()) && !stops_within(outcome, observation.time)
}

/// Puts the line of a record where it is printed.
fn put_printed(
    alloc: Global,
    out: &mut Vec<u8>,
    signals: &[SignalInfo],
    brief: bool,
    outcome: &Outcome,
    observation: &Observation,
) -> Result<(), Memory>
    ensures { OnOk result (out.new.items ≡ out.old.items ++ printed_text signals.now brief outcome.now observation.now) }
{
    if is_printed(brief, outcome, observation) {
        put_record(alloc, out, signals, observation)?;
    }
    Ok(())
}

/// Puts the lines of the records that are printed, one after another.
pub fn put_records(
    alloc: Global,
    out: &mut Vec<u8>,
    signals: &[SignalInfo],
    run: &Run,
    brief: bool,
) -> Result<(), Memory>
    ensures { OnOk result (out.new.items ≡ out.old.items
        ++ flat_map (record_text signals.now) (filter (is_printed brief (outcome_told run.now.outcome)) (result_told run.now).records)) }
{
    for observation in run.observations.items() {
        put_printed(alloc, out, signals, brief, &run.outcome, observation)?;
    }
    Ok(())
}
