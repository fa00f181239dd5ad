//! The report of a run.
//!
//! A report is a list of lines: the circuit's name, the records in order, and the outcome. The printers of these put each one definition
//! of `specs/Report.antt` behind the text so far.
ghost use Rattle.std.specs.Prelude.{◌≡◌, IfOk};
ghost use Rattle.bench_run.specs.Told.{result_told};
ghost use Rattle.run_text.specs.Report.{report_text};
ghost use Rattle.run_text.specs.Runs.{IsRunOf};

use crate::ending::put_outcome;
use crate::records::put_records;
use bench_run::Run;
use net_design::Design;
use std::alloc::Global;
use tb_base::{Memory, put};

/// The report of a run on a circuit.
///
/// Its first line is the circuit's name, then come the records of the run in order, each a line, and last how the run ended. A brief
/// report leaves out the peeks. Where the run ended by a conflict or by the limit of one time step, the records of that time step are left
/// out. Values are decimal, those of a signed port with their sign. Of a conflict both events are told, and with a read the chain of
/// signals over which it depends on the input that the other pokes. The one refusal is want of memory. The time is linear in the number
/// of records and in the length of the text; for a conflict it is also linear in the circuit's reads.
#[tactic(auto, unfolding(crate::specs::Report::report_text))]
pub fn report(alloc: Global, design: &Design, run: &Run, brief: bool) -> Result<Vec<u8>, Memory>
    requires { IsRunOf design.now.elab (result_told run.now) }
    ensures { IfOk result (λ text. text.items ≡ report_text design.now.elab (result_told run.now) brief) }
{
    let mut out = Vec::new(alloc);
    put(&mut out, b"circuit ")?;
    put(&mut out, design.name().bytes())?;
    put(&mut out, b"\n")?;
    let signals = design.elab().signals.items();
    put_records(alloc, &mut out, signals, run, brief)?;
    put_outcome(alloc, &mut out, design, run)?;
    Ok(out)
}
