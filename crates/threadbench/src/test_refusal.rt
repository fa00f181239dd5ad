//! The line that says why the text of a test is refused.
ghost use Rattle.std.specs.Prelude.{◌≡◌, IfOk};
ghost use Rattle.threadbench.specs.TestForms.{NotFirst};
ghost use Rattle.threadbench.specs.TestRefusals.{test_refusal_text};
ghost use Rattle.threadbench.specs.TestAnswers.{LineOfTestRead, LineOfTestFault};

use crate::refusal::{break_line, fault_line, plain_line};
use std::alloc::Global;
use tb_base::Memory;
use text_grammar::Kind;
use tl_check::TestFault;
use tl_text::TestReadFault;

/// What stands in front of what is said of a test.
const TEST: &[u8] = b"test: ";

/// The line that a fault of reading is answered with.
#[tactic(auto, unfolding(crate::specs::TestRefusals::test_refusal_text))]
pub fn read_refusal(alloc: Global, fault: TestReadFault) -> Result<Vec<u8>, Memory>
    ensures { IfOk result (λ v. LineOfTestRead fault v.items) }
{
    match fault {
        TestReadFault::Syntax(place) => fault_line(alloc, TEST, Kind::Syntax, place),
        TestReadFault::NumberTooWide(place) => fault_line(alloc, TEST, Kind::NumberTooWide, place),
        TestReadFault::TooDeep(place) => fault_line(alloc, TEST, Kind::TooDeep, place),
        TestReadFault::Memory(memory) => Err(memory),
    }
}

/// The line that a broken rule is answered with.
#[tactic(auto, unfolding(crate::specs::TestRefusals::test_refusal_text))]
pub fn rule_refusal(alloc: Global, fault: TestFault) -> Result<Vec<u8>, Memory>
    ensures { IfOk result (λ v. LineOfTestFault fault v.items) }
{
    match fault {
        TestFault::UnknownPort(line) => break_line(alloc, TEST, line, b"unknown port"),
        TestFault::PokeOutput(line) => break_line(alloc, TEST, line, b"poke of an output"),
        TestFault::LiteralTooWide(line) => break_line(alloc, TEST, line, b"literal too wide"),
        TestFault::UnknownVariable(line) => break_line(alloc, TEST, line, b"unknown variable"),
        TestFault::UnknownHandle(line) => break_line(alloc, TEST, line, b"unknown handle"),
        TestFault::TooManyNames(line) => break_line(alloc, TEST, line, b"too many names"),
        TestFault::JoinLaterRegion(line) => {
            break_line(alloc, TEST, line, b"join of a later region")
        }
        TestFault::ForkEarlierRegion(line) => {
            break_line(alloc, TEST, line, b"fork into an earlier region")
        }
        TestFault::NotReadyValid(line) => break_line(alloc, TEST, line, b"not ready-valid"),
        TestFault::StepZero(line) => break_line(alloc, TEST, line, b"step of zero"),
        TestFault::Memory(memory) => Err(memory),
    }
}

/// The line of a test that isn't in the first form: a driver or a reset stands in it.
#[tactic(auto, unfolding(crate::specs::TestRefusals::test_refusal_text))]
pub fn form_refusal(alloc: Global) -> Result<Vec<u8>, Memory>
    ensures { IfOk result (λ v. v.items ≡ test_refusal_text NotFirst) }
{
    plain_line(alloc, TEST, b"not in the first form")
}
