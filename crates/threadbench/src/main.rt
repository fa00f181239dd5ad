//! `threadbench`: runs a test on a circuit, and prints a report.
//!
//! The whole program is one call, `bench_first`, over a `Desk`, and its contract is the promise: the status and
//! the bytes put are those of `answer` (in `specs/Answer.antt`), a definition over the words and the files that
//! shares nothing with the code. `answer` is a chain of small definitions, one for each function here, so that
//! each function is stated by its own link, and the order of refusals is the order of the links:
//!
//!     words     the line that the words are
//!     reading   a file of the desk, up to its end or to one byte past its limit
//!     refusal   the line that says why a circuit is refused; test_refusal, why a test is
//!     layers    from the text of a circuit to its design, from the text of a test to its core test, and its run
//!     reply     all refusals and the run, with nothing put
//!     writing   the reply put on the desk
//!     top       the two joined
//!
//! Nothing is put before the reply is whole, so a run that stops for want of memory has put nothing.
#![tactic(auto)]

mod layers;
mod reading;
mod refusal;
mod reply;
mod test_refusal;
mod top;
mod words;
mod writing;

use bench_desk::FileDesk;
use std::alloc::Global;
use std::process::ExitCode;
use std::rt::Env;
use std::{env, io};
use tb_base::Memory;
use top::bench_first;

/// The words of the command without the program's name.
///
/// A word that is no UTF-8 can be no name, so no command takes such a line: it is answered as no words at all.
fn command_words<R: Env + Alloc<A = Global>>(rt: &R) -> Result<Vec<String>, Memory> {
    let mut words = Vec::new(rt.alloc());
    match env::args(rt) {
        Ok(args) => {
            for word in args.skip(1) {
                words.push(word)?;
            }
            Ok(words)
        }
        Err(fault) if fault.kind() == io::ErrorKind::InvalidData => Ok(words),
        Err(_) => Err(Memory),
    }
}

fn main(rt: HostRuntime) -> ExitCode {
    let status = match command_words(&rt) {
        Ok(words) => bench_first(rt.alloc(), words.as_slice(), &mut FileDesk::new(&rt)),
        Err(Memory) => 7,
    };
    ExitCode::from(status)
}

#[cfg(test)]
mod tests;
