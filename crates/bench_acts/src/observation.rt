//! What a thread sees at a port.
ghost use Rattle.std.specs.Prelude.{◌≡◌};
ghost use Rattle.bench_acts.specs.Observations.{seen, observed};

use bench_run::Observation;
use net_core::Signal;
use tl_code::ThreadState;
use tl_prepare::Act;

/// What a thread in this state saw at a port.
fn seen(
    time: u32,
    from: &ThreadState,
    line: u32,
    port: Signal,
    value: u128,
    wanted: Option<u128>,
) -> Observation
    ensures { result ≡ seen time from.now line port value wanted }
{
    Observation {
        time,
        region: from.region,
        path: from.path.copy(),
        place: from.acts,
        line,
        port,
        value,
        wanted,
    }
}

/// What the act of a thread shows in the report, where this is the thread's state before and the number that the act read: a peek that puts
/// its number into no slot, and an expect that finds another number than it wants. `None` of every other act. Takes no memory.
pub fn observed(time: u32, from: &ThreadState, act: &Act, value: u128) -> Option<Observation>
    ensures { result ≡ observed time from.now act.now value }
{
    match act {
        Act::Peek {
            line,
            port,
            into: None,
        } => Some(seen(time, from, *line, *port, value, None)),
        Act::Expect { line, port, wanted } if value != *wanted => {
            Some(seen(time, from, *line, *port, value, Some(*wanted)))
        }
        _ => None,
    }
}
