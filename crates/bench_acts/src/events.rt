//! The event of an act.
ghost use Rattle.std.specs.Prelude.{◌≡◌};
ghost use Rattle.bench_acts.specs.Events.{line_of, kind_of, event_of};

use order_rel::{Event, Kind};
use tl_code::ThreadState;
use tl_prepare::Act;

/// The line of the statement that acts; the end of a thread has line 0.
fn line_of(act: &Act) -> u32
    ensures { result ≡ line_of act.now }
{
    match act {
        Act::Poke { line, .. } => *line,
        Act::Peek { line, .. } => *line,
        Act::Expect { line, .. } => *line,
        Act::Fork { line, .. } => *line,
        Act::Join { line, .. } => *line,
        Act::Arrive { line, .. } => *line,
        Act::JoinStep { line, .. } => *line,
        Act::Spend { line } => *line,
        Act::End => 0,
    }
}

/// What the act shows to others.
fn kind_of(act: &Act) -> Kind
    ensures { result ≡ kind_of act.now }
{
    match act {
        Act::Poke { port, .. } => Kind::Poke(*port),
        Act::Peek { port, .. } => Kind::Peek(*port),
        Act::Expect { port, .. } => Kind::Expect(*port),
        Act::Fork { child, .. } => Kind::Fork(child.copy()),
        Act::Join { child, .. } => Kind::Join(child.copy()),
        Act::Arrive { .. } => Kind::Arrive,
        Act::JoinStep { child, .. } => Kind::JoinStep(child.copy()),
        Act::Spend { .. } => Kind::Spend,
        Act::End => Kind::End,
    }
}

/// The event that the act of a thread adds to the log, where this is the thread's state before. Takes no memory.
pub fn event_of(from: &ThreadState, act: &Act) -> Event
    ensures { result ≡ event_of from.now act.now }
{
    Event {
        path: from.path.copy(),
        region: from.region,
        joined: from.joined.as_ref().map(|child| child.copy()),
        line: line_of(act),
        kind: kind_of(act),
    }
}
