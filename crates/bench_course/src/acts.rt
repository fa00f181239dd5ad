//! What an act does to the circuit and to the observations.
ghost use Rattle.std.specs.Prelude.{◌≡◌, ◌+◌, ◌-◌, ◌<◌, ◌≤◌, ◌++◌, ◌||◌, vec_len, vec_capacity};
ghost use Rattle.std.specs.List.{list_any};
ghost use Rattle.std.specs.Option.{option_to_list};
ghost use Rattle.bench_course.specs.Course.{fails_in};
ghost use Rattle.bench_course.specs.Taking.{IsOfCircuit, number_found, inputs_after};

use bench_device::Device;
use bench_run::Observation;
use net_core::Engine;
use tl_prepare::Act;

/// The number that the act finds at its port; 0 for an act that finds none. Takes what the engine takes for a value.
pub fn number_found<E: Engine>(device: &mut Device<E>, act: &Act) -> u128
    requires { IsOfCircuit device.old.elab act.now }
    ensures number { result ≡ number_found device.old.elab device.old.inputs device.old.registers act.now }
    ensures same { device.new ≡ device.old }
{
    match act {
        Act::Peek { port, .. } => device.number(*port),
        Act::Expect { port, .. } => device.number(*port),
        _ => 0,
    }
}

/// Sets the input of a poke; any other act leaves the circuit as it is. Takes what the engine takes for a poke.
pub fn poke<E: Engine>(device: &mut Device<E>, act: &Act)
    requires { IsOfCircuit device.old.elab act.now }
    ensures { device.new ≡ record device.old { inputs = inputs_after device.old.elab device.old.inputs act.now } }
{
    match act {
        Act::Poke { port, raw, .. } => device.poke(*port, *raw),
        _ => {}
    }
}

/// Whether the time step has a failure, where it had one before or not, and this is what its newest act shows.
pub fn has_failed(failed: bool, seen: &Option<Observation>, time: u32) -> bool
    ensures { result ≡ (failed || list_any (fails_in time) (option_to_list seen.now)) }
{
    match seen {
        Some(observation) => failed || (observation.wanted.is_some() && observation.time == time),
        None => failed,
    }
}

/// Adds the observation, if there is one, in the room that was taken for it.
pub fn note(observations: &mut Vec<Observation>, seen: Option<Observation>)
    requires { vec_len observations.old < vec_capacity observations.old }
    ensures items { observations.new.items ≡ observations.old.items ++ option_to_list seen }
    ensures room { vec_capacity observations.old - vec_len observations.old ≤ (vec_capacity observations.new - vec_len observations.new) + 1 }
{
    if let Some(observation) = seen {
        observations.push_reserved(observation);
    }
}
