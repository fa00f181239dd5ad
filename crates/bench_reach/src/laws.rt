//! Laws of the worlds that a permitted order of a test reaches. Each function has no body: its contract is the law.
ghost use Rattle.bench_setting.specs.Settings.{AtEachTest};
ghost use Rattle.bench_reach.specs.Bounds.{AtAnyTest, WorldsBounded};
ghost use Rattle.bench_reach.specs.Naming.{BodiesNamePorts, WorldsNamePorts};
ghost use Rattle.bench_reach.specs.Standing.{WorldsPossible, NextChildrenNew};

/// Each world that a permitted order of any test reaches is bounded by the number of its actions and by the limits. No thread has acted
/// more often than all together, or forked more often than it acted; there are no more records than actions, and no more threads than
/// actions and one. The time step has room for one action more, and began within the limits of the run's actions, threads and
/// records; a limit of time steps, of a step's actions or of threads counts as at least 1. Each earlier time step was sampled, no
/// record is of a later one, and there are as many inputs and registers as at first.
pub fn worlds_are_bounded()
    ensures { AtAnyTest WorldsBounded }
{}

/// The body of a test that keeps the rules for the ports of a circuit pokes inputs of the circuit, and peeks and expects its ports.
pub fn bodies_name_ports()
    ensures { BodiesNamePorts }
{}

/// In each world that a permitted order of such a test reaches, the next move of each thread, each event and each record name ports
/// of the circuit; what is poked is an input.
pub fn worlds_name_ports()
    ensures { WorldsNamePorts }
{}

/// Each world that a permitted order reaches is possible: no thread is there under a number that its parent has not used, a child that
/// was joined is gone, and regions are kept.
pub fn worlds_are_possible()
    ensures { AtEachTest WorldsPossible }
{}

/// The next child of a thread is not there yet.
pub fn next_children_are_new()
    ensures { AtEachTest NextChildrenNew }
{}
