//! Laws of the table: it can be handed to other threads of the program; and what is true of who runs, who is spent, and the edges ahead.
ghost use Rattle.bench_threads.specs.Laws.{QuietIsNobody, SpentIsNamed, EdgeNeeded, EdgesCount, LastEdge, NoEdgeAhead, ActsBringEdges, EndsBringEdges, BirthsBringNoEdge, WakesBringNoEdge};

use crate::table::ThreadTable;

fn shared<T: Send + Sync>(_value: &T) {}

/// The table can be sent to another thread of the program, and be read by several at once.
pub fn tables_can_be_shared(table: &ThreadTable) {
    shared(table)
}

/// Nobody may act exactly where no thread runs.
pub fn quiet_is_nobody()
    ensures { QuietIsNobody }
{}

/// Where a thread is spent, one is named.
pub fn spent_is_named()
    ensures { SpentIsNamed }
{}

/// Where edges are ahead, there is at least one.
pub fn a_waiting_thread_needs_an_edge()
    ensures { EdgeNeeded }
{}

/// Where nobody may act and two edges or more are ahead, an edge lets nobody go, and leaves one less ahead.
pub fn edges_count_down()
    ensures { EdgesCount }
{}

/// Where nobody may act and one edge is ahead, somebody may act after it.
pub fn the_last_edge_lets_go()
    ensures { LastEdge }
{}

/// Where nobody may act and no edge is ahead, an edge changes neither.
pub fn no_edge_lets_go()
    ensures { NoEdgeAhead }
{}

/// A running thread that goes on leaves the edges ahead as they are, unless it waits for edges, or at a joinstep for a child that has
/// ended: then the lesser of theirs and its own is ahead.
pub fn acts_bring_edges_nearer()
    ensures { ActsBringEdges }
{}

/// A running thread that ends leaves the edges ahead as they are, unless somebody waits for it at a joinstep: then one is ahead.
pub fn ends_bring_edges_nearer()
    ensures { EndsBringEdges }
{}

/// A thread that is added leaves the edges ahead as they are, where nobody waits for it at a joinstep.
pub fn births_bring_no_edge()
    ensures { BirthsBringNoEdge }
{}

/// A thread that is woken by the end of its child leaves the edges ahead as they are.
pub fn wakes_bring_no_edge()
    ensures { WakesBringNoEdge }
{}
