//! What a run gives.

use crate::observation::Observation;
use crate::outcome::Outcome;
use tb_base::Seq;

/// A run that is over.
#[derive(Debug, Drop)]
pub struct Run {
    /// What was observed, by time, region (Main first), path and place.
    pub observations: Seq<Observation>,
    /// For each time step that settled, the oldest first, the numbers of all ports in their order.
    pub samples: Seq<Seq<u128>>,
    /// The number of actions of all threads, their ends included.
    pub actions: u32,
    pub outcome: Outcome,
}
