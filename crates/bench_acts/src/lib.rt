//! What the commit of a prepared act does to the threads of a bench, what it adds to the log and what it shows in the report.
//!
//! The law that an act of the code is the act of the definitions' thread stands in [`laws`].
#![tactic(auto)]

mod behind;
mod events;
pub mod laws;
mod observation;
mod threads;

pub use behind::{mode_behind, parent_of, with_number};
pub use events::event_of;
pub use observation::observed;
pub use threads::advance;
