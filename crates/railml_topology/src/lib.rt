//! The track topology that a document's rows give, or the fault that they have.
//!
//! `specs/Resolved` says which topology rows resolve to where nothing is wrong with them. `specs/Answers` says that
//! `resolve` answers exactly that topology, or exactly the first fault. The other files of `specs/` are for private
//! contracts alone.
//!
//! The crate uses `railml_faults`, which finds what is wrong with the rows, and has the words that speak of rows. The
//! track graph is built from its topology.
#![tactic(auto)]

mod building;
mod fault;
mod laws;
mod layout;
mod mileages;
mod order;
mod places;
mod resolving;
mod sites;

pub use fault::ResolveFault;
pub use laws::one_topology;
pub use railml_faults::TopologyWhat;
pub use resolving::resolve;
