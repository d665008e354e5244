//! Which edges of a track graph are above which.
//!
//! Where two edges leave a node on one side, one is the upper and one the lower. The upper one, and all that is
//! reached from it alone, lies above the lower one and all that is reached from that alone. This holds as far as they
//! overlap. `derive` answers the order of a graph's edges. Where there is none it answers the least pair of edges of
//! which each is above the other: then no drawing can be lawful. `specs/Reach` says what is reached, and
//! `specs/Above` which edge is above which. `specs/Order` says what an order is, and which contradiction is the
//! first.
//!
//! Rows of marks are filled edge by edge, each behind those that it follows (`walking`, `reaching`). They are filled
//! once for each edge of a fork (`splitting`), and compared pair by pair (`tables`).
//!
//! The crate uses `port_graph`. The lawful checker, the formula, the graph text and the commands use it.
#![tactic(auto)]

mod derive_order;
mod fault;
mod laws;
mod order;
mod reaching;
mod splitting;
mod tables;
mod walking;

pub use derive_order::derive;
pub use fault::OrderFault;
pub use laws::{no_edge_is_above_itself, order_turns_round, reach_is_the_least_onward_set};
pub use order::TrackOrder;
