//! The lawful checker: which law a drawing breaks, and by whom.
//!
//! `broken` takes no memory. It answers none exactly where the drawing is lawful by `plan_core`'s `Lawful`. Else it
//! answers the least broken law with its least parties, as `specs/Breaks` orders them. Each law has a function that
//! looks for the least parties for which the law's sentence fails. Law 1 is in `grid_law`, laws 2 and 5 in
//! `node_laws`, laws 3 and 4 in `line_laws`, laws 6 and 7 in `edge_laws`. `laws` has laws of the answers: a lawful
//! drawing breaks none, and the least broken law is one.
//!
//! The crate uses `port_graph`, `track_order` and `plan_geometry`. The commands use it.
#![tactic(auto)]

mod breaking;
mod edge_laws;
mod grid_law;
mod law_break;
mod laws;
mod line_laws;
mod node_laws;

pub use breaking::broken;
pub use edge_laws::is_over;
pub use law_break::{LawBreak, Party};
pub use laws::{lawful_or_broken, one_least_break};
