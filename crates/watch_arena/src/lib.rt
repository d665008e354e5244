//! The trail of literals that are true, and clauses that are watched, in rows.
//!
//! `Trail` holds literals in the order in which they became true, with levels and reasons, and how many of them are
//! propagated. `Arena` holds the clauses. Its `propagate` puts what follows by unit propagation behind the trail. It
//! takes no memory, and looks only at clauses of which a watch became false. Each literal has a row, with an entry for
//! each clause that it is a watch of. The clauses' words are in one vector, and the entries of all rows in another one.
//!
//! `specs/Trail` says what a contract sees of a trail, and what each call makes of it. `Words` says where clauses lie,
//! and `Rows` what a contract sees of rows. `Walk` has looks at clauses, and what a walk of rows adds to a trail.
//! `Filed` has the clauses in rows, and what a walk of a row keeps. `Arena` says what a contract sees of an arena, when
//! it is watched on a trail, and when the trail is reasoned.
//!
//! `trail` has the trail, and `tables` how its tables grow. `rows` has the rows as one value. `looks` and `visits` are
//! one step of a walk. `walks` goes through a row, and to the closure. `attach` takes a further clause. `arena` is the
//! whole as one value. `laws` say what levels tell of a trail, and which literals may be watched. `cdcl_learn`,
//! `cdcl_core` and `log_trim` use this crate.
#![tactic(auto)]

mod arena;
mod attach;
mod clause_ref;
mod fault;
mod laws;
mod looks;
mod rows;
mod tables;
mod trail;
mod visits;
mod walks;

pub use arena::Arena;
pub use clause_ref::ClauseRef;
pub use fault::ArenaFault;
pub use laws::{levels_never_fall, two_literals_may_be_watched, undone_leaves_levels_up_to};
pub use trail::Trail;
