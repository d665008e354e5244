//! The words that every crate of railplan shares, and what a lawful drawing is.
//!
//! `src/` has the limits, the numbers, the grid and the order of criteria. It has texts, lists and the rows of a
//! topology too. `specs/` has the definitions by which the whole product is judged. They speak of plain lists.
//! `Graph` has nodes, edges and ports, `Line` the eleven shapes. `Laws` has each law's sentence for its parties,
//! `Lawful` all laws for all parties of a `Drawing`. `Values` says what a drawing measures, and which of two is
//! better. `Topology` says what was resolved from a file. `Examples`, `Breaches` and `Readings` have examples of
//! these, and other words for them; `cases_text` states what holds of them. `docs/definitions.md` says each
//! definition in plain words.
//!
//! `proofs/` has what crates above cite. `ListFacts`, `Listing`, `PlaceFacts`, `OptionFacts` and `TruthFacts` are on
//! lists, places of a topology, options and tests. `ExactlyLemmas`, `SearchLemmas` and `OrderLemmas` are on exact
//! answers, on the first of a list and on criteria. `LineLemmas`, `PieceLemmas`, `JoinLemmas`, `DiagonalLemmas`,
//! `LimitLemmas` and `BetterLemmas` are on lines and values. `LawTests` and `Deciding` have a test of each law.
//!
//! Every other crate uses this one. It uses none of them.
#![tactic(auto)]

mod criterion;
mod grid;
mod ids;
mod items;
mod limits;
mod memory;
mod numbers;
mod order;
mod point;
mod sides;
mod text;
mod topology;

pub use criterion::{Criterion, Values};
pub use grid::Grid;
pub use ids::is_id;
pub use items::Items;
pub use limits::{
    MAX_BUDGET, MAX_EDGES, MAX_FILE_BYTES, MAX_HEIGHT, MAX_ID_BYTES, MAX_LEAST, MAX_LOG_BYTES,
    MAX_NODES, MAX_TRACKS, MAX_WIDTH,
};
pub use memory::OutOfMemory;
pub use numbers::{ColumnNo, EdgeNo, Micro, NodeNo};
pub use order::Order;
pub use point::{Point, Slope};
pub use sides::{Compass, Hand, Side};
pub use text::Text;
pub use topology::{
    Conn, End, Inner, InnerKind, InnerList, Part, Place, Topology, Track, TrackList,
};
