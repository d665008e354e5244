// What the search for an explanation answers.
use lawful_check::LawBreak;
use plan_core::Items;
use plan_geometry::Drawing;

/// Laws with their parties, as they are named where they are broken.
pub type LawList = Items<LawBreak>;

/// Drawings.
pub type DrawingList = Items<Drawing>;

/// Why a graph has no lawful drawing, or one that it has.
#[derive(Drop)]
pub enum Why {
    /// This drawing is lawful.
    Exists(Drawing),
    /// No drawing is lawful: no loose drawing meets all of these laws.
    Laws {
        /// The laws; none of them can be left out.
        laws: LawList,
        /// A loose drawing for each of them, which meets all the others.
        without: DrawingList,
    },
    /// As many clauses were learnt as the budget allows, and the latest query is open.
    Spent,
    /// The formula has no room, or one more clause has none.
    Room,
}
