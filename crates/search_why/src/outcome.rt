// How a search ends.
use plan_core::Items;
use plan_geometry::Drawing;
use refute_log::Stop;

/// How a search ended.
#[derive(Drop)]
pub enum Outcome {
    /// This drawing is lawful.
    Exists(Drawing),
    /// No drawing is lawful: no loose drawing meets all of these laws.
    Laws {
        /// The places of the laws in the list of all of them.
        places: Items<u32>,
        /// A loose drawing for each of them, which meets all the others.
        without: Items<Drawing>,
    },
    /// The search stopped.
    Stopped(Stop),
}
