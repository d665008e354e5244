// How a search for the least count ends.
ghost use Rattle.std.specs.Prelude.{◌≡◌};
ghost use Rattle.search_least.specs.Fewest.{stopped_with};

use plan_geometry::Drawing;
use refute_log::Stop;

/// How a search for the least count ended.
#[derive(Drop)]
pub enum Fewest {
    /// No drawing has a smaller count than this one.
    Best(Drawing),
    /// There is no drawing.
    NoDrawing,
    /// The whole budget of learnt clauses is spent. The drawing with the least count so far, if one was found.
    Spent(Option<Drawing>),
    /// There is no room for what comes next. The drawing with the least count so far, if one was found.
    Room(Option<Drawing>),
}

/// The outcome of a search that stopped.
pub(crate) fn stopped_with(stop: Stop, best: Option<Drawing>) -> Fewest
    ensures { result ≡ stopped_with stop best }
{
    match stop {
        Stop::BudgetSpent => Fewest::Spent(best),
        Stop::RoomFull => Fewest::Room(best),
    }
}
