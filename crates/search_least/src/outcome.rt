// How a search ends.
ghost use Rattle.std.specs.Prelude.{◌≡◌, ◌<◌};
ghost use Rattle.search_least.specs.Outcome.{stopped_with};

use plan_geometry::Drawing;
use refute_log::Stop;

/// How a search ended.
#[derive(Drop)]
pub enum Outcome {
    /// No lawful drawing is better than this one.
    Best(Drawing),
    /// No drawing is lawful.
    NoDrawing,
    /// The whole budget of learnt clauses is spent.
    Spent {
        /// The best drawing so far, if one was found.
        best: Option<Drawing>,
        /// How many criteria, from the first, have their least values.
        settled: u8,
    },
    /// There is no room for what comes next: too many words or variables.
    Room {
        /// The best drawing so far, if one was found.
        best: Option<Drawing>,
        /// How many criteria, from the first, have their least values.
        settled: u8,
    },
}

/// The outcome of a search that stopped.
pub(crate) fn stopped_with(stop: Stop, best: Option<Drawing>, settled: usize) -> Outcome
    requires { settled < 256 }
    ensures { result ≡ stopped_with stop best settled }
{
    let settled = settled as u8;
    match stop {
        Stop::BudgetSpent => Outcome::Spent { best, settled },
        Stop::RoomFull => Outcome::Room { best, settled },
    }
}
