// Signals with their places, and the columns in which they stand on the lines of a drawing.
ghost use Rattle.std.specs.Prelude.{◌≡◌, ℕ, ◌<◌, ◌≤◌, ◌+◌, ◌*◌, ◌/◌, ◌^◌, length};
ghost use Rattle.plan_core.specs.Drawing.{line};
ghost use Rattle.plan_objects.specs.Places.{edge_at, mile_at, need_of, number_on as how_many_on};
ghost use Rattle.plan_objects.specs.declared.places.TheConstants.{MAX_SIGNALS, SIGNALS_OF_AN_EDGE};
ghost use Rattle.plan_objects.specs.Spread.{column_on, AreSpread, HasRoomFor};

use crate::SignalPlace;
use crate::places::{need, number_on, rank};
use plan_core::{EdgeNo, Micro};
use plan_geometry::Drawing;
use std::marker::Model;

/// The places of a file's signals, in file order.
#[derive(Drop)]
pub struct Placed {
    places: Vec<SignalPlace>,
    need: u16,
}

impl Model for Placed {
    ghost use Rattle.std.specs.Prelude.{List};
    ghost use Rattle.plan_objects.specs.declared.places.SignalPlace.{SignalPlace};
    ghost use Rattle.plan_objects.specs.Kept.{IsKept};

    ghost Value = { List SignalPlace };

    ghost view = { λ p. p.places.items };

    ghost invariant = { λ p. IsKept p.places.items p.need };
}

/// Where part `rank`, from 0, of a line ends that goes over so many columns and is cut into `number + 1` parts.
fn part_end(west: u16, columns: u16, rank: u16, number: u16) -> u16
    requires part { rank < number }
    requires fits { west + columns < 2 ^ 16 }
    ensures { result ≡ west + (rank + 1) * columns / (number + 1) }
{
    let ends = (u32::from(rank) + 1) * u32::from(columns) / (u32::from(number) + 1);
    west + ends as u16
}

impl Placed {
    /// Signals with these places, of which no edge has too many.
    pub(crate) fn new(places: Vec<SignalPlace>) -> Placed
        requires few { length places.items ≤ MAX_SIGNALS }
        requires uncrowded { (e : ℕ) → how_many_on places.items e ≤ SIGNALS_OF_AN_EDGE }
        ensures { result ≡ places.items }
    {
        let need = need(&places);
        Placed { places, need }
    }

    /// The number of signals, at most 512.
    pub fn len(&self) -> u16
        ensures value { result ≡ length self.now }
        ensures few { result ≤ MAX_SIGNALS }
    {
        self.places.len() as u16
    }

    /// Over how many columns each edge's line must go, so that all signals have room on it: 1 more than the greatest
    /// number of signals on one edge, at most 16.
    pub fn need(&self) -> u16
        ensures value { result ≡ need_of self.now }
        ensures limit { result ≤ 16 }
    {
        self.need
    }

    /// The edge of a signal.
    pub fn edge_of(&self, i: u16) -> EdgeNo
        requires { i < length self.now }
        ensures { result.0 ≡ edge_at self.now i }
    {
        self.places[i as usize].edge
    }

    /// The mileage of a signal.
    pub fn mile_of(&self, i: u16) -> Micro
        requires { i < length self.now }
        ensures { result.0 ≡ mile_at self.now i }
    {
        self.places[i as usize].mile
    }

    /// The column in which a signal is on its edge's line.
    pub fn column(&self, i: u16, d: &Drawing) -> u16
        requires there { i < length self.now }
        requires room { HasRoomFor self.now d.now i }
        ensures value { result ≡ column_on self.now (line d.now (edge_at self.now i)) i }
        ensures spread { AreSpread self.now (line d.now (edge_at self.now i)) (edge_at self.now i)
            (column_on self.now (line d.now (edge_at self.now i))) }
    {
        let edge = self.edge_of(i);
        let line = d.line(edge);
        let west = line.west_end().x;
        let columns = line.east_end().x - west;
        part_end(
            west,
            columns,
            rank(&self.places, i as usize),
            number_on(&self.places, edge),
        )
    }
}
