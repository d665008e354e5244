// The line of an edge.
ghost use Rattle.std.specs.Prelude.{◌≡◌, ◌*◌, ◌<◌, ◌≤◌, true, Some, length, slice_get, SomeIff};
ghost use Rattle.plan_core.specs.Line.{is_line, west_end, east_end, slope_west, slope_east, HasColumn, height, bends};
ghost use Rattle.plan_core.specs.Line.{diagonal};

use crate::pieces::{
    are_a_piece, are_three_of_a_shape, are_two_of_a_shape, height_between, slope_between,
};
use arrayvec::ArrayVec;
use plan_core::{Point, Slope};
use std::marker::Model;

/// Two to four points from west to east, in one of the eleven shapes.
#[derive(Drop)]
pub struct Line {
    points: ArrayVec<Point, 4>,
}

impl Model for Line {
    ghost use Rattle.std.specs.Prelude.{◌≡◌, List, true};
    ghost use Rattle.plan_core.specs.declared.point.Point.{Point};
    ghost use Rattle.plan_core.specs.Line.{is_line};

    ghost Value = { List Point };

    ghost view = { λ l. l.points.items };

    ghost invariant = { λ l. is_line l.points.items ≡ true };
}

/// Whether the points have one of the eleven shapes.
fn are_a_line(points: &[Point]) -> bool
    ensures { result ≡ is_line points.now }
{
    match points {
        [a, b] => are_a_piece(*a, *b),
        [a, b, c] => {
            are_a_piece(*a, *b)
                && are_a_piece(*b, *c)
                && are_two_of_a_shape(slope_between(*a, *b), slope_between(*b, *c))
        }
        [a, b, c, d] => {
            are_a_piece(*a, *b)
                && are_a_piece(*b, *c)
                && are_a_piece(*c, *d)
                && are_three_of_a_shape(
                    slope_between(*a, *b),
                    slope_between(*b, *c),
                    slope_between(*c, *d),
                )
        }
        _ => false,
    }
}

impl Line {
    /// The line of these points, or `None` exactly where they have none of the eleven shapes.
    pub fn new(points: &[Point]) -> Option<Line>
        ensures { SomeIff result (is_line points.now ≡ true) points.now }
    {
        if !are_a_line(points) {
            return None;
        }
        let mut held = ArrayVec::new();
        for p in points {
            held.push(*p);
        }
        Some(Line { points: held })
    }

    /// The number of points, 2 to 4.
    pub fn len(&self) -> usize
        ensures value { result ≡ length self.now }
        ensures two_or_more { 2 ≤ result }
        ensures four_at_most { result ≤ 4 }
    {
        self.points.len()
    }

    /// The point at place `i`, counted from 0 in the west.
    pub fn point(&self, i: usize) -> Point
        requires { i < length self.now }
        ensures { slice_get self.now i ≡ Some result }
    {
        self.points[i]
    }

    /// All points, from west to east.
    pub fn points(&self) -> &[Point]
        ensures value { result.now ≡ self.now }
        ensures is_line { is_line self.now ≡ true }
    {
        self.points.as_slice()
    }

    /// The first point.
    pub fn west_end(&self) -> Point
        ensures { result ≡ west_end self.now }
    {
        self.points[0]
    }

    /// The last point.
    pub fn east_end(&self) -> Point
        ensures { result ≡ east_end self.now }
    {
        let points = self.points.as_slice();
        let mut last = points[0];
        for p in &points[1..] {
            last = *p;
        }
        last
    }

    /// The same line once more.
    pub fn copied(&self) -> Line
        ensures same { result ≡ self.now }
        ensures is_line { is_line self.now ≡ true }
    {
        let mut held = ArrayVec::new();
        for p in self.points.as_slice() {
            held.push(*p);
        }
        Line { points: held }
    }

    /// The height at a column, or `None` exactly where it is left of the first point or right of the
    /// last.
    pub fn height_at(&self, x: u16) -> Option<u16>
        ensures { SomeIff result (HasColumn self.now x) (height self.now x) }
    {
        if x < self.west_end().x || self.east_end().x < x {
            None
        } else {
            Some(self.height(x))
        }
    }

    /// The slope at the first point.
    pub fn slope_west(&self) -> Slope
        ensures { result ≡ slope_west self.now }
    {
        match self.points.as_slice() {
            [a, b, ..] => slope_between(*a, *b),
            _ => Slope::Level,
        }
    }

    /// The slope at the last point.
    pub fn slope_east(&self) -> Slope
        ensures { result ≡ slope_east self.now }
    {
        match self.points.as_slice() {
            [a, b] => slope_between(*a, *b),
            [_, b, c] => slope_between(*b, *c),
            [_, _, c, d] => slope_between(*c, *d),
            _ => Slope::Level,
        }
    }

    /// The number of points but the first and the last.
    pub fn bends(&self) -> u32
        ensures value { result ≡ bends self.now }
        ensures few { result ≤ 2 }
    {
        self.points.len() as u32 - 2
    }

    /// The absolute rises of all pieces together, in rows.
    pub fn diagonal(&self) -> u32
        ensures value { result ≡ diagonal self.now }
        ensures bounded { result ≤ 3 * 65535 }
    {
        let points = self.points.as_slice();
        let mut west = points[0];
        let mut sum = 0;
        for p in &points[1..] {
            sum += u32::from(west.y.abs_diff(p.y));
            west = *p;
        }
        sum
    }

    fn height(&self, x: u16) -> u16
        requires { HasColumn self.now x }
        ensures { result ≡ height self.now x }
    {
        let points = self.points.as_slice();
        let mut west = points[0];
        for p in &points[1..] {
            if x <= p.x {
                return height_between(west, *p, x);
            }
            west = *p;
        }
        west.y
    }
}
