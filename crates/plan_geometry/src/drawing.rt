// A drawing.
ghost use Rattle.std.specs.Prelude.{◌≡◌, ◌<◌, ◌≤◌, true, length, map, All, IfOk};
ghost use Rattle.plan_core.specs.declared.limits.TheConstants.{MAX_NODES, MAX_EDGES};
ghost use Rattle.plan_core.specs.Line.{is_line};
ghost use Rattle.plan_core.specs.Drawing.{place, line, drawing};

use crate::Line;
use plan_core::{EdgeNo, NodeNo, OutOfMemory, Point};
use std::alloc::Global;
use std::marker::Model;

/// A point for each of at most 128 nodes and a line for each of at most 160 edges, by number.
#[derive(Drop)]
pub struct Drawing {
    places: Vec<Point>,
    lines: Vec<Line>,
}

impl Model for Drawing {
    ghost use Rattle.std.specs.Prelude.{◌≤◌, length};
    ghost use Rattle.plan_core.specs.Drawing.{Drawing as PlainDrawing, drawing};
    ghost use Rattle.plan_geometry.specs.Limits.{IsWithinLimits};

    ghost Value = { PlainDrawing };

    ghost view = { λ d. drawing d.places.items d.lines.items };

    ghost invariant = { λ d. IsWithinLimits (drawing d.places.items d.lines.items) };
}

impl Drawing {
    /// The drawing with these points, one for each node, and these lines, one for each edge.
    pub fn new(alloc: Global, places: &[Point], lines: &[Line]) -> Result<Drawing, OutOfMemory>
        requires places { length places.now ≤ MAX_NODES }
        requires lines { length lines.now ≤ MAX_EDGES }
        ensures { IfOk result (λ d. d ≡ drawing places.now lines.now) }
    {
        let mut copies = Vec::with_capacity(alloc, lines.len())?;
        for line in lines {
            copies.push(line.copied())?;
        }
        Ok(Drawing {
            places: Vec::from_slice(alloc, places)?,
            lines: copies,
        })
    }

    /// The number of nodes, at most 128.
    pub fn nodes(&self) -> u16
        ensures value { result ≡ length self.now.places }
        ensures limit { result ≤ MAX_NODES }
    {
        self.places.len() as u16
    }

    /// The number of edges, at most 160.
    pub fn edges(&self) -> u16
        ensures value { result ≡ length self.now.lines }
        ensures limit { result ≤ MAX_EDGES }
        ensures are_lines { All (λ l. is_line l ≡ true) self.now.lines }
    {
        self.lines.len() as u16
    }

    /// The point of a node.
    pub fn place(&self, n: NodeNo) -> Point
        requires { n.0 < length self.now.places }
        ensures { result ≡ place self.now n.0 }
    {
        self.places[n.0 as usize]
    }

    /// The line of an edge.
    pub fn line(&self, e: EdgeNo) -> &Line
        requires { e.0 < length self.now.lines }
        ensures { result.now ≡ line self.now e.0 }
    {
        &self.lines[e.0 as usize]
    }

    /// The points of all nodes, by number.
    pub fn places(&self) -> &[Point]
        ensures value { result.now ≡ self.now.places }
        ensures limit { length self.now.places ≤ MAX_NODES }
    {
        &self.places
    }

    /// The lines of all edges, by number.
    pub fn lines(&self) -> &[Line]
        ensures value { result.now ≡ self.now.lines }
        ensures limit { length self.now.lines ≤ MAX_EDGES }
    {
        &self.lines
    }
}
