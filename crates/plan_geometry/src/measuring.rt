// What a drawing measures.
ghost use Rattle.std.specs.Prelude.{◌≡◌, ◌*◌, ◌≤◌, length, map, sum_by, flat_map};
ghost use Rattle.plan_core.specs.declared.limits.TheConstants.{MAX_EDGES};
ghost use Rattle.plan_core.specs.Line.{bends, diagonal};
ghost use Rattle.plan_core.specs.Values.{maximum, values_of};

use crate::{Drawing, Line};
use plan_core::{Point, Values};

/// The height, bends, diagonal length and width of a drawing.
#[tactic(auto, using(crate::proofs::GreatestLemmas::maximum_rules))]
pub fn values(d: &Drawing) -> Values
    ensures { result ≡ values_of d.now }
{
    Values {
        height: u32::from(greatest_y(d.places()).max(greatest_y_of(d.lines()))),
        bends: total_bends(d.lines()),
        diagonal: total_diagonal(d.lines()),
        width: u32::from(greatest_x(d.places()).max(greatest_x_of(d.lines()))),
    }
}

fn greatest_y(points: &[Point]) -> u16
    ensures { result ≡ maximum (map (λ p. p.y) points.now) }
{
    let mut most = 0;
    for p in points {
        most = p.y.max(most);
    }
    most
}

fn greatest_x(points: &[Point]) -> u16
    ensures { result ≡ maximum (map (λ p. p.x) points.now) }
{
    let mut most = 0;
    for p in points {
        most = p.x.max(most);
    }
    most
}

fn greatest_y_of(lines: &[Line]) -> u16
    ensures { result ≡ maximum (map (λ p. p.y) (flat_map (λ line. line) lines.now)) }
{
    let mut most = 0;
    for line in lines {
        most = greatest_y(line.points()).max(most);
    }
    most
}

fn greatest_x_of(lines: &[Line]) -> u16
    ensures { result ≡ maximum (map (λ p. p.x) (flat_map (λ line. line) lines.now)) }
{
    let mut most = 0;
    for line in lines {
        most = greatest_x(line.points()).max(most);
    }
    most
}

fn total_bends(lines: &[Line]) -> u32
    requires { length lines.now ≤ MAX_EDGES }
    ensures { result ≡ sum_by bends lines.now }
{
    let mut sum = 0;
    for line in lines {
        sum += line.bends();
    }
    sum
}

fn total_diagonal(lines: &[Line]) -> u32
    requires { length lines.now ≤ MAX_EDGES }
    ensures { result ≡ sum_by diagonal lines.now }
{
    let mut sum = 0;
    for line in lines {
        sum += line.diagonal();
    }
    sum
}
