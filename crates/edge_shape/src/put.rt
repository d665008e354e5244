// Putting a line into an edge's variables.
ghost use Rattle.std.specs.Prelude.{◌≡◌, ◌≢◌, ◌≤◌, ◌<◌, ℕ, ◌+◌, ◌*◌, length};
ghost use Rattle.cnf_core.specs.declared.limits.TheConstants.{VARS};
ghost use Rattle.cnf_core.specs.Truths.{assignment};
ghost use Rattle.edge_shape.specs.EdgeVars.{edge_size, EdgeIsPlaced};
ghost use Rattle.edge_shape.specs.ReadsLine.{whole_bits, line_bits};
ghost use Rattle.edge_shape.specs.Setting.{bits, flags, setting, set_edge};

use crate::places::Places;
use crate::{has_inner, has_level, height_over, is_level_by, step_over};
use cnf_core::{Lit, Truths, Var};
use plan_core::Slope;
use plan_geometry::Line;

/// Gives a variable this truth value, and changes no other.
fn put_bit(m: &mut Truths, x: u32, value: bool)
    requires from { 1 ≤ x }
    requires to { x ≤ length m.old }
    requires small { x ≤ VARS }
    ensures value { assignment m.new x ≡ value }
    ensures others { (k : ℕ) → k ≢ x → assignment m.new k ≡ assignment m.old k }
    ensures vars { length m.new ≡ length m.old }
{
    m.set(Lit::new(Var(x), value));
}

/// The truth value of one of the six variables of the whole line, by its place.
fn whole_bit(line: &Line, k: u32) -> bool
    requires { k < 6 }
    ensures { result ≡ whole_bits line.now k }
{
    match k {
        0 => matches!(line.slope_west(), Slope::Up),
        1 => matches!(line.slope_west(), Slope::Down),
        2 => matches!(line.slope_east(), Slope::Up),
        3 => matches!(line.slope_east(), Slope::Down),
        4 => !matches!(line.slope_west(), Slope::Level) && has_level(line),
        _ => !matches!(line.slope_east(), Slope::Level) && has_level(line),
    }
}

/// The truth value of a column's variable, by its place among the column's.
fn column_bit(e: &Places, line: &Line, c: u32, k: u32) -> bool
    requires placed { EdgeIsPlaced e.now.first e.now.high e.now.width }
    requires c { c ≤ e.now.width }
    ensures { result ≡ bits (flags (line_bits line.now) e.now.width c) ((line_bits line.now).height c) k }
{
    let x = c as u16;
    let height = u32::from(height_over(line, x));
    if k == 0 {
        return line.west_end().x <= x && x <= line.east_end().x;
    }
    if c == e.width {
        return k - 1 < height;
    }
    match k {
        1 => matches!(step_over(line, x), Slope::Up),
        2 => matches!(step_over(line, x), Slope::Down),
        3 => is_level_by(line, x),
        _ => {
            if c == 0 {
                k - 4 < height
            } else if k == 4 {
                has_inner(line, x)
            } else {
                k - 5 < height
            }
        }
    }
}

/// The truth value of an edge's variable.
fn bit(e: &Places, line: &Line, x: u32) -> bool
    requires placed { EdgeIsPlaced e.now.first e.now.high e.now.width }
    requires from { e.now.first ≤ x }
    requires to { x < e.now.first + edge_size e.now.high e.now.width }
    ensures { result ≡ setting (line_bits line.now) e.now.first e.now.high e.now.width e.now.width x }
{
    let k = x - e.first;
    if k < 6 {
        return whole_bit(line, k);
    }
    let place = k - 6;
    let first = e.high + 4;
    if place < first {
        return column_bit(e, line, 0, place);
    }
    let block = e.high + 5;
    let past = place - first;
    column_bit(e, line, 1 + past / block, past % block)
}

/// Gives each of the edge's variables its truth value for the line, and changes no other.
pub(crate) fn put_line(e: &Places, line: &Line, m: &mut Truths)
    requires placed { EdgeIsPlaced e.now.first e.now.high e.now.width }
    requires there { e.now.first + edge_size e.now.high e.now.width ≤ length m.old + 1 }
    ensures set { assignment m.new
        ≡ set_edge (line_bits line.now) e.now.first e.now.high e.now.width (assignment m.old) }
    ensures vars { length m.new ≡ length m.old }
{
    let end = e.first + 6 + e.high + e.width * (e.high + 5);
    for x in e.first..end {
        put_bit(m, x, bit(e, line, x));
    }
}
