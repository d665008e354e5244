// Laws of the variables of an edge. The functions do nothing: their contracts are the laws.
ghost use Rattle.std.specs.Prelude.{◌≡◌, ◌≤◌, ◌+◌, ◌&&◌, ◌||◌, ℕ, true, cond, nat_le, List};
ghost use Rattle.std.specs.List.{count_by, range_with_len};
ghost use Rattle.plan_core.specs.declared.point.Point.{Point};
ghost use Rattle.plan_core.specs.Line.{is_line, west_end, east_end, height, bends, diagonal};
ghost use Rattle.cnf_core.specs.Assignment.{Assignment};
ghost use Rattle.cnf_core.specs.LitOrTruth.{yes, value};
ghost use Rattle.order_int.specs.OrderInt.{Reads};
ghost use Rattle.edge_shape.specs.Track.{step_slope};
ghost use Rattle.edge_shape.specs.Columns.{is_up, is_down, has_inner};
ghost use Rattle.edge_shape.specs.Joins.{JoinsPoints};
ghost use Rattle.edge_shape.specs.EdgeVars.{EdgeLits, EdgeSpot, lits_of, up_at, down_at, bend_at};
ghost use Rattle.edge_shape.specs.ReadsLine.{ReadsLine};

/// Where an assignment reads a line, the literals of a column say what the line is there: that it has
/// it, rises or falls from it, turns there, and its height.
pub fn accessors_read_the_line()
    ensures in_range { (v : Assignment) (e : EdgeSpot) (line : List Point) (x : ℕ) →
        ReadsLine v (lits_of e) e.width line →
        x ≤ e.width →
        value v (yes ((lits_of e).inside x)) ≡ (nat_le (west_end line).x x && nat_le x (east_end line).x) }
    ensures up { (v : Assignment) (e : EdgeSpot) (line : List Point) (x : ℕ) → is_line line ≡ true →
        (east_end line).x ≤ e.width →
        ReadsLine v (lits_of e) e.width line → x ≤ e.width →
        value v (up_at e x) ≡ is_up (step_slope (height line) x) }
    ensures down { (v : Assignment) (e : EdgeSpot) (line : List Point) (x : ℕ) → is_line line ≡ true →
        (east_end line).x ≤ e.width → ReadsLine v (lits_of e) e.width line → x ≤ e.width →
        value v (down_at e x) ≡ is_down (step_slope (height line) x) }
    ensures bend { (v : Assignment) (e : EdgeSpot) (line : List Point) (x : ℕ) → is_line line ≡ true →
        (east_end line).x ≤ e.width → ReadsLine v (lits_of e) e.width line → x ≤ e.width →
        value v (bend_at e x) ≡ has_inner line x }
    ensures height { (v : Assignment) (e : EdgeSpot) (line : List Point) (x : ℕ) →
        ReadsLine v (lits_of e) e.width line →
        x ≤ e.width →
        Reads v ((lits_of e).height x) (height line x) }
{}

/// An assignment reads at most one line between two points.
pub fn one_line_is_read()
    ensures { (v : Assignment) (e : EdgeLits) (width high least : ℕ) (p q : Point) (a b : List Point) →
        JoinsPoints width high least p q a → JoinsPoints width high least p q b → ReadsLine v e width a →
        ReadsLine v e width b →
        a ≡ b }
{}

/// The bends of the line that is read are the two variables.
pub fn bends_are_two_variables()
    ensures { (v : Assignment) (e : EdgeLits) (width : ℕ) (line : List Point) → is_line line ≡ true →
        ReadsLine v e width line →
        bends line ≡ cond (v e.first_bend) 1 0 + cond (v e.second_bend) 1 0 }
{}

/// Its diagonal is the number of columns whose variable says that it rises or falls.
pub fn diagonal_is_counted()
    ensures { (v : Assignment) (e : EdgeLits) (width : ℕ) (l : List Point) → is_line l ≡ true →
        (east_end l).x ≤ width →
        ReadsLine v e width l →
        diagonal l ≡ count_by (λ c. v (e.up c) || v (e.down c)) (range_with_len 0 width) }
{}
