// Laws of lines and their heights. The functions do nothing: their contracts are the laws.
ghost use Rattle.std.specs.Prelude.{◌≡◌, ◌≤◌, ◌<◌, ◌+◌, ◌-◌, ◌&&◌, ◌||◌, ℕ, true, not, cond, List, All};
ghost use Rattle.std.specs.List.{count_by, range_with_len};
ghost use Rattle.plan_core.specs.declared.point.Point.{Point};
ghost use Rattle.plan_core.specs.Grid.{GridSize};
ghost use Rattle.plan_core.specs.Laws.{IsOnGrid};
ghost use Rattle.plan_core.specs.Line.{is_line, west_end, east_end, slope_west, slope_east, height, bends, diagonal};
ghost use Rattle.edge_shape.specs.Track.{step_slope, over, line_over, IsTrack, IsFlatOutside};
ghost use Rattle.edge_shape.specs.Columns.{is_up, is_down, is_level, has_inner, has_level_piece, turns_behind};
ghost use Rattle.edge_shape.specs.Columns.{steps_of};

/// The points over a track are a line: its ends are those of the track, its heights are the track's,
/// and it has an inner point exactly where the slope turns.
pub fn a_track_is_a_line()
    ensures line { (y : ℕ → ℕ) (w n : ℕ) → IsTrack y w n → is_line (line_over y w n) ≡ true }
    ensures east { (y : ℕ → ℕ) (w n : ℕ) → east_end (line_over y w n) ≡ over y (w + n + 1) }
    ensures heights { (y : ℕ → ℕ) (w n : ℕ) → IsTrack y w n → IsFlatOutside y w n → height (line_over y w n) ≡ y }
    ensures turns { (y : ℕ → ℕ) (w n c : ℕ) → has_inner (line_over y w n) (c + 1) ≡ turns_behind y w n c }
{}

/// The heights of a line are a track, level outside it, and its points are those over the track. The slopes of its
/// ends are those of its first and its last step.
pub fn a_line_is_a_track()
    ensures steps { (line : List Point) → is_line line ≡ true → (west_end line).x + steps_of line + 1
        ≡ (east_end line).x }
    ensures track { (line : List Point) → is_line line ≡ true
        → IsTrack (height line) (west_end line).x (steps_of line) }
    ensures flat { (line : List Point) → is_line line ≡ true → IsFlatOutside (height line) (west_end line).x
        (steps_of line) }
    ensures again { (line : List Point) → is_line line ≡ true → line_over (height line) (west_end line).x
        (steps_of line) ≡ line }
    ensures west { (line : List Point) → is_line line ≡ true → step_slope (height line) (west_end line).x
        ≡ slope_west line }
    ensures east { (line : List Point) → is_line line ≡ true →
        step_slope (height line) ((west_end line).x + steps_of line) ≡ slope_east line }
{}

/// Two lines over the same columns with the same heights are the same line.
pub fn heights_determine_a_line()
    ensures { (a b : List Point) → is_line a ≡ true → is_line b ≡ true → (west_end a).x ≡ (west_end b).x →
        (east_end a).x ≡ (east_end b).x →
        ((c : ℕ) → (west_end a).x ≤ c → c ≤ (east_end a).x → height a c ≡ height b c) → a ≡ b }
{}

/// A line bends at each of its ends that is diagonal, where a piece is level. Without a level piece it has one slope
/// and no bend.
pub fn bends_by_end_slopes()
    ensures { (line : List Point) → is_line line ≡ true →
        bends line ≡ cond (not (is_level (slope_west line)) && has_level_piece line) 1 0 + cond
        (not (is_level (slope_east line)) && has_level_piece line) 1 0 }
{}

/// The diagonal of a line is the number of columns from which it rises or falls.
pub fn diagonal_by_steps()
    ensures { (line : List Point) (width : ℕ) → is_line line ≡ true → (east_end line).x ≤ width →
        diagonal line
        ≡ count_by (λ c. is_up (step_slope (height line) c) || is_down (step_slope (height line) c))
        (range_with_len 0 width) }
{}

/// All points of a line are on the grid exactly where its heights and its east end are.
pub fn points_and_heights_on_the_grid()
    ensures heights { (grid : GridSize) (line : List Point) (c : ℕ) → is_line line ≡ true → All (IsOnGrid grid) line →
        height line c ≤ grid.height }
    ensures points { (grid : GridSize) (line : List Point) → is_line line ≡ true →
        ((c : ℕ) → height line c ≤ grid.height) → (east_end line).x ≤ grid.width → All (IsOnGrid grid) line }
{}
