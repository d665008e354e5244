// Examples of the definitions as theorems. The functions have no code: what they ensure speaks of the
// track graphs and drawings that are written out in specs/, and of comparisons.
ghost use Rattle.std.specs.Prelude.{◌≡◌, ◌<◌, ◌≤◌, ◌↔◌, ℕ, Bool, true, false, List, [], ◌∷◌, length};
ghost use Rattle.std.specs.List.{list_all, count_by};
ghost use Rattle.plan_core.specs.declared.criterion.Criterion.{Criterion};
ghost use Rattle.plan_core.specs.declared.criterion.Criterion.TheVariants.{Height, Bends, Diagonal, Width};
ghost use Rattle.plan_core.specs.declared.criterion.Values.{Values};
ghost use Rattle.plan_core.specs.declared.point.Point.{Point};
ghost use Rattle.plan_core.specs.Grid.{GridSize, grid_size};
ghost use Rattle.plan_core.specs.Graph.{Graph, Overlap, IsTrackGraph};
ghost use Rattle.plan_core.specs.Drawing.{Drawing};
ghost use Rattle.plan_core.specs.Line.{Piece, is_piece, is_shape, is_line, bends, diagonal, height};
ghost use Rattle.plan_core.specs.Lawful.{Fits, Lawful, NodeOnGrid, LineOnGrid, Ordered, Joined, Aligned, Apart, Over};
ghost use Rattle.plan_core.specs.Lawful.{Parted};
ghost use Rattle.plan_core.specs.Laws.{LineJoinsItsNodes};
ghost use Rattle.plan_core.specs.Values.{values_of, value_of, limit_of, Better};
ghost use Rattle.plan_core.specs.Readings.{MeetsItsNodes, IsLessAt, Interpolates, columns_off_level};
ghost use Rattle.plan_core.specs.Examples.{point_at, longer, usual_grid, roomy_grid, roomy_drawing, measured, IsWorked};
ghost use Rattle.plan_core.specs.Examples.{one_graph, none_above, one_drawing, loop_graph, loop_above, loop_drawing};
ghost use Rattle.plan_core.specs.Examples.{back_graph, back_drawing, cross_graph, cross_above, cross_drawing};
ghost use Rattle.plan_core.specs.Examples.{two_graph, two_drawing, scissors_graph, scissors_above, scissors_drawing};
ghost use Rattle.plan_core.specs.Examples.{station_graph, station_above, station_drawing, farthest_drawing};
ghost use Rattle.plan_core.specs.Breaches.{BreaksJust, meeting_graph, parted_graph, joined_graph, too_wide, too_high};
ghost use Rattle.plan_core.specs.Breaches.{uneven, swapped, short, exchanged, crowded, too_steep, bent_rising_path};
ghost use Rattle.plan_core.specs.Breaches.{bent_falling_path, bent_main, sloping, kinked, one_point, touching};
ghost use Rattle.plan_core.specs.Breaches.{begins_above, ends_below, touched_drawing, crossed_drawing, backwards_graph};
ghost use Rattle.plan_core.specs.Breaches.{flat_graph, loose_graph, misplaced_graph, stray_graph, one_legged_graph};
ghost use Rattle.plan_core.specs.Breaches.{idle_graph};

// Each worked drawing is lawful, and measures height, bends, diagonal and width as stated.
fn worked_drawings()
    ensures one_track { IsWorked one_graph none_above usual_grid one_drawing (measured 0 0 0 1) }
    ensures one_track_as_far_out_as_the_grid_goes { IsWorked one_graph none_above usual_grid farthest_drawing
        (measured 8 0 0 40) }
    ensures a_loop { IsWorked loop_graph loop_above usual_grid loop_drawing (measured 1 2 2 5) }
    ensures a_loop_listed_backwards { IsWorked back_graph loop_above usual_grid back_drawing (measured 1 2 2 5) }
    ensures a_crossover { IsWorked cross_graph cross_above usual_grid cross_drawing (measured 1 0 1 3) }
    ensures two_tracks { IsWorked two_graph none_above usual_grid two_drawing (measured 1 0 0 1) }
    ensures scissors { IsWorked scissors_graph scissors_above usual_grid scissors_drawing (measured 2 0 4 4) }
    ensures a_loop_with_two_columns_for_each_edge { IsWorked loop_graph loop_above roomy_grid roomy_drawing
        (measured 1 2 2 7) }
    ensures a_station { IsWorked station_graph station_above usual_grid station_drawing (measured 2 2 3 7) }
{}

// Each of these drawings breaks one law, for the parties listed and for no others.
fn broken_drawings()
    ensures too_wide { BreaksJust one_graph none_above usual_grid too_wide (NodeOnGrid 1 ∷ LineOnGrid 0 ∷ []) }
    ensures too_high { BreaksJust loop_graph loop_above usual_grid too_high (LineOnGrid 3 ∷ []) }
    ensures uneven { BreaksJust two_graph none_above usual_grid uneven (Ordered 1 3 ∷ []) }
    ensures swapped { BreaksJust parted_graph none_above usual_grid swapped
        (Ordered 0 2 ∷ Ordered 0 3 ∷ Ordered 1 2 ∷ Ordered 1 3 ∷ []) }
    ensures short { BreaksJust one_graph none_above usual_grid short (Joined 0 ∷ []) }
    ensures exchanged { BreaksJust two_graph none_above usual_grid exchanged (Joined 0 ∷ Joined 1 ∷ []) }
    ensures crowded { BreaksJust loop_graph loop_above roomy_grid crowded (Joined 2 ∷ []) }
    ensures a_loop_with_one_column_at_its_ends { BreaksJust loop_graph loop_above roomy_grid loop_drawing
        (Joined 0 ∷ Joined 2 ∷ []) }
    ensures too_steep { BreaksJust loop_graph loop_above usual_grid too_steep (Aligned 3 ∷ []) }
    ensures bent_rising_path { BreaksJust scissors_graph scissors_above usual_grid bent_rising_path (Aligned 8 ∷ []) }
    ensures bent_falling_path { BreaksJust scissors_graph scissors_above usual_grid bent_falling_path (Aligned 8 ∷ []) }
    ensures bent_main { BreaksJust loop_graph loop_above usual_grid bent_main (Aligned 3 ∷ []) }
    ensures sloping { BreaksJust one_graph none_above usual_grid sloping (Aligned 0 ∷ Aligned 1 ∷ []) }
    ensures kinked { BreaksJust joined_graph none_above usual_grid kinked (Aligned 1 ∷ []) }
    ensures one_point { BreaksJust meeting_graph none_above usual_grid one_point (Apart 1 2 ∷ []) }
    ensures touching { BreaksJust parted_graph none_above usual_grid touching (Apart 1 2 ∷ []) }
    ensures begins_above { BreaksJust cross_graph cross_above usual_grid begins_above (Over 2 0 ∷ []) }
    ensures ends_below { BreaksJust cross_graph cross_above usual_grid ends_below (Over 3 1 ∷ []) }
    ensures touched { BreaksJust joined_graph none_above usual_grid touched_drawing (Parted 0 2 ∷ Parted 1 2 ∷ []) }
    ensures crossed { BreaksJust joined_graph none_above usual_grid crossed_drawing (Parted 0 2 ∷ []) }
{}

// None of these is a track graph; each has one thing wrong.
fn no_track_graphs()
    ensures an_edge_backwards { IsTrackGraph backwards_graph → ⊥ }
    ensures an_edge_of_no_length { IsTrackGraph flat_graph → ⊥ }
    ensures an_edge_to_nowhere { IsTrackGraph loose_graph → ⊥ }
    ensures a_port_on_the_wrong_side { IsTrackGraph misplaced_graph → ⊥ }
    ensures an_edge_without_a_port { IsTrackGraph stray_graph → ⊥ }
    ensures one_leg_twice { IsTrackGraph one_legged_graph → ⊥ }
    ensures a_port_without_an_edge { IsTrackGraph idle_graph → ⊥ }
{}

// Which lists of points are lines, and what a line measures.
fn lines()
    ensures a_diagonal { is_line (point_at 0 0 ∷ point_at 2 2 ∷ []) ≡ true }
    ensures up_level_up { is_line (point_at 0 0 ∷ point_at 1 1 ∷ point_at 2 1 ∷ point_at 4 3 ∷ []) ≡ true }
    ensures a_peak_without_a_level { is_line (point_at 0 0 ∷ point_at 1 1 ∷ point_at 2 0 ∷ []) ≡ false }
    ensures level_up_level { is_line (point_at 0 0 ∷ point_at 1 0 ∷ point_at 2 1 ∷ point_at 3 1 ∷ []) ≡ false }
    ensures level_twice { is_line (point_at 0 0 ∷ point_at 1 0 ∷ point_at 2 0 ∷ []) ≡ false }
    ensures too_steep { is_line (point_at 0 0 ∷ point_at 1 2 ∷ []) ≡ false }
    ensures too_flat { is_line (point_at 0 0 ∷ point_at 2 1 ∷ []) ≡ false }
    ensures upright { is_line (point_at 0 0 ∷ point_at 0 1 ∷ []) ≡ false }
    ensures westwards { is_line (point_at 2 0 ∷ point_at 0 0 ∷ []) ≡ false }
    ensures a_point { is_line (point_at 0 0 ∷ []) ≡ false }
    ensures five_points { is_line (point_at 0 0 ∷ point_at 1 1 ∷ point_at 2 1 ∷ point_at 3 2 ∷ point_at 4 2 ∷ [])
        ≡ false }
    ensures its_bends { bends (point_at 0 0 ∷ point_at 1 1 ∷ point_at 2 1 ∷ point_at 4 3 ∷ []) ≡ 2 }
    ensures its_diagonal { diagonal (point_at 0 0 ∷ point_at 1 1 ∷ point_at 2 1 ∷ point_at 4 3 ∷ []) ≡ 3 }
    ensures its_height { height (point_at 0 0 ∷ point_at 1 1 ∷ point_at 2 1 ∷ point_at 4 3 ∷ []) 3 ≡ 2 }
    ensures going_down { height (point_at 0 5 ∷ point_at 2 5 ∷ point_at 6 1 ∷ []) 4 ≡ 3 }
{}

// The eleven shapes: each of these lines has one, and so many lists of slopes are shapes in all.
fn shapes()
    ensures each_of_one_piece { list_all is_line
        ((point_at 0 3 ∷ point_at 1 3 ∷ [])
        ∷ (point_at 0 3 ∷ point_at 1 4 ∷ [])
        ∷ (point_at 0 3 ∷ point_at 1 2 ∷ [])
        ∷ [])
        ≡ true }
    ensures each_of_two_pieces { let p = point_at in list_all is_line ((p 0 3 ∷ p 1 4 ∷ p 2 4 ∷ [])
        ∷ (p 0 3 ∷ p 1 2 ∷ p 2 2 ∷ []) ∷ (p 0 3 ∷ p 1 3 ∷ p 2 4 ∷ []) ∷ (p 0 3 ∷ p 1 3 ∷ p 2 2 ∷ []) ∷ []) ≡ true }
    ensures on_over_a_level_piece { list_all is_line
        ((point_at 0 3 ∷ point_at 1 4 ∷ point_at 2 4 ∷ point_at 3 5 ∷ [])
        ∷ (point_at 0 3 ∷ point_at 1 2 ∷ point_at 2 2 ∷ point_at 3 1 ∷ [])
        ∷ [])
        ≡ true }
    ensures back_over_a_level_piece { list_all is_line
        ((point_at 0 3 ∷ point_at 1 4 ∷ point_at 2 4 ∷ point_at 3 3 ∷ [])
        ∷ (point_at 0 3 ∷ point_at 1 2 ∷ point_at 2 2 ∷ point_at 3 3 ∷ [])
        ∷ [])
        ≡ true }
    ensures none_of_no_piece { is_shape [] ≡ false }
    ensures three_of_one_piece { count_by is_shape (longer ([] ∷ [])) ≡ 3 }
    ensures four_of_two_pieces { count_by is_shape (longer (longer ([] ∷ []))) ≡ 4 }
    ensures four_of_three_pieces { count_by is_shape (longer (longer (longer ([] ∷ [])))) ≡ 4 }
    ensures none_of_four_pieces { count_by is_shape (longer (longer (longer (longer ([] ∷ []))))) ≡ 0 }
{}

// Edges overlap where they have mileages in common, and not only a last one that is a first one.
fn overlaps()
    ensures same_mileages { Overlap two_graph 0 1 }
    ensures one_within_the_other { Overlap joined_graph 1 2 }
    ensures end_to_end { Overlap meeting_graph 0 1 → ⊥ }
    ensures apart { Overlap parted_graph 0 1 → ⊥ }
{}

// What the definitions come to in other words, for every graph, drawing, line and order.
fn other_readings()
    ensures two_to_four_points { (l : List Point) → is_line l ≡ true → (2 ≤ length l) × (length l ≤ 4) }
    ensures heights_interpolate { (p : Piece) (x : ℕ) → is_piece p ≡ true → p.west.x ≤ x → x ≤ p.east.x →
        Interpolates p x }
    ensures diagonal_counts_columns { (l : List Point) → is_line l ≡ true → diagonal l ≡ columns_off_level l }
    ensures no_value_passes_its_limit { (g : Graph) (above : ℕ → ℕ → Bool) (grid : GridSize) (d : Drawing) →
        Lawful g above grid d → (c : Criterion) → value_of (values_of d) c ≤ limit_of g grid c }
    ensures least_1_asks_no_more_than_that_ends_meet { (g : Graph) (width height : ℕ) (d : Drawing) (e : ℕ) → Fits g d →
        e < length g.edges → MeetsItsNodes g d e → LineJoinsItsNodes g (grid_size width height) d e }
    ensures better_is_less_at_some_place { (order : List Criterion) (a b : Values) → Better order a b ↔ (i : ℕ)
        × IsLessAt order a b i }
    ensures nothing_is_better_than_itself { (order : List Criterion) (a : Values) → Better order a a → ⊥ }
    ensures better_than_a_better_one { (order : List Criterion) (a b c : Values) → Better order a b → Better order b c →
        Better order a c }
{}

// How great the values of the loop's drawings may be: 4 edges, and columns 0 to 40 and rows 0 to 8.
fn limits()
    ensures height { limit_of loop_graph usual_grid Height ≡ 8 }
    ensures bends { limit_of loop_graph usual_grid Bends ≡ 8 }
    ensures diagonal { limit_of loop_graph usual_grid Diagonal ≡ 160 }
    ensures width { limit_of loop_graph usual_grid Width ≡ 40 }
{}

// A drawing is better by the first criterion of the order at which the two differ.
fn comparisons()
    ensures first_decides { Better (Height ∷ Width ∷ []) (measured 1 9 9 9) (measured 2 0 0 0) }
    ensures later_one_decides { Better (Height ∷ Width ∷ []) (measured 1 9 9 4) (measured 1 0 0 5) }
    ensures other_order { Better (Width ∷ Height ∷ []) (measured 2 0 0 4) (measured 1 0 0 5) }
    ensures not_both_ways { Better (Height ∷ Width ∷ []) (measured 2 0 0 4) (measured 1 0 0 5) → ⊥ }
    ensures one_criterion { Better (Bends ∷ []) (measured 7 1 9 9) (measured 1 2 3 4) }
    ensures others_are_free { Better (Diagonal ∷ []) (measured 1 1 3 1) (measured 2 2 3 2) → ⊥ }
    ensures equal_values { Better (Height ∷ Bends ∷ Diagonal ∷ Width ∷ []) (measured 1 2 2 5) (measured 1 2 2 5) → ⊥ }
    ensures no_criterion { Better [] (measured 0 0 0 0) (measured 1 2 2 5) → ⊥ }
    ensures a_repeat_adds_nothing { Better (Bends ∷ Bends ∷ Width ∷ []) (measured 1 2 2 4) (measured 1 2 2 5) }
{}

#[test]
fn the_examples_are_as_the_definitions_say(_rt: HostRuntime) {
    worked_drawings();
    broken_drawings();
    no_track_graphs();
    lines();
    shapes();
    overlaps();
    limits();
    comparisons();
    other_readings();
}
