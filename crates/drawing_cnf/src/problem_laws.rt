// Laws of the drawings' clause lists. The functions do nothing: their contracts are the laws.
ghost use Rattle.std.specs.Prelude.{◌≡◌, ◌≤◌, ◌<◌, ◌+◌, ℕ, Bool, List, Some, slice_get, flat_map, Contains};
ghost use Rattle.plan_core.specs.declared.criterion.Criterion.{Criterion};
ghost use Rattle.plan_core.specs.Grid.{GridSize};
ghost use Rattle.plan_core.specs.Graph.{Graph};
ghost use Rattle.track_order.specs.Order.{is_above};
ghost use Rattle.cnf_core.specs.declared.literal.Var.{Var};
ghost use Rattle.cnf_core.specs.Clause.{AllThere};
ghost use Rattle.refute_log.specs.declared.line.LogLine.TheVariants.{Bound};
ghost use Rattle.refute_log.specs.Log.{given};
ghost use Rattle.refute_log.specs.Bounds.{CoversDrawings};
ghost use Rattle.refute_log.specs.Expected.{HasAllBounds, expected_lines, expected_vars};
ghost use Rattle.drawing_cnf.specs.Lists.{drawing_problem, lines_for};
ghost use Rattle.drawing_cnf.specs.Layout.{Layout, IsStationLayout, problem_of};

/// The drawings' clause lists have a variable for each bound up to the cap: the first ones of the criterion's sum, one
/// behind another. What is expected for an order with its caps are the lines of the drawings' clauses, with the bounds
/// behind them.
pub fn drawing_lists_are_a_problem()
    ensures bounds { (g : Graph) (above overlap : ℕ → ℕ → Bool) (grid : GridSize) →
        HasAllBounds (drawing_problem g above overlap grid) }
    ensures first { (g : Graph) (above overlap : ℕ → ℕ → Bool) (grid : GridSize) (b : ℕ) (c : Criterion) (cap k : ℕ) →
        k < cap →
        slice_get ((drawing_problem g above overlap grid).bounds b c cap) k ≡ Some (record { 0 = b + 1 + k }) }
    ensures within { (g : Graph) (above overlap : ℕ → ℕ → Bool) (grid : GridSize) (before : ℕ) (c : Criterion)
        (cap : ℕ) → cap ≤ (drawing_problem g above overlap grid).sum_vars before c cap }
    ensures lines { (g : Graph) (above overlap : ℕ → ℕ → Bool) (grid : GridSize) (order : List Criterion)
        (caps : Criterion → ℕ) →
        expected_lines (drawing_problem g above overlap grid) order caps ≡ lines_for g above overlap grid order caps }
{}

/// What is expected covers the lawful drawings of a station's graph, for each order and all caps.
pub fn expected_lines_cover()
    ensures { (y : Layout) (order : List Criterion) (caps : Criterion → ℕ) → IsStationLayout y →
        CoversDrawings y.graph (is_above y.order) y.grid (expected_lines (problem_of y) order caps) }
{}

/// Its clauses and its Bound lines name none but the variables that there are with it.
pub fn expected_variables_are_there()
    ensures clauses { (y : Layout) (order : List Criterion) (caps : Criterion → ℕ) → IsStationLayout y →
        let p = problem_of y in
        AllThere (expected_vars p order caps) (flat_map given (expected_lines p order caps)) }
    ensures bounds { (y : Layout) (order : List Criterion) (caps : Criterion → ℕ) (c : Criterion) (k : ℕ) (x : Var) →
        let p = problem_of y in
        Contains (expected_lines p order caps) (Bound c k x) → (1 ≤ x.0) × (x.0 ≤ expected_vars p order caps) }
{}
