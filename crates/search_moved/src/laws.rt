// Laws of the formula with moved nodes. The functions do nothing: their contracts are the laws.
ghost use Rattle.std.specs.Prelude.{◌≡◌, ◌≤◌, ◌+◌, ◌*◌, ℕ, Bool, length};
ghost use Rattle.plan_core.specs.Grid.{GridSize, IsGrid};
ghost use Rattle.plan_core.specs.Graph.{Graph};
ghost use Rattle.port_graph.specs.StationGraph.{IsStationGraph};
ghost use Rattle.cnf_core.specs.Clause.{IsNamed, words_of};
ghost use Rattle.track_order.specs.Order.{EdgeOrder, is_above, is_overlap, IsOrderOf};
ghost use Rattle.drawing_cnf.specs.Expected.{formula_clauses, formula_size};
ghost use Rattle.drawing_cnf.specs.Moved.{Former, matched};
ghost use Rattle.search_moved.specs.MovedFormula.{moved_formula, moved_size, moved_variable, SoundMoved, CoversMoved};

/// Each assignment that satisfies the clauses means a lawful drawing and says how many nodes moved, and each
/// lawful drawing has such an assignment.
pub fn moved_formula_stands_for_drawings()
    ensures sound { (g : Graph) (o : EdgeOrder) (grid : GridSize) (former : Former) →
        IsStationGraph g → IsOrderOf g o → IsGrid grid → length former ≡ length g.nodes →
        SoundMoved g (is_above o) (is_overlap o) grid former }
    ensures covers { (g : Graph) (o : EdgeOrder) (grid : GridSize) (former : Former) →
        IsStationGraph g → IsOrderOf g o → IsGrid grid → length former ≡ length g.nodes →
        CoversMoved g (is_above o) (is_overlap o) grid former }
{}

/// Each variable "at least j moved" is in a clause. Counting adds few words and few variables.
pub fn moved_formula_is_small()
    ensures named { (g : Graph) (o : EdgeOrder) (grid : GridSize) (former : Former) (j : ℕ) →
        1 ≤ j → j ≤ matched former →
        IsNamed (moved_formula g (is_above o) (is_overlap o) grid former)
        (moved_variable g (is_above o) (is_overlap o) grid j) }
    ensures words { (g : Graph) (above overlap : ℕ → ℕ → Bool) (grid : GridSize) (f : Former) → let n = length f in
        words_of (moved_formula g above overlap grid f)
        ≤ words_of (formula_clauses g above overlap grid) + 200 * ((n + 1) * (n + 2)) }
    ensures vars { (g : Graph) (above overlap : ℕ → ℕ → Bool) (grid : GridSize) (f : Former) → let n = length f in
        moved_size g above overlap grid f ≤ formula_size g above overlap grid + 20 * ((n + 1) * (n + 2)) }
{}
