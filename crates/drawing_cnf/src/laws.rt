// Laws of the definitions that compute: where nodes and edges stand, and bounds behind a formula. Each function does
// nothing: its contract is the law.
ghost use Rattle.std.specs.Prelude.{◌≡◌, ◌≤◌, ◌<◌, ◌+◌, ℕ, Bool, List, [], ◌∷◌, ◌++◌, length, All, AllPairs, Contains};
ghost use Rattle.plan_core.specs.declared.criterion.Criterion.{Criterion};
ghost use Rattle.plan_core.specs.Grid.{GridSize, IsGrid};
ghost use Rattle.plan_core.specs.Graph.{Graph};
ghost use Rattle.plan_core.specs.Values.{limit_of};
ghost use Rattle.cnf_core.specs.declared.limits.TheConstants.{VARS};
ghost use Rattle.cnf_core.specs.Lit.{negative_of};
ghost use Rattle.cnf_core.specs.Clause.{words_of, IsNamed};
ghost use Rattle.track_order.specs.Order.{is_above, is_overlap};
ghost use Rattle.cnf_laws.specs.Rank.{LiesBefore, west_rank};
ghost use Rattle.drawing_cnf.specs.Bounds.{west_first, BeginsBefore, reach_of};
ghost use Rattle.cnf_laws.specs.Stands.{DrawingVars};
ghost use Rattle.cnf_laws.specs.Expected.{formula_clauses, formula_size, parts};
ghost use Rattle.drawing_cnf.specs.Bounded.{Bound, clauses_of_bound, size_of_bound, most_words_of_bound};
ghost use Rattle.drawing_cnf.specs.Bounded.{most_size_of_bound, expected_bounds, expected};
ghost use Rattle.drawing_cnf.specs.Behind.{bound_behind, clauses_behind};
ghost use Rattle.drawing_cnf.specs.Encoding.{Encoding};
ghost use Rattle.drawing_cnf.specs.Whole.{expected_last, one_bound_more, HasBoundsOf, IsWhole};

/// Each node has a place of its own in the row, and the nodes lie there from west to east.
pub fn nodes_lie_from_west_to_east()
    ensures within { (g : Graph) (n : ℕ) → n < length g.nodes → west_rank g n < length g.nodes }
    ensures once { (g : Graph) (u v : ℕ) → u < length g.nodes → v < length g.nodes → west_rank g u ≡ west_rank g v → u
        ≡ v }
    ensures rising { (g : Graph) (u v : ℕ) → u < length g.nodes → LiesBefore g u v → west_rank g u < west_rank g v }
{}

/// The edges' list has each edge, once, and they begin there from west to east.
pub fn edges_begin_from_west_to_east()
    ensures there { (g : Graph) → All (λ e. e < length g.edges) (west_first g) }
    ensures each { (g : Graph) (e : ℕ) → e < length g.edges → Contains (west_first g) e }
    ensures once { (g : Graph) → length (west_first g) ≡ length g.edges }
    ensures rising { (g : Graph) → AllPairs (BeginsBefore g) (west_first g) }
{}

/// With one criterion more, there is a bound more right behind the last variable; none, where its cap is 0. So the
/// calls of `criterion_bound` for the criteria of an order, one after another, make the bounds of the order.
pub fn one_criterion_more()
    ensures added { (g : Graph) (above overlap : ℕ → ℕ → Bool) (grid : GridSize) (cs : List Criterion)
        (k : Criterion → ℕ) (c : Criterion) → 0 < k c → expected_bounds g above overlap grid (cs ++ c ∷ []) k
        ≡ one_bound_more g above overlap grid cs k c }
    ensures skipped { (g : Graph) (above overlap : ℕ → ℕ → Bool) (grid : GridSize) (cs : List Criterion)
        (k : Criterion → ℕ) (c : Criterion) → k c ≡ 0 → expected_bounds g above overlap grid (cs ++ c ∷ []) k
        ≡ expected_bounds g above overlap grid cs k }
{}

/// A bound has few words and few variables, where the graph has a node or an edge. Its clauses name each of its
/// variables. Where the value can't go so far, a clause of one literal makes the variable false.
pub fn bounds_are_small_and_named()
    ensures words { (g : Graph) (x : DrawingVars) (grid : GridSize) (b : Bound) → 1 ≤ parts g →
        words_of (clauses_of_bound g x grid b) ≤ most_words_of_bound g grid b.cap }
    ensures vars { (g : Graph) (x : DrawingVars) (grid : GridSize) (b : Bound) → 1 ≤ parts g →
        size_of_bound g x grid b ≤ most_size_of_bound g grid b.cap }
    ensures named { (e : Encoding) (c : Criterion) (n k : ℕ) → IsWhole e → IsGrid e.grid → e.formula.vars ≤ VARS →
        n ≤ limit_of e.graph e.grid c → 1 ≤ k → k ≤ n →
        IsNamed (clauses_behind e (bound_behind e c n)) (e.formula.vars + k) }
    ensures forced { (g : Graph) (x : DrawingVars) (grid : GridSize) (b : Bound) (k : ℕ) →
        b.cap ≤ limit_of g grid b.criterion → k ≤ b.cap → reach_of g grid b.criterion < k →
        Contains (clauses_of_bound g x grid b) (negative_of (b.last + k) ∷ []) }
{}

/// A whole formula with the bounds of an order has just the clauses and variables that there are for the order.
pub fn whole_is_expected()
    ensures clauses { (e : Encoding) (order : List Criterion) (caps : Criterion → ℕ) → IsWhole e →
        HasBoundsOf e order caps →
        e.formula.clauses ≡ expected e.graph (is_above e.order) (is_overlap e.order) e.grid order caps }
    ensures vars { (e : Encoding) (order : List Criterion) (caps : Criterion → ℕ) → IsWhole e →
        HasBoundsOf e order caps →
        e.formula.vars ≡ expected_last e.graph (is_above e.order) (is_overlap e.order) e.grid order caps }
{}

/// The drawing's clauses with the bounds of an order's front have no more words and no more variables than with the
/// bounds of the whole order. So where those so far are more than there may be, those of the whole are.
pub fn no_more_in_front()
    ensures words { (g : Graph) (above overlap : ℕ → ℕ → Bool) (grid : GridSize) (front rest : List Criterion)
        (caps : Criterion → ℕ) → words_of (expected g above overlap grid front caps) ≤ words_of
        (expected g above overlap grid (front ++ rest) caps) }
    ensures vars { (g : Graph) (above overlap : ℕ → ℕ → Bool) (grid : GridSize) (front rest : List Criterion)
        (caps : Criterion → ℕ) →
        expected_last g above overlap grid front caps ≤ expected_last g above overlap grid (front ++ rest) caps }
    ensures drawing_words { (g : Graph) (above overlap : ℕ → ℕ → Bool) (grid : GridSize) (order : List Criterion)
        (caps : Criterion → ℕ) →
        words_of (formula_clauses g above overlap grid) ≤ words_of (expected g above overlap grid order caps) }
    ensures drawing_size { (g : Graph) (above overlap : ℕ → ℕ → Bool) (grid : GridSize) (order : List Criterion)
        (caps : Criterion → ℕ) →
        formula_size g above overlap grid ≤ expected_last g above overlap grid order caps }
{}
