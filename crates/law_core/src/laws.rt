// Laws of the clauses and of loose drawings. Each function does nothing: its contract is the law.
ghost use Rattle.std.specs.Prelude.{◌≢◌, ◌≤◌, ◌<◌, ℕ, List, length};
ghost use Rattle.plan_core.specs.Grid.{GridSize};
ghost use Rattle.plan_core.specs.Graph.{Graph, IsTrackGraph};
ghost use Rattle.plan_core.specs.Drawing.{Drawing};
ghost use Rattle.plan_core.specs.Lawful.{Instance};
ghost use Rattle.cnf_core.specs.Clause.{IsNamed};
ghost use Rattle.track_order.specs.Order.{EdgeOrder, IsOrderOf};
ghost use Rattle.search_why.specs.Explained.{IsLoose};
ghost use Rattle.search_why.specs.Task.{HasAllLaws};
ghost use Rattle.drawing_cnf.specs.Stands.{IsJoinedOnGrid};
ghost use Rattle.drawing_cnf.specs.Expected.{laws_first};
ghost use Rattle.law_core.specs.Choices.{loose_clauses, loose_size};
ghost use Rattle.law_core.specs.Chosen.{selector_at, why_task};

/// The selecting variable of each law is in a clause, lies behind those of nodes and edges, and is no other law's.
pub fn selectors_are_apart()
    ensures named { (g : Graph) (grid : GridSize) (laws : List Instance) (n : ℕ) → n < length laws →
        IsNamed (loose_clauses g grid laws) (selector_at g grid laws n) }
    ensures there { (g : Graph) (grid : GridSize) (laws : List Instance) (n : ℕ) → n < length laws →
        (laws_first g grid ≤ selector_at g grid laws n) × (selector_at g grid laws n ≤ loose_size g grid laws) }
    ensures apart { (g : Graph) (grid : GridSize) (laws : List Instance) (m n : ℕ) →
        m < length laws → n < length laws → m ≢ n →
        selector_at g grid laws m ≢ selector_at g grid laws n }
{}

/// The list has all laws of 2, 4, 5, 6 and 7 of the graph, and no others.
pub fn all_laws_are_listed()
    ensures { (g : Graph) (order : EdgeOrder) (grid : GridSize) (budget room : ℕ) → IsOrderOf g order →
        HasAllLaws (why_task g order grid budget room) }
{}

/// A drawing is loose exactly where it fits the graph and has laws 1 and 3 as the nodes' and edges' clauses have them.
pub fn loose_drawings_are_joined()
    ensures loose { (g : Graph) (grid : GridSize) (d : Drawing) → IsJoinedOnGrid g grid d → IsLoose g grid d }
    ensures joined { (g : Graph) (grid : GridSize) (d : Drawing) → IsTrackGraph g → IsLoose g grid d →
        IsJoinedOnGrid g grid d }
{}
