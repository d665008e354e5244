// Laws of the order of edges. The functions do nothing: their contracts are the laws.
ghost use Rattle.std.specs.Prelude.{◌≡◌, ◌↔◌, ℕ, Bool, true};
ghost use Rattle.plan_core.specs.Graph.{Graph};
ghost use Rattle.plan_core.specs.declared.sides.Compass.{Compass};
ghost use Rattle.port_graph.specs.Turned.{turned_graph};
ghost use Rattle.track_order.specs.Reach.{Reaches, IsOnward};
ghost use Rattle.track_order.specs.Above.{Above};

/// What is reached from an edge is the least set that holds it and, with each of its edges, every
/// edge that follows it.
#[tactic(auto, using(crate::proofs::ReachLemmas::reaching))]
pub fn reach_is_the_least_onward_set()
    ensures start { (g : Graph) (way : Compass) (e : ℕ) → Reaches g way e e }
    ensures onward { (g : Graph) (way : Compass) (e : ℕ) → IsOnward g way (Reaches g way e) }
    ensures least { (g : Graph) (way : Compass) (e : ℕ) (held : ℕ → Bool) →
        IsOnward g way (λ f. held f ≡ true) → held e ≡ true → (f : ℕ) → Reaches g way e f → held f ≡ true }
{}

/// No edge is above itself.
pub fn no_edge_is_above_itself()
    ensures { (g : Graph) (e : ℕ) → Above g e e → ⊥ }
{}

/// Seen from the other end of the station, what was above is below.
pub fn order_turns_round()
    ensures { (g : Graph) (e f : ℕ) → Above g e f ↔ Above (turned_graph g) f e }
{}
