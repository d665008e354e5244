// Laws of closed levels. The functions do nothing: their contracts are the laws.
ghost use Rattle.std.specs.Prelude.{◌≡◌, ◌≤◌, ◌<◌, ◌+◌, ◌++◌, ◌∷◌, [], ℕ, List, All};
ghost use Rattle.cnf_core.specs.Lit.{Literal};
ghost use Rattle.cnf_core.specs.Clause.{Clauses, AreDistinct};
ghost use Rattle.cnf_core.specs.Propagation.{LiteralSet, Includes, Falsifies, IsNew, greatest_var};
ghost use Rattle.cdcl_learn.specs.Sight.{Sight};
ghost use Rattle.cdcl_learn.specs.Cut.{IsLearnt, IsBack};
ghost use Rattle.cdcl_learn.specs.Levels.{upto, IsStable, HasClosedLevels, SameUpto};

/// Where the levels below the present one are closed, the learnt clause is new, and what starts within
/// one of them falsifies nothing.
pub fn learnt_clauses_are_new()
    ensures new { (s : Sight) (clauses : Clauses) (first : Literal) (rest : List Literal) → AreDistinct s.lits →
        HasClosedLevels s clauses →
        IsLearnt s first rest → All (λ l. l.var ≤ greatest_var clauses) (first ∷ rest) → IsNew clauses first rest }
    ensures open_ { (s : Sight) (clauses : Clauses) (start : LiteralSet) (q : ℕ) → q < s.level →
        HasClosedLevels s clauses →
        Includes (upto s q) start → Falsifies clauses start → ⊥ }
{}

/// Closed levels stay closed where literals of the present level come or later levels go, where a level
/// is opened once all is propagated, and where the learnt clause is kept after the jump back.
pub fn closed_levels_stay()
    ensures same { (s t : Sight) (clauses : Clauses) → t.level ≤ s.level → SameUpto s t t.level →
        HasClosedLevels s clauses → HasClosedLevels t clauses }
    ensures opened { (s t : Sight) (clauses : Clauses) → t.level ≡ s.level + 1 → SameUpto s t t.level →
        IsStable clauses (upto s s.level) →
        HasClosedLevels s clauses → HasClosedLevels t clauses }
    ensures learnt { (s t : Sight) (cs : Clauses) (first : Literal) (rest : List Literal) → AreDistinct s.lits →
        IsLearnt s first rest → IsBack s rest t.level → SameUpto s t t.level → HasClosedLevels s cs →
        HasClosedLevels t (cs ++ (first ∷ rest) ∷ []) }
{}
