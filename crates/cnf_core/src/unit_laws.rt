// Laws of unit propagation. The functions do nothing: their contracts are the laws.
ghost use Rattle.std.specs.Prelude.{◌≡◌, ◌≤◌, ◌⊎◌, ◌∷◌, ◌++◌, List, All, Contains};
ghost use Rattle.cnf_core.specs.Lit.{Literal, negate};
ghost use Rattle.cnf_core.specs.Clause.{Clauses};
ghost use Rattle.cnf_core.specs.Assignment.{Assignment, Satisfies, SatisfiesAll};
ghost use Rattle.cnf_core.specs.Propagation.{LiteralSet, IsIn, Includes, IsClosed, Closure, nothing, units, Falsifies};
ghost use Rattle.cnf_core.specs.Propagation.{Rup, IsNew, SameLiterals, AreAmong, IsWitness, greatest_var};

/// The closure has the literals of the start, is closed, and is within every such set.
pub fn closure_is_the_least_closed_set()
    ensures start { (clauses : Clauses) (start : LiteralSet) (l : Literal) → IsIn start l → Closure clauses start l }
    ensures closed { (clauses : Clauses) (start : LiteralSet) (clause : List Literal) (l : Literal) →
        Contains clauses clause →
        Contains clause l → All (λ k. (k ≡ l) ⊎ Closure clauses start (negate k)) clause → Closure clauses start l }
    ensures least { (clauses : Clauses) (start set : LiteralSet) (l : Literal) → IsClosed clauses set →
        Includes set start →
        Closure clauses start l → IsIn set l }
{}

/// The closure of what follows adds nothing.
pub fn closure_adds_nothing_again()
    ensures closure { (clauses : Clauses) (start more : LiteralSet) (l : Literal) →
        ((k : Literal) → IsIn more k → Closure clauses start k) → Closure clauses more l → Closure clauses start l }
    ensures falsifies { (clauses : Clauses) (start more : LiteralSet) →
        ((k : Literal) → IsIn more k → Closure clauses start k) → Falsifies clauses more → Falsifies clauses start }
{}

/// Of more clauses more follows, whatever the order of clauses and of literals in a clause.
pub fn more_clauses_more_closure()
    ensures closure { (clauses more : Clauses) (start : LiteralSet) (l : Literal) → AreAmong clauses more →
        Closure clauses start l → Closure more start l }
    ensures falsifies { (clauses more : Clauses) (start : LiteralSet) → AreAmong clauses more →
        Falsifies clauses start → Falsifies more start }
    ensures rup { (clauses more : Clauses) (clause : List Literal) → AreAmong clauses more → Rup clauses clause →
        Rup more clause }
    ensures behind { (xs ys : Clauses) → AreAmong xs (xs ++ ys) }
{}

/// Of a clause and of a list of clauses only the sets of literals count.
pub fn only_sets_of_literals_count()
    ensures rup { (clauses : Clauses) (c d : List Literal) → SameLiterals c d → Rup clauses c → Rup clauses d }
    ensures new { (clauses more : Clauses) (first : Literal) (others again : List Literal) → AreAmong clauses more →
        AreAmong more clauses →
        SameLiterals others again → IsNew clauses first others → IsNew more first again }
{}

/// Literals that follow from the clauses alone, as clauses of their own, add nothing.
pub fn known_literals_add_nothing()
    ensures closure { (clauses : Clauses) (known : List Literal) (start : LiteralSet) (l : Literal) →
        All (Closure clauses nothing) known →
        Closure (clauses ++ units known) start l → Closure clauses start l }
    ensures falsifies { (clauses : Clauses) (known : List Literal) (start : LiteralSet) →
        All (Closure clauses nothing) known →
        Falsifies (clauses ++ units known) start → Falsifies clauses start }
    ensures rup { (clauses : Clauses) (known clause : List Literal) → All (Closure clauses nothing) known →
        Rup (clauses ++ units known) clause → Rup clauses clause }
{}

/// A clause that follows by unit propagation is satisfied by each assignment that satisfies the
/// clauses.
pub fn rup_is_sound()
    ensures { (v : Assignment) (clauses : Clauses) (clause : List Literal) → Rup clauses clause →
        SatisfiesAll v clauses → Satisfies v clause }
{}

/// A clause is new where a closed set has the negations of its other literals, lacks the first and
/// falsifies no clause.
pub fn new_by_a_closed_set()
    ensures { (clauses : Clauses) (first : Literal) (others : List Literal) (set : LiteralSet) →
        IsWitness clauses first others set →
        All (λ l. l.var ≤ greatest_var clauses) (first ∷ others) → IsNew clauses first others }
{}

/// No clause has only literals of a new one.
pub fn new_includes_no_clause()
    ensures { (clauses : Clauses) (first : Literal) (others : List Literal) → IsNew clauses first others →
        (d : List Literal) → Contains clauses d → ((l : Literal) → Contains d l → (l ≡ first) ⊎ Contains others l) → ⊥ }
{}
