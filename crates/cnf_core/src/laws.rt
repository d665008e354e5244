// Laws of clauses and assignments. The functions do nothing: their contracts are the laws.
ghost use Rattle.std.specs.Prelude.{◌≡◌, ◌≢◌, ◌≤◌, ◌↔◌, ◌⊎◌, ◌++◌, ◌-◌, ℕ, Bool, true, not, List, [], ◌∷◌, map};
ghost use Rattle.std.specs.Prelude.{AllPairs, Any, All};
ghost use Rattle.cnf_core.specs.declared.literal.LitOrTruth.{LitOrTruth as Given};
ghost use Rattle.cnf_core.specs.declared.literal.LitOrTruth.TheVariants.{Lit as OfLit};
ghost use Rattle.cnf_core.specs.Lit.{Literal, negate};
ghost use Rattle.cnf_core.specs.Clause.{Clauses, AreThere, AllThere, AreDistinct, AreRising};
ghost use Rattle.cnf_core.specs.Assignment.{Assignment, truth, Satisfies, SatisfiesAll};
ghost use Rattle.cnf_core.specs.LitOrTruth.{SomeTrue, clause_of, value, flip};

/// An assignment satisfies a clause exactly where it makes one of its literals true, and so never
/// the empty clause.
pub fn one_literal_is_true()
    ensures { (v : Assignment) (c : List Literal) → Satisfies v c ↔ Any (λ l. truth v l ≡ true) c }
{}

/// It satisfies a list of clauses exactly where it satisfies each of them.
pub fn each_clause_is_satisfied()
    ensures { (v : Assignment) (cs : Clauses) → SatisfiesAll v cs ↔ All (Satisfies v) cs }
{}

/// Literals are of distinct variables exactly where no two of them have the same one.
pub fn no_variable_twice()
    ensures { (c : List Literal) → AreDistinct c ↔ AllPairs (λ k l. k.var ≢ l.var) c }
{}

/// A literal is true exactly where its negation is false, and so is a truth value.
pub fn negation_is_false()
    ensures literal { (v : Assignment) (l : Literal) → truth v (negate l) ≡ not (truth v l) }
    ensures given { (v : Assignment) (t : Given) → value v (flip t) ≡ not (value v t) }
{}

/// The clause that literals and truth values make says that one of them is true.
pub fn clause_says_one_is_true()
    ensures { (v : Assignment) (unless : List Literal) (ts : List Given) → SatisfiesAll v (clause_of unless ts)
        ↔ (Satisfies v unless ⊎ SomeTrue v ts) }
{}

/// Of an assignment only the variables that are there count.
pub fn other_variables_are_free()
    ensures { (v w : Assignment) (vars : ℕ) (cs : Clauses) → AllThere vars cs → ((x : ℕ) → x ≤ vars → w x ≡ v x) →
        SatisfiesAll v cs → SatisfiesAll w cs }
{}

/// Literals of distinct variables make the clause that they are.
pub fn distinct_literals_make_their_clause()
    ensures { (unless literals : List Literal) → AreDistinct (unless ++ literals) →
        clause_of unless (map OfLit literals) ≡ (unless ++ literals) ∷ [] }
{}

/// Where each literal's variable is above the one before it, no two are the same. So a long list is shown to be
/// distinct without a comparison of all pairs, and block by block.
pub fn rising_variables_are_distinct()
    ensures distinct { (low high : ℕ) (c : List Literal) → AreRising low high c → AreDistinct c }
    ensures blocks { (low middle high : ℕ) (c d : List Literal) → AreRising low middle c → AreRising middle high d →
        AreRising low high (c ++ d) }
    ensures there { (low high vars : ℕ) (c : List Literal) → high ≤ vars → AreRising low high c → AreThere vars c }
{}
