// Laws of levels and watches. The functions do nothing: their contracts are the laws.
ghost use Rattle.std.specs.Prelude.{◌≤◌, ◌<◌, ◌⊎◌, ◌↔◌, ℕ, length, slice_index, slice_index_or};
ghost use Rattle.cnf_core.specs.Lit.{Literal, has};
ghost use Rattle.cnf_core.specs.Propagation.{IsIn};
ghost use Rattle.watch_arena.specs.Trail.{Marks, IsMarks, undone, with_lit};
ghost use Rattle.watch_arena.specs.Walk.{AreRight};
ghost use Rattle.watch_arena.specs.Arena.{AreOpen, IsHeldBy, IsAsserting};

/// Levels never fall along a trail.
pub fn levels_never_fall()
    ensures { (m : Marks) (i j : ℕ) (d : Literal) → IsMarks m → i ≤ j → j < length m.lits →
        slice_index m.levels (slice_index_or m.lits i d).var ≤ slice_index m.levels (slice_index_or m.lits j d).var }
{}

/// What is undone to a level leaves exactly the literals of levels up to it.
pub fn undone_leaves_levels_up_to()
    ensures { (m : Marks) (level : ℕ) (l : Literal) → IsMarks m → level ≤ length m.cuts →
        (IsIn (has (undone m level).lits) l ↔ (IsIn (has m.lits) l × (slice_index m.levels l.var ≤ level))) }
{}

/// Two literals may be watched where neither is false; where one is false and the other true at no
/// later level; and, once the first is set, where it was unset and the second false and of the present
/// level.
pub fn two_literals_may_be_watched()
    ensures open_ { (m : Marks) (k l : Literal) → AreOpen m k l → AreRight m k l }
    ensures held { (m : Marks) (k l : Literal) → IsMarks m → (IsHeldBy m k l ⊎ IsHeldBy m l k) → AreRight m k l }
    ensures asserted { (m : Marks) (k l : Literal) (reason : ℕ) → IsMarks m → IsAsserting m k l →
        AreRight (with_lit m k reason) k l }
{}
