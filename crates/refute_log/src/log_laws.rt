// Laws of whole logs. The functions do nothing: their contracts are the laws.
ghost use Rattle.std.specs.Prelude.{◌≡◌, ◌≤◌, ◌+◌, ◌^◌, ◌∷◌, ◌++◌, [], ℕ, List, Some, length, take, slice_get};
ghost use Rattle.std.specs.Prelude.{flat_map, Contains};
ghost use Rattle.cnf_core.specs.Lit.{Literal};
ghost use Rattle.cnf_core.specs.Clause.{AllDistinct, HasAllOf, words_of};
ghost use Rattle.cnf_core.specs.Assignment.{Assignment, SatisfiesAll};
ghost use Rattle.refute_log.specs.declared.line.LogLine.{LogLine as Line};
ghost use Rattle.refute_log.specs.declared.line.LogLine.TheVariants.{Learnt as LearntLine};
ghost use Rattle.outside_io.specs.Counts.{rose_by};
ghost use Rattle.refute_log.specs.Told.{Lines};
ghost use Rattle.refute_log.specs.ToldTo.{told_to};
ghost use Rattle.refute_log.specs.Lines.{AreWellFormed};
ghost use Rattle.refute_log.specs.Log.{Facts, facts_of, facts_after, added, given, learnt, refuted, Stands, Derives};
ghost use Rattle.refute_log.specs.Log.{Open, Due};

/// The facts of lines come line by line.
pub fn facts_come_line_by_line()
    ensures { (lines : Lines) (line : Line) → facts_of (lines ++ line ∷ []) ≡ facts_after (facts_of lines) line }
{}

/// A log derives line by line: with one more line it does where it did and that line holds (`Stands`).
pub fn logs_derive_line_by_line()
    ensures none { Derives [] }
    ensures more { (lines : Lines) (line : Line) → Derives lines → Stands lines line → Derives (lines ++ line ∷ []) }
    ensures front { (lines : Lines) (line : Line) → Derives (lines ++ line ∷ []) → Derives lines }
    ensures last { (lines : Lines) (line : Line) → Derives (lines ++ line ∷ []) → Stands lines line }
{}

/// Each Learnt line comes where the latest query is open (`Due`). This holds line by line: with one more line it does
/// where it did and, if the line is a Learnt line, the latest query is open.
pub fn learnt_lines_are_due_line_by_line()
    ensures none { Due [] }
    ensures more { (lines : Lines) (line : Line) → Due lines → ((c : List Literal) → line ≡ LearntLine c → Open lines) →
        Due (lines ++ line ∷ []) }
    ensures front { (lines : Lines) (line : Line) → Due (lines ++ line ∷ []) → Due lines }
    ensures last { (lines : Lines) (c : List Literal) → Due (lines ++ LearntLine c ∷ []) → Open lines }
{}

/// An assignment that satisfies all Formula clauses of a log that derives satisfies all its Learnt
/// and Refuted clauses, whoever wrote it.
pub fn what_a_log_derives_is_true()
    ensures { (v : Assignment) (lines : Lines) → Derives lines → SatisfiesAll v (flat_map given lines) →
        SatisfiesAll v (flat_map learnt lines) × SatisfiesAll v (flat_map refuted lines) }
{}

/// No Learnt line of a log that derives has all literals of an earlier Formula or Learnt clause.
pub fn learnt_lines_say_more()
    ensures { (lines : Lines) (i : ℕ) (c d : List Literal) → Derives lines → slice_get lines i ≡ Some (LearntLine c) →
        Contains (flat_map added (take i lines)) d → HasAllOf c d → ⊥ }
{}

/// A log that derives has at most 3^v Learnt lines, where v is the greatest variable of its
/// Formula lines.
pub fn learnt_lines_are_few()
    ensures { (lines : Lines) → AreWellFormed lines → AllDistinct (flat_map learnt lines) → Derives lines →
        length (flat_map learnt lines) ≤ 3 ^ (facts_of lines).greatest }
{}

/// The words of a log's clauses are those of its Formula clauses and those of its Learnt clauses.
pub fn words_are_of_formula_and_learnt_lines()
    ensures { (lines : Lines) → words_of (facts_of lines).clauses
        ≡ words_of (flat_map given lines) + words_of (flat_map learnt lines) }
{}

/// A log that keeps its lines keeps those that it was given behind those that it had.
pub fn lines_are_told_behind_those_before()
    ensures { (count : Lines → ℕ) (old new lines : Lines) → told_to (λ kept told. told ≡ kept) count old new lines →
        (new ≡ old ++ lines) × (count new ≡ rose_by (length (flat_map learnt lines)) (count old)) }
{}
