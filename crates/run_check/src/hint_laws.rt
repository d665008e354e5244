// Laws of hinted lines and of what is answered to them. The functions do nothing: their contracts are the laws.
ghost use Rattle.std.specs.Prelude.{◌≡◌, ℕ, List};
ghost use Rattle.plan_core.specs.Graph.{Graph};
ghost use Rattle.plan_text.specs.SheetText.{Sheet as PlainSheet};
ghost use Rattle.track_order.specs.Order.{EdgeOrder};
ghost use Rattle.log_trim.specs.declared.trimming.TrimmedLog.{TrimmedLog as Left};
ghost use Rattle.run_input.specs.declared.status.Status.{Status};
ghost use Rattle.run_input.specs.declared.status.Status.TheVariants.{Done};
ghost use Rattle.run_input.specs.Input.{HasStation};
ghost use Rattle.run_check.specs.Texts.{left_text};
ghost use Rattle.run_check.specs.Trimmed.{LeavesLines};
ghost use Rattle.run_check.specs.Rechecked.{IsRechecked, HintsCertifySheet, IsHintsLine, AreHintedBytes};
ghost use Rattle.run_check.specs.Fitting.{FitsRoom};

/// `recheck` ends with 0 exactly where the hinted lines certify what the sheet claims of the file's station. Its line
/// says then on how many criteria, and what is claimed is so, whoever wrote the lines.
pub fn rechecked_exactly()
    ensures due { (f sheet hints : List ℕ) (g : Graph) (o : EdgeOrder) (said : PlainSheet) (s : Status)
        (t : List ℕ) → HasStation f g o → HintsCertifySheet g o sheet hints said →
        IsRechecked f sheet hints s t → (s ≡ Done) × IsHintsLine said t }
    ensures only { (file sheet hints line : List ℕ) → IsRechecked file sheet hints Done line →
        AreHintedBytes file sheet hints line }
{}

/// `recheck` accepts what `trim` leaves of a log that certifies what a sheet claims, on two conditions. What is
/// expected for its caps is within the limits. And its clauses and those of the Learnt lines that are left have room.
pub fn left_lines_are_certified()
    ensures { (file sheet log : List ℕ) (r : Left) (s : Status) (t : List ℕ) → (left : LeavesLines file sheet log r) →
        FitsRoom left.graph left.order left.said r → IsRechecked file sheet (left_text r) s t → s ≡ Done }
{}
