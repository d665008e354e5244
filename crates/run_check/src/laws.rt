// Laws of files and of what is answered to them. The functions do nothing: their contracts are the laws.
ghost use Rattle.std.specs.Prelude.{◌≡◌, ◌↔◌, ℕ, List};
ghost use Rattle.plan_core.specs.Grid.{GridSize};
ghost use Rattle.plan_core.specs.Graph.{Graph};
ghost use Rattle.plan_core.specs.Drawing.{Drawing};
ghost use Rattle.plan_core.specs.Values.{values_of};
ghost use Rattle.plan_core.specs.Lawful.{Lawful};
ghost use Rattle.plan_text.specs.SheetText.{Sheet as PlainSheet};
ghost use Rattle.plan_text.specs.SheetFaults.{IsDrawingOf};
ghost use Rattle.track_order.specs.Order.{EdgeOrder, is_above};
ghost use Rattle.run_input.specs.declared.status.Status.{Status};
ghost use Rattle.run_input.specs.declared.status.Status.TheVariants.{Done, Broken};
ghost use Rattle.run_input.specs.Input.{HasStation};
ghost use Rattle.run_check.specs.Verdict.{lawful_line, IsSheetJudged};
ghost use Rattle.run_check.specs.Verdict.{IsVerified};
ghost use Rattle.run_check.specs.Checked.{IsChecked};
ghost use Rattle.run_check.specs.CertifiedSheet.{CertifiesSheet, ClaimsTruly, IsCertifiedLine};

/// A sheet has one answer at most for a station: one status, with one text.
pub fn one_sheet_answer()
    ensures status { (g : Graph) (o : EdgeOrder) (sheet : List ℕ) (status other : Status) (text another : List ℕ) →
        IsSheetJudged g
        o sheet status text → IsSheetJudged g o sheet other another → status ≡ other }
    ensures text { (g : Graph) (o : EdgeOrder) (sheet : List ℕ) (status other : Status) (text another : List ℕ) →
        IsSheetJudged g
        o sheet status text → IsSheetJudged g o sheet other another → text ≡ another }
{}

/// Where a sheet's text is that of a drawing, its answer has the status 0 exactly where the drawing is lawful, and then
/// the line of what it measures. It has the status 8 exactly where the drawing isn't lawful.
pub fn verdict_of_drawing()
    ensures lawful { (g : Graph) (o : EdgeOrder) (sheet : List ℕ) (grid : GridSize) (d : Drawing) (s : Status)
        (text : List ℕ) → IsDrawingOf g sheet grid d → IsSheetJudged g o sheet s text →
        (s ≡ Done) ↔ Lawful g (is_above o) grid d }
    ensures line { (g : Graph) (o : EdgeOrder) (sheet : List ℕ) (grid : GridSize) (d : Drawing) (s : Status)
        (t : List ℕ) → IsDrawingOf g sheet grid d → IsSheetJudged g o sheet s t → Lawful g (is_above o) grid d →
        t ≡ lawful_line (values_of d) }
    ensures broken { (g : Graph) (o : EdgeOrder) (sheet : List ℕ) (grid : GridSize) (d : Drawing) (s : Status)
        (text : List ℕ) → IsDrawingOf g sheet grid d → IsSheetJudged g o sheet s text → (s ≡ Broken)
        ↔ (Lawful g (is_above o) grid d → ⊥) }
{}

/// A file and a sheet have one answer at most: one status, with one text.
pub fn one_answer_to_a_file()
    ensures status { (bytes sheet : List ℕ) (status other : Status) (text another : List ℕ) →
        IsVerified bytes sheet status text →
        IsVerified bytes sheet other another → status ≡ other }
    ensures text { (bytes sheet : List ℕ) (status other : Status) (text another : List ℕ) →
        IsVerified bytes sheet status text →
        IsVerified bytes sheet other another → text ≡ another }
{}

/// A file, a sheet and a log have one answer of `check` at most: one status, with one text.
pub fn one_answer_of_check()
    ensures status { (file sheet log : List ℕ) (status other : Status) (text another : List ℕ) →
        IsChecked file sheet log status
        text → IsChecked file sheet log other another → status ≡ other }
    ensures text { (file sheet log : List ℕ) (status other : Status) (text another : List ℕ) →
        IsChecked file sheet log status
        text → IsChecked file sheet log other another → text ≡ another }
{}

/// `check` ends with 0 exactly where the log certifies what the sheet claims of the file's station. Its line says then
/// on how many criteria, and what is claimed is so, whoever wrote the log.
pub fn certified_exactly()
    ensures due { (file sheet log : List ℕ) (g : Graph) (o : EdgeOrder) (said : PlainSheet) (s : Status) (t : List ℕ) →
        HasStation file g o → CertifiesSheet g o sheet log said → IsChecked file sheet log s t → (s ≡ Done)
        × IsCertifiedLine said t }
    ensures only { (file sheet log text : List ℕ) → IsChecked file sheet log Done text →
        (g : Graph) × (o : EdgeOrder) × (said : PlainSheet) × HasStation file g o
        × CertifiesSheet g o sheet log said × ClaimsTruly g o said × IsCertifiedLine said text }
{}
