// Laws of the answers. The functions do nothing: their contracts are the laws.
ghost use Rattle.std.specs.Prelude.{◌≡◌, ◌↔◌, ℕ, List, codes};
ghost use Rattle.plan_core.specs.Graph.{Graph};
ghost use Rattle.plan_core.specs.Drawing.{Drawing};
ghost use Rattle.plan_core.specs.Lawful.{Lawful};
ghost use Rattle.track_order.specs.Order.{EdgeOrder, is_above};
ghost use Rattle.law_core.specs.declared.ending.Why.{Why};
ghost use Rattle.law_core.specs.Why.{IsRightWhy};
ghost use Rattle.drawing_cnf.specs.Moved.{Former};
ghost use Rattle.run_input.specs.declared.status.Status.{Status};
ghost use Rattle.run_input.specs.declared.status.Status.TheVariants.{Done};
ghost use Rattle.run_explain_redraw.specs.WhyText.{why_text};
ghost use Rattle.run_explain_redraw.specs.Explained.{ExplainJob, explain_task, status_of_why};
ghost use Rattle.run_explain_redraw.specs.Judged.{HaveFormer, HaveFault};

/// Where a search came to an end, its text says that a drawing exists exactly where a lawful drawing does.
pub fn exists_where_lawful()
    ensures { (g : Graph) (o : EdgeOrder) (asked : ExplainJob) (w : Why) → IsRightWhy (explain_task g o asked) w →
        status_of_why w ≡ Done →
        (why_text g w ≡ codes "drawing exists\n") ↔ ((d : Drawing) × Lawful g (is_above o) asked.grid d) }
{}

/// Three files that have a station and former points have no fault, neither the file nor the former one nor the sheet.
pub fn former_or_fault()
    ensures { (bytes old sheet : List ℕ) (g : Graph) (o : EdgeOrder) (former : Former) (status : Status)
        (text : List ℕ) → HaveFormer bytes old sheet g o former → HaveFault bytes old sheet status text → ⊥ }
{}
