// Laws of files and of what is answered to them. The functions do nothing: their contracts are the laws.
ghost use Rattle.std.specs.Prelude.{◌≡◌, ◌⊎◌, ℕ, List, Option};
ghost use Rattle.outside_io.specs.Contents.{Told};
ghost use Rattle.plan_core.specs.declared.criterion.Values.{Values};
ghost use Rattle.plan_core.specs.Graph.{Graph};
ghost use Rattle.plan_core.specs.Drawing.{Drawing};
ghost use Rattle.refute_log.specs.Told.{Lines};
ghost use Rattle.refute_log.specs.Certified.{CertifiesNone};
ghost use Rattle.search_least.specs.declared.outcome.Outcome.{Outcome};
ghost use Rattle.search_least.specs.declared.outcome.Outcome.TheVariants as outcomes;
ghost use Rattle.search_least.specs.Outcome.{values_found};
ghost use Rattle.track_order.specs.Order.{EdgeOrder};
ghost use Rattle.run_input.specs.declared.status.Status.TheVariants.{Unfinished};
ghost use Rattle.run_input.specs.SearchLog.{IsLogFile};
ghost use Rattle.railml_read.specs.declared.rows.SignalElem.{SignalElem};
ghost use Rattle.plan_objects.specs.declared.places.SignalPlace.{SignalPlace};
ghost use Rattle.run_input.specs.Signals.{HasSignalStation};
ghost use Rattle.run_draw_front.specs.Signalled.{StandApartWhereFound};
ghost use Rattle.run_draw_front.specs.Drawn.{Job, status_of, HasEnded, HasSettled, HasSpentAll, HasFilledRoom};

/// Of the lines of a search: where none is found to be lawful, that is certified. Where it is unfinished, the criteria
/// that are called settled are those that are certified, and no more. It stops only where the whole budget of learnt
/// clauses is spent and the last query is open, or where the log is full. So it does where only the status 4 is known.
pub fn how_searches_end()
    ensures none { (g : Graph) (o : EdgeOrder) (asked : Job) (lines : Lines) →
        HasEnded g o asked outcomes.NoDrawing lines → CertifiesNone lines }
    ensures settled { (g : Graph) (o : EdgeOrder) (asked : Job) (lines : Lines) (found : Option Drawing) (s : ℕ) →
        HasEnded g o asked (outcomes.Spent found s) lines ⊎ HasEnded g o asked (outcomes.Room found s) lines →
        HasSettled g asked lines found s }
    ensures spent { (g : Graph) (o : EdgeOrder) (asked : Job) (lines : Lines) (found : Option Drawing) (s : ℕ) →
        HasEnded g o asked (outcomes.Spent found s) lines → HasSpentAll asked lines }
    ensures full { (g : Graph) (o : EdgeOrder) (asked : Job) (lines : Lines) (found : Option Drawing) (s : ℕ) →
        HasEnded g o asked (outcomes.Room found s) lines → HasFilledRoom g o asked lines (values_found found) }
    ensures unfinished { (g : Graph) (o : EdgeOrder) (asked : Job) (outcome : Outcome) (ls : Lines) →
        HasEnded g o asked outcome ls → status_of outcome ≡ Unfinished → HasSpentAll asked ls
        ⊎ ((found : Option Values) × HasFilledRoom g o asked ls found) }
{}

/// On the drawing that a search for `signals` found, the columns of each edge's signals lie strictly between the ends
/// of its line. They rise with mileage, at one mileage in file order. No such columns have a greater least gap.
pub fn signals_stand_apart()
    ensures { (bytes : List ℕ) (g : Graph) (o : EdgeOrder) (signals : List SignalElem) (places : List SignalPlace) →
        HasSignalStation bytes g o signals places → StandApartWhereFound g o places }
{}

/// The lines of a log are one list, where the contents of its file are known.
pub fn one_log_in_a_file()
    ensures { (contents : Told) (name : List ℕ) (a b : Lines) → IsLogFile name a contents → IsLogFile name b contents →
        a ≡ b }
{}
