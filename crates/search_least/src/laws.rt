// Laws of outcomes. The functions do nothing: their contracts are the laws.
ghost use Rattle.std.specs.Prelude.{◌≡◌, ◌<◌, ℕ, List, Option, Some, length, flat_map, slice_get};
ghost use Rattle.plan_core.specs.declared.criterion.Criterion.{Criterion};
ghost use Rattle.plan_core.specs.Drawing.{Drawing};
ghost use Rattle.refute_log.specs.Told.{Lines};
ghost use Rattle.refute_log.specs.Log.{learnt, Open};
ghost use Rattle.refute_log.specs.Certified.{Settled};
ghost use Rattle.refute_log.specs.Full.{IsFullLog};
ghost use Rattle.refute_log.specs.declared.stop.Stop.{Stop as Cause};
ghost use Rattle.refute_log.specs.declared.stop.Stop.TheVariants.{BudgetSpent, RoomFull};
ghost use Rattle.search_least.specs.Task.{Task, greatest_of};
ghost use Rattle.search_least.specs.Caps.{AreCapped, WasReached};
ghost use Rattle.search_least.specs.Outcome.{IsStoppedEnd, values_found};

/// Where a search stopped, the criteria that it calls settled are those that are. Where it stopped for want of room the
/// log is full. Where it stopped for its budget, so many clauses were learnt, and the last query is open.
pub fn what_unfinished_searches_are()
    ensures settled { (p : Task) (order : List Criterion) (s : ℕ) (stop : Cause) (found : Option Drawing)
        (lines : Lines) →
        IsStoppedEnd p order s stop found lines → Settled (greatest_of p) lines order (values_found found) s }
    ensures full { (p : Task) (order : List Criterion) (s : ℕ) (found : Option Drawing) (lines : Lines) →
        IsStoppedEnd p order s RoomFull found lines → IsFullLog p.encoding (greatest_of p) order lines
        (values_found found) p.room }
    ensures spent { (p : Task) (order : List Criterion) (s : ℕ) (found : Option Drawing) (lines : Lines) →
        IsStoppedEnd p order s BudgetSpent found lines → length (flat_map learnt lines) ≡ p.budget }
    ensures still_open { (p : Task) (order : List Criterion) (s : ℕ) (found : Option Drawing) (lines : Lines) →
        IsStoppedEnd p order s BudgetSpent found lines → Open lines }
{}

/// Each criterion that had its turn was reached with a lawful drawing. This has the values of the last one at the
/// places before, and no less at its own. The criterion has the bounds that are built then.
pub fn bounds_are_of_a_lawful_drawing()
    ensures { (p : Task) (order : List Criterion) (s : ℕ) (d : Drawing) (cap : Criterion → ℕ) →
        AreCapped p order s d cap → (i : ℕ) (c : Criterion) → i < s → slice_get order i ≡ Some c →
        WasReached p order i c d cap }
{}
