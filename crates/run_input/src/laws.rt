// Laws of files and of what is answered to them. The functions do nothing: their contracts are the laws.
ghost use Rattle.std.specs.Prelude.{◌≡◌, ℕ, List};
ghost use Rattle.plan_core.specs.Graph.{Graph};
ghost use Rattle.railml_read.specs.declared.rows.SignalElem.{SignalElem};
ghost use Rattle.track_order.specs.Order.{EdgeOrder};
ghost use Rattle.plan_objects.specs.declared.places.SignalPlace.{SignalPlace};
ghost use Rattle.run_input.specs.declared.fault.RunFault.{RunFault as Fault};
ghost use Rattle.run_input.specs.declared.status.Status.{Status};
ghost use Rattle.run_input.specs.Status.{number_of};
ghost use Rattle.run_input.specs.Input.{HasGraph, HasStation, HasFileFault};
ghost use Rattle.run_input.specs.Signals.{HasSignalStation, HasFault};

/// A file that has a station has none of the faults.
pub fn station_or_fault()
    ensures { (bytes : List ℕ) (g : Graph) (o : EdgeOrder) (fault : Fault) → HasStation bytes g o →
        HasFileFault bytes fault
        → ⊥ }
{}

/// A file that has a station whose signals have places has no fault, and neither have its signals.
pub fn signals_or_fault()
    ensures { (bytes : List ℕ) (g : Graph) (o : EdgeOrder) (signals : List SignalElem) (places : List SignalPlace)
        (fault : Fault) → HasSignalStation bytes g o signals places → HasFault bytes fault → ⊥ }
{}

/// A file has one track graph at most.
pub fn one_graph()
    ensures { (bytes : List ℕ) (g h : Graph) → HasGraph bytes g → HasGraph bytes h → g ≡ h }
{}

/// A file has one fault at most.
pub fn one_fault()
    ensures { (bytes : List ℕ) (a b : Fault) → HasFileFault bytes a → HasFileFault bytes b → a ≡ b }
{}

/// A number is that of one status at most.
pub fn one_status_to_a_number()
    ensures { (a b : Status) → number_of a ≡ number_of b → a ≡ b }
{}
