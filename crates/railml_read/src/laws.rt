// What holds of the definitions alone.
ghost use Rattle.std.specs.Prelude.{◌≡◌, ◌<◌, ℕ, List, Some, slice_get};
ghost use Rattle.railml_read.specs.declared.rows.SignalElem.{SignalElem as ASignal};
ghost use Rattle.railml_read.specs.Rows.{rows_of};
ghost use Rattle.railml_read.specs.Signals.{signals_of, track_count};
ghost use Rattle.railml_text.specs.declared.fault.TextWhat.{TextWhat};
ghost use Rattle.railml_read.specs.Tree.{XmlTree};
ghost use Rattle.railml_read.specs.Document.{SpellsTree, IsTextFault};

/// A document spells one tree at most.
pub fn one_tree()
    ensures { (bytes : List ℕ) (a b : XmlTree) → SpellsTree bytes a → SpellsTree bytes b → a ≡ b }
{}

/// A text has one fault at most.
pub fn one_fault()
    ensures { (bytes : List ℕ) (a b : TextWhat) (at place : ℕ) →
        IsTextFault bytes a at → IsTextFault bytes b place → (a ≡ b) × (at ≡ place) }
{}

/// Each signal of a tree is on one of the tracks among the tree's rows.
pub fn signals_stand_on_tracks()
    ensures { (tree : XmlTree) (i : ℕ) (x : ASignal) → slice_get (signals_of tree) i ≡ Some x →
        x.track < track_count (rows_of tree) }
{}
