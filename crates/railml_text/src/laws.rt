//! Laws of the grammar: what begins at a place, and how a file is cut, is one thing alone. The
//! functions do nothing; their contracts are the laws.
ghost use Rattle.std.specs.Prelude.{◌≡◌, ◌⊎◌, ℕ, Bool, List};
ghost use Rattle.railml_text.specs.declared.fault.TextWhat.{TextWhat};
ghost use Rattle.railml_text.specs.declared.item.ItemKind.{ItemKind};
ghost use Rattle.railml_text.specs.Items.{Shape, HasItem};
ghost use Rattle.railml_text.specs.Faults.{HasItemFault, IsLeastFault, HasSoundItem};
ghost use Rattle.railml_text.specs.Cutting.{Placed, IsCutInto, FirstFault};

/// Bytes begin with at most one item.
pub fn one_item()
    ensures { (first : Bool) (rest : List ℕ) (s t : Shape) (a b : List ℕ) → HasItem first rest s a →
        HasItem first rest t b → (s ≡ t) × (a ≡ b) }
{}

/// A sound item at a place has one kind, and one text follows it.
pub fn one_sound_item()
    ensures { (first : Bool) (rest : List ℕ) (k l : ItemKind) (a b : List ℕ) → HasSoundItem first rest k a →
        HasSoundItem first rest l b → (k ≡ l) × (a ≡ b) }
{}

/// At a place there is at most one fault of the lowest number.
pub fn one_fault()
    ensures { (first : Bool) (rest : List ℕ) (what other : TextWhat) → IsLeastFault first rest what →
        IsLeastFault first rest other → what ≡ other }
{}

/// Where an item has a fault, no item without one begins; at Doctype, Markup and Unfinished no item
/// begins at all.
pub fn fault_or_item()
    ensures sound { (first : Bool) (rest : List ℕ) (what : TextWhat) (kind : ItemKind) (after : List ℕ) →
        HasItemFault first rest what → ¬ (HasSoundItem first rest kind after) }
    ensures none { (first : Bool) (rest : List ℕ) (s : Shape) (after : List ℕ) →
        (HasItemFault first rest TextWhat.Doctype ⊎ HasItemFault first rest TextWhat.Markup
        ⊎ HasItemFault first rest TextWhat.Unfinished) → ¬ (HasItem first rest s after) }
{}

/// A file is cut into items in at most one way.
pub fn one_cut()
    ensures { (bytes : List ℕ) (items others : List Placed) → IsCutInto bytes items → IsCutInto bytes others → items
        ≡ others }
{}

/// A file has at most one first fault, and then it isn't cut to its last byte.
pub fn one_first_fault()
    ensures one { (bytes : List ℕ) (what other : TextWhat) (at next : ℕ) → FirstFault bytes what at →
        FirstFault bytes other next → (what ≡ other) × (at ≡ next) }
    ensures no_cut { (bytes : List ℕ) (what : TextWhat) (at : ℕ) (items : List Placed) → FirstFault bytes what at →
        ¬ (IsCutInto bytes items) }
{}
