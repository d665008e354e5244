// Laws of hinted lines and their texts. The functions do nothing: their contracts are the laws.
ghost use Rattle.std.specs.Prelude.{◌≡◌, ◌++◌, ℕ, List, codes};
ghost use Rattle.plan_core.specs.declared.criterion.Criterion.{Criterion};
ghost use Rattle.plan_core.specs.declared.criterion.Values.{Values};
ghost use Rattle.outside_io.specs.Fields.{LacksByte};
ghost use Rattle.hint_log.specs.declared.hint_line.HintLine.{HintLine as Line};
ghost use Rattle.hint_log.specs.declared.text_fault.HintsWhat.{HintsWhat as What};
ghost use Rattle.hint_log.specs.HintText.{MayBeWritten, hint_text, ended_hint, caps_text};
ghost use Rattle.hint_log.specs.HintForm.{HintForm, IsOfHintForm};
ghost use Rattle.hint_log.specs.HintFaults.{SpellsHint, IsHintOf, HasHintTextFault};
ghost use Rattle.hint_log.specs.Caps.{AreSmallCaps, IsCapsText, HasCapsFault, AreCapsOf};

/// A text has one form at most.
pub fn one_hint_form()
    ensures { (text : List ℕ) (a b : HintForm) → IsOfHintForm text a → IsOfHintForm text b → a ≡ b }
{}

/// A text is that of one line at most.
pub fn one_hinted_line()
    ensures { (text : List ℕ) (a b : Line) → SpellsHint text a → SpellsHint text b → a ≡ b }
{}

/// A text has one fault at most, and none where it is that of a line in which no variable comes twice.
pub fn one_hint_or_one_fault()
    ensures fault { (text : List ℕ) (a b : What) → HasHintTextFault text a → HasHintTextFault text b → a ≡ b }
    ensures line { (text : List ℕ) (line : Line) (what : What) → IsHintOf text line → HasHintTextFault text what → ⊥ }
{}

/// The text of a line that may be written is the text of this line, and has no line feed but the one that ends it.
pub fn written_hints_are_read_again()
    ensures read { (line : Line) → MayBeWritten line → IsHintOf (hint_text line) line }
    ensures one_line { (line : Line) → MayBeWritten line → LacksByte 10 (hint_text line) }
{}

/// A text is the line of one list of caps at most, has one fault at most, and none where it is that of caps in range.
pub fn one_line_of_caps()
    ensures caps { (text : List ℕ) (a b : Values) → IsCapsText text a → IsCapsText text b → a ≡ b }
    ensures fault { (greatest : Criterion → ℕ) (order : List Criterion) (text : List ℕ) (a b : What) →
        HasCapsFault greatest order text a → HasCapsFault greatest order text b → a ≡ b }
    ensures line { (greatest : Criterion → ℕ) (order : List Criterion) (text : List ℕ) (caps : Values) (what : What) →
        AreCapsOf greatest order text caps → HasCapsFault greatest order text what → ⊥ }
    ensures one_line { (caps : Values) → AreSmallCaps caps → LacksByte 10 (caps_text caps) }
{}
