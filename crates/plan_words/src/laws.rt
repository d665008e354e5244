// What holds of the definitions alone.
ghost use Rattle.std.specs.Prelude.{◌≡◌, ℕ, List};
ghost use Rattle.plan_words.specs.declared.command.Command.{Command as Asked};
ghost use Rattle.plan_words.specs.declared.fault.WordWhat.{WordWhat as What};
ghost use Rattle.plan_words.specs.WordFaults.{IsFaultOfWords};
ghost use Rattle.plan_words.specs.Words.{IsCommandOf};

/// Words ask for at most one command.
pub fn one_command()
    ensures { (words : List (List ℕ)) (a b : Asked) → IsCommandOf words a → IsCommandOf words b → a ≡ b }
{}

/// At most one fault of words counts, and it has one position.
pub fn one_fault()
    ensures { (words : List (List ℕ)) (a b : What) (p q : ℕ) → IsFaultOfWords words a p → IsFaultOfWords words b q →
        (a ≡ b) × (p ≡ q) }
{}

/// Words that ask for a command have no fault that counts.
pub fn no_command_with_a_fault()
    ensures { (words : List (List ℕ)) (command : Asked) (what : What) (position : ℕ) → IsCommandOf words command →
        IsFaultOfWords words what position → ⊥ }
{}
