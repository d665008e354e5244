// Laws of integers. The functions do nothing: their contracts are the laws.
ghost use Rattle.std.specs.Prelude.{◌≡◌, ◌≤◌, ◌<◌, ◌+◌, ℕ};
ghost use Rattle.cnf_core.specs.Assignment.{Assignment, SatisfiesAll};
ghost use Rattle.order_int.specs.IntVars.{IntVars, size};
ghost use Rattle.order_int.specs.OrderInt.{int_clauses, Reads, number};

/// An assignment satisfies an integer's clauses exactly where it gives the integer a number.
pub fn clauses_give_a_number()
    ensures number { (v : Assignment) (i : IntVars) → i.low ≤ i.high → SatisfiesAll v (int_clauses i) →
        Reads v i (number v i) }
    ensures clauses { (v : Assignment) (i : IntVars) (n : ℕ) → Reads v i n → SatisfiesAll v (int_clauses i) }
{}

/// It gives it one number.
pub fn one_number()
    ensures { (v : Assignment) (i : IntVars) (m n : ℕ) → Reads v i m → Reads v i n → m ≡ n }
{}

/// Each number is one setting of the integer's variables.
pub fn one_setting()
    ensures { (v w : Assignment) (i : IntVars) (n : ℕ) → Reads v i n → Reads w i n →
        (x : ℕ) → i.first ≤ x → x < i.first + size i → v x ≡ w x }
{}

/// Of an assignment only the integer's variables count.
pub fn other_variables_are_free()
    ensures { (v w : Assignment) (i : IntVars) (n : ℕ) → ((x : ℕ) → i.first ≤ x → x < i.first + size i → w x ≡ v x) →
        Reads v i n → Reads w i n }
{}
