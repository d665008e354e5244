// The truth values of a sum's variables, from those of its inputs.
ghost use Rattle.std.specs.Prelude.{◌≡◌, ℕ, ◌+◌, ◌<◌, ◌≤◌, length, nat_lt};
ghost use Rattle.cnf_core.specs.declared.limits.TheConstants.{VARS};
ghost use Rattle.cnf_core.specs.Clause.{AreThere};
ghost use Rattle.cnf_core.specs.Assignment.{SatisfiesAll, SameOutside};
ghost use Rattle.cnf_core.specs.Truths.{assignment};
ghost use Rattle.unary_sum.specs.Sum.{count_true, tree_of, tree_size, tree_count, tree_clauses};

use cnf_core::{Lit, Truths, Var};

/// How many outputs a tree has, and the last of its variables, or of those before it.
#[derive(Clone, Copy)]
pub(crate) struct Placed {
    size: u32,
    end: u32,
}

/// Sets the variables of the tree over these inputs, which follow the variable of number vars.
pub(crate) fn put_tree(m: &mut Truths, depth: u32, vars: u32, inputs: &[Lit], cap: u32) -> Placed
    requires depth { length inputs.now ≤ 1 + depth }
    requires inputs { AreThere vars inputs.now }
    requires few { length inputs.now ≤ 65535 }
    requires cap { cap ≤ 65535 }
    requires inputs_set { AreThere (length m.old) inputs.now }
    requires there { 0 < tree_count cap (tree_of depth inputs.now) → vars + tree_count cap (tree_of depth inputs.now) ≤
        length m.old }
    requires limit { vars + tree_count cap (tree_of depth inputs.now) ≤ VARS }
    ensures size { result.size ≡ tree_size cap (tree_of depth inputs.now) }
    ensures end { result.end ≡ vars + tree_count cap (tree_of depth inputs.now) }
    ensures same { SameOutside (vars + 1) (tree_count cap (tree_of depth inputs.now)) (assignment m.old)
        (assignment m.new) }
    ensures model { SatisfiesAll (assignment m.new) (tree_clauses cap vars (tree_of depth inputs.now)) }
    ensures vars { length m.new ≡ length m.old }
{
    if depth == 0 || inputs.len() <= 1 {
        return Placed {
            size: inputs.len() as u32,
            end: vars,
        };
    }
    let half = inputs.len() / 2;
    let left = put_tree(m, depth - 1, vars, &inputs[..half], cap);
    let right = put_tree(m, depth - 1, left.end, &inputs[half..], cap);
    let size = (left.size + right.size).min(cap);
    let n = count_of(m, inputs);
    put_outputs(m, right.end + 1, size, n);
    Placed {
        size,
        end: right.end + size,
    }
}

/// How many of the inputs are true.
fn count_of(m: &Truths, inputs: &[Lit]) -> u32
    requires inputs { AreThere (length m.now) inputs.now }
    requires few { length inputs.now ≤ 65535 }
    ensures { result ≡ count_true (assignment m.now) inputs.now }
{
    let mut n: u32 = 0;
    for l in inputs {
        if m.holds(*l) {
            n += 1;
        }
    }
    n
}

/// Makes the first n of the count variables from first on true, and the others false.
fn put_outputs(m: &mut Truths, first: u32, count: u32, n: u32)
    requires from { 1 ≤ first }
    requires there { 0 < count → first + count ≤ length m.old + 1 }
    requires limit { first + count ≤ VARS + 1 }
    ensures same { SameOutside first count (assignment m.old) (assignment m.new) }
    ensures set { (k : ℕ) → k < count → assignment m.new (first + k) ≡ nat_lt k n }
    ensures vars { length m.new ≡ length m.old }
{
    for k in 0..count {
        m.set(Lit::new(Var(first + k), k < n));
    }
}
