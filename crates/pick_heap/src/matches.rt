// The tree of matches: each node has the winner of its two children, and each variable a leaf.
ghost use Rattle.std.specs.Prelude.{◌≡◌, ◌≤◌, ◌<◌, ◌+◌, ◌*◌, ◌/◌, ◌-◌, ◌^◌, ℕ, length, slice_index, false};
ghost use Rattle.pick_heap.specs.Tree.{entry_at, IsWinner, HaveActivities, IsWon, IsWonBut, HasLeaves, KeepsLeaves};
ghost use Rattle.pick_heap.specs.Tree.{KeepsOthers, leaf_word};

/// The more active of two variables, and of equal ones the first; 0 is none.
pub fn better(activities: &[u16], a: u32, b: u32) -> u32
    requires first { a < length activities.now }
    requires second { b < length activities.now }
    ensures { IsWinner activities.now a b result }
{
    if b == 0 {
        return a;
    }
    if a == 0 || activities[a as usize] < activities[b as usize] {
        b
    } else {
        a
    }
}

/// Plays the matches above a node again, as far as their winners change.
pub fn replay(tree: &mut [u32], activities: &[u16], leaves: u32, from: u32)
    requires from { 1 ≤ from }
    requires to { from < 2 * leaves }
    requires limit { leaves < 2 ^ 30 }
    requires size { 2 * leaves ≤ length tree.old }
    requires named { HaveActivities activities.now tree.old }
    requires won { IsWonBut activities.now tree.old leaves (from / 2) }
    ensures named { HaveActivities activities.now tree.new }
    ensures won { IsWon activities.now tree.new leaves }
    ensures kept { KeepsLeaves leaves tree.old tree.new }
{
    let mut k = from;
    while k > 1 {
        k /= 2;
        let winner = better(activities, tree[2 * k as usize], tree[2 * k as usize + 1]);
        if winner == tree[k as usize] {
            return;
        }
        tree[k as usize] = winner;
    }
}

/// What a variable's leaf has: the variable, or 0 where it isn't held.
pub fn leaf_word(held: &[bool], v: u32) -> u32
    requires { v < length held.now }
    ensures { result ≡ leaf_word held.now v }
{
    if held[v as usize] { v } else { 0 }
}

/// Sets the word at a variable's leaf: the variable, or 0 where it isn't held.
pub fn set_leaf(tree: &mut [u32], activities: &[u16], leaves: u32, v: u32, word: u32)
    requires from { 1 ≤ v }
    requires to { v ≤ leaves }
    requires word { word < length activities.now }
    requires limit { leaves < 2 ^ 30 }
    requires size { 2 * leaves ≤ length tree.old }
    requires named { HaveActivities activities.now tree.old }
    requires won { IsWon activities.now tree.old leaves }
    ensures named { HaveActivities activities.now tree.new }
    ensures won { IsWon activities.now tree.new leaves }
    ensures leaf { entry_at tree.new (leaves + v - 1) ≡ word }
    ensures others { KeepsOthers leaves tree.old tree.new (leaves + v - 1) }
{
    tree[(leaves + v - 1) as usize] = word;
    replay(tree, activities, leaves, leaves + v - 1);
}

/// Plays all matches.
pub fn play_all(tree: &mut [u32], activities: &[u16], leaves: u32)
    requires limit { leaves < 2 ^ 30 }
    requires size { 2 * leaves ≤ length tree.old }
    requires named { HaveActivities activities.now tree.old }
    ensures named { HaveActivities activities.now tree.new }
    ensures won { IsWon activities.now tree.new leaves }
    ensures kept { KeepsLeaves leaves tree.old tree.new }
{
    let mut k = leaves;
    while k > 1 {
        k -= 1;
        tree[k as usize] = better(activities, tree[2 * k as usize], tree[2 * k as usize + 1]);
    }
}

/// Lays the tree out anew: the leaves of the variables that are held, and all matches.
pub fn lay_out(tree: &mut [u32], activities: &[u16], held: &[bool], leaves: u32)
    requires limit { leaves < 2 ^ 30 }
    requires size { 2 * leaves ≤ length tree.old }
    requires tables { length held.now ≡ length activities.now }
    requires some { 1 ≤ length held.now }
    requires fits { length held.now ≤ leaves + 1 }
    ensures named { HaveActivities activities.now tree.new }
    ensures won { IsWon activities.now tree.new leaves }
    ensures leaves { HasLeaves leaves held.now tree.new }
{
    for k in 0..tree.len() {
        tree[k] = 0;
    }
    for v in 1..held.len() as u32 {
        tree[(leaves + v - 1) as usize] = leaf_word(held, v);
    }
    play_all(tree, activities, leaves);
}
