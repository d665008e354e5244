// One step of the walk of a row.
ghost use Rattle.std.specs.Prelude.{◌≡◌, ◌≢◌, ◌≤◌, ◌<◌, ◌⊎◌, ◌+◌, ◌*◌, ◌/◌, ◌^◌, length, IfSome, None, true, false};
ghost use Rattle.cnf_core.specs.Lit.{negate, literal_at, has};
ghost use Rattle.cnf_core.specs.Propagation.{IsIn};
ghost use Rattle.watch_arena.specs.Words.{arena_word, lit_of, IsStore, Swapped};
ghost use Rattle.watch_arena.specs.Trail.{IsMarks};
ghost use Rattle.watch_arena.specs.Rows.{row_of, pairs_of};
ghost use Rattle.watch_arena.specs.Walk.{HasLit, IsMove, HasWalked, IsClash, IsTrueNoLater, KeepsClauses};
ghost use Rattle.watch_arena.specs.Walk.{done_of, past_of};
ghost use Rattle.watch_arena.specs.Filed.{place_at, IsEntry, IsPair, IsWalking, IsWatched};

use crate::clause_ref::ClauseRef;
use crate::looks::{Look, look_at};
use crate::rows::{Entry, Rows};
use crate::trail::Trail;
use cnf_core::Lit;

/// Changes the places of two words.
fn swap(words: &mut [u32], i: u32, j: u32)
    requires first { i < length words.old }
    requires second { j < length words.old }
    requires differ { i ≢ j }
    ensures { Swapped words.old words.new i j }
{
    let a = words[i as usize];
    let b = words[j as usize];
    words[i as usize] = b;
    words[j as usize] = a;
}

/// Looks at a clause of two literals, of which the literal of this word is false. The answer is whether the other one
/// is false too.
pub fn visit_pair(entry: Entry, words: &[u32], places: &[u32], trail: &mut Trail, w: u32) -> bool
    requires store { IsStore trail.old.vars words.now places.now }
    requires entry { IsEntry words.now places.now 0 0 w entry }
    requires pair { IsPair words.now w entry }
    requires false_now { IsIn (has trail.old.lits) (negate (literal_at w)) }
    requires fresh { past_of trail.old (negate (literal_at w)) ≡ false }
    ensures marks { IsMarks trail.new }
    ensures front { trail.new.front ≡ trail.old.front }
    ensures made { HasWalked trail.old trail.new words.now words.now places.now }
    ensures held { result ≡ false → IsTrueNoLater trail.new (negate (literal_at w)) entry.other }
    ensures clash { result ≡ true → IsClash words.now places.now (has trail.new.lits) entry.clause.0 }
{
    // what the types keep
    let _trail = trail.len();
    match trail.value(entry.other) {
        Some(true) => false,
        Some(false) => true,
        None => {
            trail.set(entry.other, Some(entry.clause));
            false
        }
    }
}

/// The watch of a clause that has this word: the clause's first or second one.
fn watch_of(words: &[u32], p: u32, w: u32) -> u32
    requires within { p + 4 < length words.now }
    requires limit { length words.now < 2 ^ 30 }
    requires one { (arena_word words.now (p + 3) ≡ w) ⊎ (arena_word words.now (p + 4) ≡ w) }
    ensures place { result / 2 ≡ p }
    ensures lit { arena_word words.now (lit_of result) ≡ w }
{
    if words[(p + 4) as usize] == w {
        return 2 * p + 1;
    }
    2 * p
}

/// Watches the literal at place `k` of a clause in place of the watch `s`, whose entry the row of `w` has at place `i`.
fn move_watch(
    words: &mut [u32],
    rows: &mut Rows,
    places: &[u32],
    trail: &Trail,
    w: u32,
    i: u32,
    s: u32,
    k: u32,
    other: Lit,
)
    requires walking { IsWalking trail.now words.old places.now rows.old (done_of trail.now) w (pairs_of rows.old w)
        (i + 1) }
    requires long { pairs_of rows.old w ≤ i }
    requires place { place_at (row_of rows.old w) i ≡ s / 2 }
    requires lit { arena_word words.old (lit_of s) ≡ w }
    requires open_ { IsMove words.old (has trail.now.lits) (s / 2) k }
    requires other { HasLit words.old (s / 2) other }
    ensures walking { IsWalking trail.now words.new places.now rows.new (done_of trail.now) w (pairs_of rows.old w) i }
    ensures pairs { rows.new.pairs ≡ rows.old.pairs }
    ensures text { KeepsClauses places.now words.old words.new }
{
    swap(words, s / 2 + 3 + s % 2, s / 2 + 3 + k);
    let v = words[(s / 2 + 3 + s % 2) as usize];
    let entry = Entry {
        other,
        clause: ClauseRef(s / 2),
    };
    rows.take_out(w, i);
    rows.push(v, entry);
}

/// Looks at the clause of which the row of `w` has an entry at place `i`. The answer is the clause where all its
/// literals are false.
fn visit_clause(
    words: &mut [u32],
    rows: &mut Rows,
    places: &[u32],
    trail: &mut Trail,
    w: u32,
    i: u32,
    clause: ClauseRef,
) -> Option<ClauseRef>
    requires walking { IsWalking trail.old words.old places.now rows.old (done_of trail.old) w (pairs_of rows.old w)
        (i + 1) }
    requires long { pairs_of rows.old w ≤ i }
    requires clause { place_at (row_of rows.old w) i ≡ clause.0 }
    requires false_now { IsIn (has trail.old.lits) (negate (literal_at w)) }
    requires fresh { past_of trail.old (negate (literal_at w)) ≡ false }
    requires front { trail.old.front < length trail.old.lits }
    ensures marks { IsMarks trail.new }
    ensures front { trail.new.front ≡ trail.old.front }
    ensures made { HasWalked trail.old trail.new words.old words.new places.now }
    ensures pairs { rows.new.pairs ≡ rows.old.pairs }
    ensures walking { result ≡ None
        → IsWalking trail.new words.new places.now rows.new (done_of trail.new) w (pairs_of rows.old w) i }
    ensures watched { IfSome result (λ _. IsWatched trail.new words.new places.now rows.new (past_of trail.new)) }
    ensures clash { IfSome result (λ c. IsClash words.new places.now (has trail.new.lits) c.0) }
{
    // what the types keep
    let _trail = trail.len();
    let s = watch_of(words, clause.0, w);
    match look_at(words, places, trail, s) {
        Look::True(l) => {
            rows.set_other(w, i, l);
            None
        }
        Look::Move(k, l) => {
            move_watch(words, rows, places, trail, w, i, s, k, l);
            None
        }
        Look::Unit(l) => {
            trail.set(l, Some(clause));
            rows.set_other(w, i, l);
            None
        }
        Look::Falsified => Some(clause),
    }
}

/// Looks at the entry at place `i` of the row of a literal that became false, and at its clause where the entry's other
/// literal isn't true. The answer is the clause where all its literals are false.
pub fn visit(
    words: &mut [u32],
    rows: &mut Rows,
    places: &[u32],
    trail: &mut Trail,
    w: u32,
    i: u32,
) -> Option<ClauseRef>
    requires walking { IsWalking trail.old words.old places.now rows.old (done_of trail.old) w (pairs_of rows.old w)
        (i + 1) }
    requires long { pairs_of rows.old w ≤ i }
    requires false_now { IsIn (has trail.old.lits) (negate (literal_at w)) }
    requires fresh { past_of trail.old (negate (literal_at w)) ≡ false }
    requires front { trail.old.front < length trail.old.lits }
    ensures marks { IsMarks trail.new }
    ensures front { trail.new.front ≡ trail.old.front }
    ensures made { HasWalked trail.old trail.new words.old words.new places.now }
    ensures pairs { rows.new.pairs ≡ rows.old.pairs }
    ensures walking { result ≡ None
        → IsWalking trail.new words.new places.now rows.new (done_of trail.new) w (pairs_of rows.old w) i }
    ensures watched { IfSome result (λ _. IsWatched trail.new words.new places.now rows.new (past_of trail.new)) }
    ensures clash { IfSome result (λ c. IsClash words.new places.now (has trail.new.lits) c.0) }
{
    // what the types keep
    let _trail = trail.len();
    let entry = rows.entry(w, i);
    let clause = entry.clause;
    if trail.is_false(entry.other.negated()) {
        return None;
    }
    visit_clause(words, rows, places, trail, w, i, clause)
}
