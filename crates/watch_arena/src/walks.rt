// The walk of a row, and of the rows of all literals that became false.
ghost use Rattle.std.specs.Prelude.{◌≡◌, ◌≤◌, ◌<◌, ◌+◌, ◌*◌, length, IfSome, None, false};
ghost use Rattle.cnf_core.specs.Lit.{negate, literal_at, has};
ghost use Rattle.cnf_core.specs.Propagation.{IsIn};
ghost use Rattle.watch_arena.specs.Trail.{IsMarks};
ghost use Rattle.watch_arena.specs.Rows.{row_of, pairs_of};
ghost use Rattle.watch_arena.specs.Walk.{HasWalked, IsClash, Closes, Clashes, done_of, past_of};
ghost use Rattle.watch_arena.specs.Filed.{IsWalking, IsWatched};

use crate::clause_ref::ClauseRef;
use crate::rows::Rows;
use crate::trail::Trail;
use crate::visits::{visit, visit_pair};

/// Looks at the clauses of two literals in a row, until both literals of one are false.
fn walk_pairs(
    rows: &Rows,
    words: &[u32],
    places: &[u32],
    trail: &mut Trail,
    w: u32,
) -> Option<ClauseRef>
    requires walking { IsWalking trail.old words.now places.now rows.now (done_of trail.old) w 0
        (length (row_of rows.now w)) }
    requires false_now { IsIn (has trail.old.lits) (negate (literal_at w)) }
    requires fresh { past_of trail.old (negate (literal_at w)) ≡ false }
    requires front { trail.old.front < length trail.old.lits }
    ensures marks { IsMarks trail.new }
    ensures front { trail.new.front ≡ trail.old.front }
    ensures made { HasWalked trail.old trail.new words.now words.now places.now }
    ensures walking { result ≡ None → IsWalking trail.new words.now places.now rows.now (done_of trail.new) w
        (pairs_of rows.now w) (length (row_of rows.now w)) }
    ensures watched { IfSome result (λ _. IsWatched trail.new words.now places.now rows.now (past_of trail.new)) }
    ensures clash { IfSome result (λ c. IsClash words.now places.now (has trail.new.lits) c.0) }
{
    // what the types keep
    let _trail = trail.len();
    for i in 0..rows.pairs_of(w) {
        let entry = rows.entry(w, i);
        let clause = entry.clause;
        if visit_pair(entry, words, places, trail, w) {
            return Some(clause);
        }
    }
    None
}

/// Looks at the longer clauses in a row, from its end, until all literals of one are false.
fn walk_longs(
    words: &mut [u32],
    rows: &mut Rows,
    places: &[u32],
    trail: &mut Trail,
    w: u32,
) -> Option<ClauseRef>
    requires walking { IsWalking trail.old words.old places.now rows.old (done_of trail.old) w (pairs_of rows.old w)
        (length (row_of rows.old w)) }
    requires false_now { IsIn (has trail.old.lits) (negate (literal_at w)) }
    requires fresh { past_of trail.old (negate (literal_at w)) ≡ false }
    requires front { trail.old.front < length trail.old.lits }
    ensures marks { IsMarks trail.new }
    ensures front { trail.new.front ≡ trail.old.front }
    ensures made { HasWalked trail.old trail.new words.old words.new places.now }
    ensures walking { result ≡ None → IsWalking trail.new words.new places.now rows.new (done_of trail.new) w
        (pairs_of rows.old w) (pairs_of rows.old w) }
    ensures watched { IfSome result (λ _. IsWatched trail.new words.new places.now rows.new (past_of trail.new)) }
    ensures clash { IfSome result (λ c. IsClash words.new places.now (has trail.new.lits) c.0) }
{
    // what the types keep
    let _trail = trail.len();
    let from = rows.pairs_of(w);
    let mut i = rows.len_of(w);
    while i > from {
        i -= 1;
        if let Some(clash) = visit(words, rows, places, trail, w, i) {
            return Some(clash);
        }
    }
    None
}

/// Walks the row of the next literal that became false. The answer is a clause all of whose literals are
/// false. The clauses of two literals are counted, and the longer ones where no clause before them is false.
fn walk(
    words: &mut [u32],
    rows: &mut Rows,
    places: &[u32],
    trail: &mut Trail,
    visits: &mut u64,
) -> Option<ClauseRef>
    requires watched { IsWatched trail.old words.old places.now rows.old (past_of trail.old) }
    requires front { trail.old.front < length trail.old.lits }
    ensures marks { IsMarks trail.new }
    ensures made { HasWalked trail.old trail.new words.old words.new places.now }
    ensures watched { IsWatched trail.new words.new places.now rows.new (past_of trail.new) }
    ensures front { result ≡ None → trail.new.front ≡ trail.old.front + 1 }
    ensures clash { IfSome result (λ c. IsClash words.new places.now (has trail.new.lits) c.0) }
    ensures visits { visits.old ≤ visits.new }
{
    let l = trail.lit(trail.propagated());
    let w = l.negated().word();
    let pairs = rows.pairs_of(w);
    *visits = visits.saturating_add(u64::from(pairs));
    if let Some(clash) = walk_pairs(rows, words, places, trail, w) {
        return Some(clash);
    }
    *visits = visits.saturating_add(u64::from(rows.len_of(w).saturating_sub(pairs)));
    if let Some(clash) = walk_longs(words, rows, places, trail, w) {
        return Some(clash);
    }
    trail.advance();
    None
}

/// Walks the rows of all literals that became false. None: the trail's literals are the closure of
/// what they were. Else all literals of the clause are false.
pub fn propagate(
    words: &mut [u32],
    rows: &mut Rows,
    places: &[u32],
    trail: &mut Trail,
    visits: &mut u64,
) -> Option<ClauseRef>
    requires { IsWatched trail.old words.old places.now rows.old (past_of trail.old) }
    ensures marks { IsMarks trail.new }
    ensures made { HasWalked trail.old trail.new words.old words.new places.now }
    ensures watched { IsWatched trail.new words.new places.now rows.new (past_of trail.new) }
    ensures all { result ≡ None → trail.new.front ≡ length trail.new.lits }
    ensures closes { result ≡ None → Closes places.now words.old trail.old.lits trail.new.lits }
    ensures clash { IfSome result (λ c. IsClash words.new places.now (has trail.new.lits) c.0) }
    ensures clashes { IfSome result (λ _. Clashes places.now words.old trail.old.lits) }
    ensures visits { visits.old ≤ visits.new }
{
    while trail.propagated() < trail.len() {
        if let Some(clash) = walk(words, rows, places, trail, visits) {
            return Some(clash);
        }
    }
    None
}
