// Attaching clauses.
ghost use Rattle.std.specs.Prelude.{◌≡◌, ◌≤◌, ◌<◌, ◌+◌, ◌*◌, ◌^◌, ◌∷◌, ◌++◌, [], length, OnOk, OnErr, IfOk, IsErrOf};
ghost use Rattle.std.specs.Prelude.{false, true, take, ◌↔◌, All};
ghost use Rattle.cnf_core.specs.Lit.{word_of};
ghost use Rattle.cnf_core.specs.Clause.{AreDistinct, AreThere};
ghost use Rattle.watch_arena.specs.Words.{arena_word, block_of, HasWords, KeepsFront};
ghost use Rattle.watch_arena.specs.Rows.{IsRoomier, room_of};
ghost use Rattle.watch_arena.specs.Filed.{AreFiled, IsEntering};
ghost use Rattle.watch_arena.specs.declared.fault.ArenaFault.TheVariants.{Room};
ghost use Rattle.watch_arena.specs.Walk.{lits_at};

use crate::clause_ref::ClauseRef;
use crate::fault::ArenaFault;
use crate::rows::{Entry, Rows};
use crate::trail::Trail;
use cnf_core::Lit;
use plan_core::OutOfMemory;

/// Puts the words of a clause behind the others, or a part of them where memory fails.
fn append_all(words: &mut Vec<u32>, lits: &[Lit]) -> Result<(), OutOfMemory>
    requires { length lits.now < 2 ^ 30 }
    ensures all { OnOk result (words.new.items ≡ words.old.items ++ block_of lits.now) }
    ensures front { take (length words.old.items) words.new.items ≡ words.old.items }
{
    words.push(lits.len() as u32)?;
    words.push(0)?;
    words.push(0)?;
    for l in lits {
        words.push(l.word())?;
    }
    Ok(())
}

/// Puts the words of a clause behind the others, or leaves them where memory fails.
fn append(words: &mut Vec<u32>, lits: &[Lit]) -> Result<(), OutOfMemory>
    requires { length lits.now < 2 ^ 30 }
    ensures all { OnOk result (words.new.items ≡ words.old.items ++ block_of lits.now) }
    ensures none { OnErr result (words.new.items ≡ words.old.items) }
{
    let before = words.len();
    match append_all(words, lits) {
        Ok(()) => Ok(()),
        Err(e) => {
            words.truncate(before);
            Err(e)
        }
    }
}

/// Gives the rows of all literals of a clause place for it, or those of some of them where memory fails.
fn make_room_for(rows: &mut Rows, lits: &[Lit]) -> Result<(), OutOfMemory>
    requires { All (λ l. word_of l < length rows.old.lists) lits.now }
    ensures kept { IsRoomier rows.old rows.new }
    ensures more { OnOk result (All (λ l. room_of rows.old (word_of l) < room_of rows.new (word_of l)) lits.now) }
{
    for l in lits {
        rows.make_room(*l)?;
    }
    Ok(())
}

/// Says of each literal of a clause that one more clause with it is to come.
pub fn expect_all(rows: &mut Rows, lits: &[Lit])
    requires { All (λ l. word_of l < length rows.old.lists) lits.now }
    ensures { rows.new ≡ rows.old }
{
    for l in lits {
        rows.expect(*l);
    }
}

/// Puts a clause behind the others and its place behind the places, or nothing of it.
fn append_placed(
    words: &mut Vec<u32>,
    places: &mut Vec<u32>,
    lits: &[Lit],
) -> Result<(), OutOfMemory>
    requires room { length words.old.items + length lits.now + 3 < 2 ^ 30 }
    ensures words { OnOk result (words.new.items ≡ words.old.items ++ block_of lits.now) }
    ensures places { OnOk result (places.new.items ≡ places.old.items ++ length words.old.items ∷ []) }
    ensures no_words { OnErr result (words.new.items ≡ words.old.items) }
    ensures no_places { OnErr result (places.new.items ≡ places.old.items) }
{
    let before = words.len();
    append(words, lits)?;
    match places.push(before as u32) {
        Ok(()) => Ok(()),
        Err(_) => {
            words.truncate(before);
            Err(OutOfMemory)
        }
    }
}

/// Puts a clause of two literals into the rows of both.
fn enter_pair(
    rows: &mut Rows,
    words: &[u32],
    places: &[u32],
    trail: &Trail,
    clause: ClauseRef,
    a: Lit,
    b: Lit,
)
    requires entering { IsEntering trail.now.vars words.now places.now rows.old clause.0 (2 * clause.0) }
    requires words { HasWords words.now clause.0 a b }
    requires two { arena_word words.now clause.0 ≡ 2 }
    ensures { AreFiled trail.now.vars words.now places.now rows.new }
{
    rows.push_pair(a.word(), Entry { other: b, clause });
    rows.push_pair(b.word(), Entry { other: a, clause });
}

/// Puts a clause into the rows of its first two literals, behind those that are there.
fn enter_long(
    rows: &mut Rows,
    words: &[u32],
    places: &[u32],
    trail: &Trail,
    clause: ClauseRef,
    a: Lit,
    b: Lit,
)
    requires entering { IsEntering trail.now.vars words.now places.now rows.old clause.0 (2 * clause.0) }
    requires words { HasWords words.now clause.0 a b }
    ensures { AreFiled trail.now.vars words.now places.now rows.new }
{
    rows.push(a.word(), Entry { other: b, clause });
    rows.push(b.word(), Entry { other: a, clause });
}

/// Puts a clause into the rows of its first two literals.
fn enter(
    rows: &mut Rows,
    words: &[u32],
    places: &[u32],
    trail: &Trail,
    clause: ClauseRef,
    a: Lit,
    b: Lit,
    is_pair: bool,
)
    requires entering { IsEntering trail.now.vars words.now places.now rows.old clause.0 (2 * clause.0) }
    requires words { HasWords words.now clause.0 a b }
    requires pair { is_pair ≡ true → arena_word words.now clause.0 ≡ 2 }
    ensures { AreFiled trail.now.vars words.now places.now rows.new }
{
    if is_pair {
        enter_pair(rows, words, places, trail, clause, a, b);
        return;
    }
    enter_long(rows, words, places, trail, clause, a, b);
}

/// Whether a further clause of so many literals is within the room.
fn has_room(before: usize, n: usize, room: u32) -> bool
    requires some { 1 ≤ before }
    requires before { before < 2 ^ 30 }
    requires room { room < 2 ^ 28 + 1 }
    ensures { result ≡ false ↔ room + 1 < before + n + 3 }
{
    n <= room as usize && before + n + 2 <= room as usize
}

/// Appends a clause, with its first two literals as watches; or nothing of it.
fn append_clause(
    words: &mut Vec<u32>,
    rows: &mut Rows,
    places: &mut Vec<u32>,
    trail: &Trail,
    lits: &[Lit],
) -> Result<(), OutOfMemory>
    requires filed { AreFiled trail.now.vars words.old.items places.old.items rows.old }
    requires room { length words.old.items + length lits.now + 3 < 2 ^ 30 }
    requires two { 2 ≤ length lits.now }
    requires there { AreThere trail.now.vars lits.now }
    requires distinct { AreDistinct lits.now }
    ensures filed { AreFiled trail.now.vars words.new.items places.new.items rows.new }
    ensures clause { OnOk result (lits_at words.new.items (length words.old.items) ≡ lits.now) }
    ensures others { OnOk result (KeepsFront words.old.items words.new.items) }
    ensures size { OnOk result (length words.new.items ≡ length words.old.items + length lits.now + 3) }
    ensures places { OnOk result (places.new.items ≡ places.old.items ++ length words.old.items ∷ []) }
    ensures words { OnErr result (words.new.items ≡ words.old.items) }
    ensures placed { OnErr result (places.new.items ≡ places.old.items) }
{
    let clause = ClauseRef(words.len() as u32);
    make_room_for(rows, lits)?;
    append_placed(words, places, lits)?;
    let is_pair = lits.len() == 2;
    enter(
        rows, words, places, trail, clause, lits[0], lits[1], is_pair,
    );
    Ok(())
}

/// Attaches a clause, with its first two literals as watches. The answer is its reference.
pub fn attach(
    words: &mut Vec<u32>,
    rows: &mut Rows,
    places: &mut Vec<u32>,
    trail: &Trail,
    lits: &[Lit],
    room: u32,
) -> Result<ClauseRef, ArenaFault>
    requires filed { AreFiled trail.now.vars words.old.items places.old.items rows.old }
    requires room { room < 2 ^ 28 + 1 }
    requires two { 2 ≤ length lits.now }
    requires there { AreThere trail.now.vars lits.now }
    requires distinct { AreDistinct lits.now }
    ensures filed { AreFiled trail.now.vars words.new.items places.new.items rows.new }
    ensures clause { IfOk result (λ c. lits_at words.new.items c.0 ≡ lits.now) }
    ensures others { OnOk result (KeepsFront words.old.items words.new.items) }
    ensures size { OnOk result (length words.new.items ≡ length words.old.items + length lits.now + 3) }
    ensures places { IfOk result (λ c. places.new.items ≡ places.old.items ++ c.0 ∷ []) }
    ensures room { IsErrOf result Room ↔ room + 1 < length words.old.items + length lits.now + 3 }
    ensures words { OnErr result (words.new.items ≡ words.old.items) }
    ensures placed { OnErr result (places.new.items ≡ places.old.items) }
{
    let before = words.len();
    if !has_room(before, lits.len(), room) {
        return Err(ArenaFault::Room);
    }
    append_clause(words, rows, places, trail, lits)?;
    Ok(ClauseRef(before as u32))
}
