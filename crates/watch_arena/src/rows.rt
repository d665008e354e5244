// Rows: of each literal the clauses that it is a watch of.
ghost use Rattle.std.specs.Prelude.{◌≡◌, ◌≤◌, ◌<◌, ◌+◌, ◌^◌, OnOk, OnErr, length, take};
ghost use Rattle.cnf_core.specs.Lit.{word_of};
ghost use Rattle.watch_arena.specs.Rows.{AreRows, rowed_of, space_at, entries_of, entry_at, no_rows, more_rows};
ghost use Rattle.watch_arena.specs.Rows.{with_room, with_row, pushed, paired, without, with_other};
ghost use Rattle.watch_arena.specs.Rows.{row_of, pairs_of, room_of};

use crate::clause_ref::ClauseRef;
use cnf_core::{Lit, lengthen};
use plan_core::OutOfMemory;
use std::alloc::Global;
use std::marker::Model;

/// A clause, in the row of one of its watches.
#[derive(Clone, Copy)]
pub struct Entry {
    /// Another literal of the clause. Where it is true, the clause needs no look.
    pub other: Lit,
    pub clause: ClauseRef,
}

/// Where the entries of a literal stand among those of all: first those of clauses of two literals, then the others.
#[derive(Clone, Copy)]
pub struct Row {
    from: u32,
    pairs: u32,
    len: u32,
}

/// For how many clauses the row of a literal was asked to have place, for how many entries it has place, and how many
/// clauses with the literal were ever expected.
#[derive(Clone, Copy)]
pub struct Space {
    clauses: u32,
    size: u32,
    expected: u32,
}

/// The rows of all literals, by their words. All their entries lie in one vector, so that the table of rows is small
/// and stays near while rows are walked. `spaces` aren't read then.
#[derive(Drop)]
pub struct Rows {
    rows: Vec<Row>,
    spaces: Vec<Space>,
    entries: Vec<Entry>,
}

impl Model for Rows {
    ghost use Rattle.watch_arena.specs.Rows.{Rowed, rowed_of, AreRows};

    ghost Value = { Rowed };

    ghost view = { λ r. rowed_of r.rows.items r.spaces.items r.entries.items };

    ghost invariant = { λ r. AreRows r.rows.items r.spaces.items r.entries.items };
}

/// Puts copies of the entries of a row from a place on.
fn copy_to(entries: &mut [Entry], row: Row, from: u32)
    requires behind { row.from + row.len ≤ from }
    requires within { from + row.len ≤ length entries.old }
    requires limit { length entries.old < 2 ^ 32 }
    ensures copied { entries_of entries.new (record row { from = from }) ≡ entries_of entries.old row }
    ensures front { take from entries.new ≡ take from entries.old }
{
    for i in 0..row.len {
        entries[(from + i) as usize] = entries[(row.from + i) as usize];
    }
}

/// A full row goes behind all others. It gets twice its place, at least 2, or place for as many clauses as were ever
/// expected, where that is more. After an error nothing that is seen has changed.
fn widen(
    rows: &mut [Row],
    spaces: &mut [Space],
    entries: &mut Vec<Entry>,
    w: usize,
    filler: Entry,
) -> Result<(), OutOfMemory>
    requires rows { AreRows rows.old spaces.old entries.old.items }
    requires below { w < length rows.old }
    ensures rows { AreRows rows.new spaces.new entries.new.items }
    ensures same { rowed_of rows.new spaces.new entries.new.items ≡ rowed_of rows.old spaces.old entries.old.items }
    ensures place { OnOk result ((space_at spaces.new w).clauses < (space_at spaces.new w).size) }
{
    let twice = 2 * (spaces[w].size as usize).max(1);
    let size = twice.max(spaces[w].expected as usize);
    let before = entries.len();
    if before + size > u32::MAX as usize {
        return Err(OutOfMemory);
    }
    lengthen(entries, size, filler)?;
    copy_to(entries, rows[w], before as u32);
    rows[w].from = before as u32;
    spaces[w].size = size as u32;
    Ok(())
}

/// Sees to it that the row of a word has place for one entry more than there are clauses, or nothing is changed that is
/// seen.
fn ensure_place(
    rows: &mut [Row],
    spaces: &mut [Space],
    entries: &mut Vec<Entry>,
    w: usize,
    filler: Entry,
) -> Result<(), OutOfMemory>
    requires rows { AreRows rows.old spaces.old entries.old.items }
    requires below { w < length rows.old }
    ensures rows { AreRows rows.new spaces.new entries.new.items }
    ensures same { rowed_of rows.new spaces.new entries.new.items ≡ rowed_of rows.old spaces.old entries.old.items }
    ensures place { OnOk result ((space_at spaces.new w).clauses < (space_at spaces.new w).size) }
{
    if spaces[w].clauses < spaces[w].size {
        return Ok(());
    }
    widen(rows, spaces, entries, w, filler)
}

impl Rows {
    /// Rows of no literal.
    pub fn new(alloc: Global) -> Rows
        ensures { result ≡ no_rows }
    {
        Rows {
            rows: Vec::new(alloc),
            spaces: Vec::new(alloc),
            entries: Vec::new(alloc),
        }
    }

    /// Rows of further literals, which no clause has; or none of them where memory fails.
    pub fn add(&mut self, n: usize) -> Result<(), OutOfMemory>
        ensures more { OnOk result (self.new ≡ more_rows self.old n) }
        ensures none { OnErr result (self.new ≡ self.old) }
    {
        let before = self.rows.len();
        let row = Row {
            from: 0,
            pairs: 0,
            len: 0,
        };
        let space = Space {
            clauses: 0,
            size: 0,
            expected: 0,
        };
        lengthen(&mut self.rows, n, row)?;
        match lengthen(&mut self.spaces, n, space) {
            Ok(()) => Ok(()),
            Err(e) => {
                self.rows.truncate(before);
                Err(e)
            }
        }
    }

    /// One more clause with a literal is to come. When the literal's row is next widened, it gets place for as many as
    /// were ever expected.
    pub fn expect(&mut self, l: Lit)
        requires { word_of l < length self.old.lists }
        ensures { self.new ≡ self.old }
    {
        let space = self.spaces[l.word() as usize];
        self.spaces[l.word() as usize].expected = space.expected.saturating_add(1);
    }

    /// One more clause has a literal: its row gets place for it.
    pub fn make_room(&mut self, l: Lit) -> Result<(), OutOfMemory>
        requires { word_of l < length self.old.lists }
        ensures more { OnOk result (self.new ≡ with_room self.old (word_of l)) }
        ensures room { OnOk result (room_of self.new (word_of l) ≡ room_of self.old (word_of l) + 1) }
        ensures none { OnErr result (self.new ≡ self.old) }
    {
        let w = l.word() as usize;
        let filler = Entry {
            other: l,
            clause: ClauseRef(0),
        };
        ensure_place(
            &mut self.rows,
            &mut self.spaces,
            &mut self.entries,
            w,
            filler,
        )?;
        self.spaces[w].clauses += 1;
        Ok(())
    }

    /// How many entries the row of a word has.
    pub fn len_of(&self, w: u32) -> u32
        requires { w < length self.now.lists }
        ensures { result ≡ length (row_of self.now w) }
    {
        self.rows[w as usize].len
    }

    /// How many of them are of clauses of two literals.
    pub fn pairs_of(&self, w: u32) -> u32
        requires { w < length self.now.lists }
        ensures value { result ≡ pairs_of self.now w }
        ensures within { result ≤ length (row_of self.now w) }
    {
        self.rows[w as usize].pairs
    }

    /// The entry at place `i` of the row of a word.
    pub fn entry(&self, w: u32, i: u32) -> Entry
        requires row { w < length self.now.lists }
        requires below { i < length (row_of self.now w) }
        ensures { result ≡ entry_at (row_of self.now w) i }
    {
        self.entries[(self.rows[w as usize].from + i) as usize]
    }

    /// Puts an entry into the row of a word, which has place for it.
    pub fn push(&mut self, w: u32, entry: Entry)
        requires row { w < length self.old.lists }
        requires place { length (row_of self.old w) < room_of self.old w }
        ensures { self.new ≡ pushed self.old w entry }
    {
        let row = self.rows[w as usize];
        self.entries[(row.from + row.len) as usize] = entry;
        self.rows[w as usize].len = row.len + 1;
    }

    /// Puts the entry of a clause of two literals into the row of a word, which has place for it: in front of those of
    /// longer ones, the first of which goes to the end.
    pub fn push_pair(&mut self, w: u32, entry: Entry)
        requires row { w < length self.old.lists }
        requires place { length (row_of self.old w) < room_of self.old w }
        ensures { self.new ≡ paired self.old w entry }
    {
        let row = self.rows[w as usize];
        self.entries[(row.from + row.len) as usize] = self.entries[(row.from + row.pairs) as usize];
        self.entries[(row.from + row.pairs) as usize] = entry;
        self.rows[w as usize] = Row {
            from: row.from,
            pairs: row.pairs + 1,
            len: row.len + 1,
        };
    }

    /// Takes the entry of a longer clause at place `i` out of the row of a word; the row's last one comes in its place.
    pub fn take_out(&mut self, w: u32, i: u32)
        requires row { w < length self.old.lists }
        requires below { i < length (row_of self.old w) }
        requires long { pairs_of self.old w ≤ i }
        ensures { self.new ≡ with_row self.old w (without (row_of self.old w) i) }
    {
        let row = self.rows[w as usize];
        self.entries[(row.from + i) as usize] = self.entries[(row.from + row.len - 1) as usize];
        self.rows[w as usize].len = row.len - 1;
    }

    /// Writes another literal of the clause into the entry at place `i` of the row of a word.
    pub fn set_other(&mut self, w: u32, i: u32, other: Lit)
        requires row { w < length self.old.lists }
        requires below { i < length (row_of self.old w) }
        ensures { self.new ≡ with_row self.old w (with_other (row_of self.old w) i other) }
    {
        let row = self.rows[w as usize];
        self.entries[(row.from + i) as usize].other = other;
    }
}
