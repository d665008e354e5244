// What clauses left that a line named.
ghost use Rattle.std.specs.Prelude.{◌≡◌, ◌<◌, ◌^◌, [], ◌∷◌, ◌++◌, Contains, length, IfSome, OnOk};
ghost use Rattle.cnf_core.specs.Lit.{Literal};
ghost use Rattle.hint_log.specs.Looks.{note_of};

use cnf_core::Lit;
use plan_core::OutOfMemory;
use std::alloc::Global;
use std::marker::Model;

/// The clause of this number left this literal alone.
#[derive(Clone, Copy)]
pub(crate) struct Note {
    pub(crate) number: u32,
    pub(crate) left: Lit,
}

/// Notes of the clauses that a line has named so far, so that one that it names again isn't gone through again. A
/// table has each clause's place among the notes. What it has for a clause without a note doesn't matter, since that
/// place has no note or another clause's: so the notes of a line go at once, however large the table is.
#[derive(Drop)]
pub(crate) struct Notes {
    notes: Vec<Note>,
    places: Vec<u32>,
}

impl Model for Notes {
    ghost use Rattle.std.specs.Prelude.{List};
    ghost use Rattle.hint_log.specs.declared.notes.Note.{Note};

    ghost Value = { List Note };

    ghost view = { λ n. n.notes.items };
}

impl Notes {
    /// No note.
    pub(crate) fn new(alloc: Global) -> Notes
        ensures { result ≡ [] }
    {
        Notes {
            notes: Vec::new(alloc),
            places: Vec::new(alloc),
        }
    }

    /// The literal that the clause of a number left, if there is a note of it.
    pub(crate) fn left_by(&self, number: u32) -> Option<Lit>
        ensures { IfSome result (λ l. Contains self.now (note_of number l)) }
    {
        let place = *self.places.get(number as usize)?;
        let note = self.notes.get(place as usize)?;
        if note.number == number {
            Some(note.left)
        } else {
            None
        }
    }

    /// Notes that the clause of a number left a literal alone.
    pub(crate) fn note(&mut self, number: u32, left: Lit) -> Result<(), OutOfMemory>
        requires { length self.old < 2 ^ 32 }
        ensures { OnOk result (self.new ≡ self.old ++ note_of number left ∷ []) }
    {
        let i = number as usize;
        if self.places.len() <= i {
            self.places.resize(i + 1, 0)?;
        }
        self.places[i] = self.notes.len() as u32;
        self.notes.push(Note { number, left })?;
        Ok(())
    }

    /// Takes all notes back.
    pub(crate) fn clear(&mut self)
        ensures { self.new ≡ [] }
    {
        self.notes.clear();
    }
}
