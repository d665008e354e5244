// The clauses that have a literal.
ghost use Rattle.std.specs.Prelude.{◌≡◌, [], ◌∷◌, ◌++◌, OnOk};
ghost use Rattle.refute_check.specs.Entries.{entries, no_entries};

use cnf_core::Lit;
use plan_core::OutOfMemory;
use std::alloc::Global;
use std::marker::Model;

/// The literals of a clause of two or three beside one of it. Of a clause of two both are the same.
#[derive(Clone, Copy)]
pub(crate) struct Rest {
    pub(crate) first: Lit,
    pub(crate) last: Lit,
}

/// The clauses that have one literal, in the order in which they came: those of two and of three
/// literals whole, of the others, which are counted, the numbers.
#[derive(Drop)]
pub(crate) struct Places {
    shorts: Vec<Rest>,
    counted: Vec<u32>,
}

impl Model for Places {
    ghost use Rattle.refute_check.specs.Entries.{Entries, entries};

    ghost Value = { Entries };

    ghost view = { λ p. entries p.shorts.items p.counted.items };
}

impl Places {
    /// No clause has the literal.
    pub(crate) fn new(alloc: Global) -> Places
        ensures { result ≡ no_entries }
    {
        Places {
            shorts: Vec::new(alloc),
            counted: Vec::new(alloc),
        }
    }

    /// One more clause of two or three literals has it.
    pub(crate) fn push_short(&mut self, rest: Rest) -> Result<(), OutOfMemory>
        ensures { OnOk result (self.new ≡ entries (self.old.shorts ++ rest ∷ []) self.old.counted) }
    {
        self.shorts.push(rest)?;
        Ok(())
    }

    /// One more of the counted clauses has it, that of this number.
    pub(crate) fn push_counted(&mut self, number: u32) -> Result<(), OutOfMemory>
        ensures { OnOk result (self.new ≡ entries self.old.shorts (self.old.counted ++ number ∷ [])) }
    {
        self.counted.push(number)?;
        Ok(())
    }

    /// All clauses of two and of three literals.
    pub(crate) fn shorts(&self) -> &[Rest]
        ensures { result.now ≡ self.now.shorts }
    {
        &self.shorts
    }

    /// The numbers of all counted ones.
    pub(crate) fn counted(&self) -> &[u32]
        ensures { result.now ≡ self.now.counted }
    {
        &self.counted
    }
}
