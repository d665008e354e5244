// Finding hints by propagation.
ghost use Rattle.std.specs.Prelude.{◌≡◌, ◌≤◌, ◌+◌, ◌++◌, ◌∷◌, [], ℕ, List, length, IfOk, IfSome, OnOk};
ghost use Rattle.std.specs.Prelude.{nat_eq, cond, None};
ghost use Rattle.cnf_core.specs.Lit.{Literal, has};
ghost use Rattle.cnf_core.specs.Clause.{Clauses, IsThere, AreThere, AreDistinct};
ghost use Rattle.cnf_core.specs.Propagation.{Rup};
ghost use Rattle.watch_arena.specs.Trail.{Marks, IsUnset};
ghost use Rattle.watch_arena.specs.Arena.{AreWatched, AreAttached, IsClashOf, IsMoreText, MayBeWatched, attached_at};
ghost use Rattle.hint_log.specs.Hint.{numbered, NamesClause};
ghost use Rattle.log_trim.specs.Found.{IsFinder, IsPadded, IsNumberedClause, IsSupposing, IsUnfalsifiedEnd};
ghost use Rattle.log_trim.specs.Found.{NoneNeeded, IsLeanHint, ShowsOrNone, ShowsNewOrNone, number_of_place};

use crate::assumptions::{assume, assume_first, follow, leave, make_way};
use crate::needs::{clear, name_all};
use cnf_core::{Lit, ROOM, VARS, Var};
use hint_log::Numbers;
use plan_core::{Items, OutOfMemory};
use std::alloc::Global;
use watch_arena::{Arena, ClauseRef, Trail};

/// An arena that propagates over the clauses that were taken, and which number the clause at a place of the
/// arena has. Between two calls the trail has what follows without assumptions, or nothing.
#[derive(Drop)]
pub(crate) struct Finder {
    pub(crate) vars: u32,
    arena: Arena,
    trail: Trail,
    numbers: Vec<u32>,
    needed: Vec<bool>,
}

/// The literals of a clause, and negations of the two variables that are assumed where it has fewer than
/// two.
fn padded(alloc: Global, lits: &[Lit], vars: u32) -> Result<Vec<Lit>, OutOfMemory>
    requires there { AreThere vars lits.now }
    requires distinct { AreDistinct lits.now }
    requires limit { vars + 2 ≤ VARS }
    ensures padded { IfOk result (λ d. IsPadded vars lits.now d.items) }
    ensures there { IfOk result (λ d. AreThere (vars + 2) d.items) }
    ensures distinct { IfOk result (λ d. AreDistinct d.items) }
    ensures two { IfOk result (λ d. 2 ≤ length d.items) }
{
    let mut all = Vec::from_slice(alloc, lits)?;
    if lits.len() < 2 {
        all.push(Lit::new(Var(vars + 1), false))?;
    }
    if lits.is_empty() {
        all.push(Lit::new(Var(vars + 2), false))?;
    }
    Ok(all)
}

/// The clause at a place has a number.
fn number(numbers: &mut Vec<u32>, place: u32, n: u32) -> Result<(), OutOfMemory>
    ensures { OnOk result ((p : ℕ) →
        number_of_place numbers.new.items p ≡ cond (nat_eq p place) n (number_of_place numbers.old.items p)) }
{
    let i = place as usize;
    if numbers.len() <= i {
        numbers.resize(i + 1, 0)?;
    }
    numbers[i] = n;
    Ok(())
}

/// Attaches a clause; want of room is want of memory.
fn attach(arena: &mut Arena, trail: &Trail, lits: &[Lit]) -> Result<ClauseRef, OutOfMemory>
    requires vars { trail.now.vars ≡ arena.old.vars }
    requires two { 2 ≤ length lits.now }
    requires there { AreThere arena.old.vars lits.now }
    requires distinct { AreDistinct lits.now }
    ensures places { IfOk result (λ c. arena.new.places ≡ arena.old.places ++ c.0 ∷ []) }
    ensures clause { IfOk result (λ c. attached_at arena.new c.0 ≡ lits.now) }
    ensures others { IsMoreText arena.old arena.new }
    ensures watched { OnOk result ((m : Marks) → AreWatched arena.old m → MayBeWatched m lits.now →
        AreWatched arena.new m) }
    ensures attached { AreAttached arena.new }
{
    match arena.attach(lits, trail) {
        Ok(c) => Ok(c),
        Err(_) => Err(OutOfMemory),
    }
}

/// A table in which nothing is needed.
fn table_of(alloc: Global, size: usize) -> Result<Vec<bool>, OutOfMemory>
    ensures size { IfOk result (λ t. length t.items ≡ size) }
    ensures none { IfOk result (λ t. NoneNeeded t.items) }
{
    Ok(vec![in alloc; false; size]?)
}

impl Finder {
    /// The finder over the variables up to `vars`, without clauses.
    pub(crate) fn new(alloc: Global, vars: u32) -> Result<Finder, OutOfMemory>
        requires { vars + 2 ≤ VARS }
        ensures finder { IfOk result (λ f. (all : Clauses) → IsFinder all [] f) }
        ensures vars { IfOk result (λ f. f.vars ≡ vars) }
    {
        let arena = Arena::new(alloc, vars + 2, ROOM)?;
        let trail = Trail::with_vars(alloc, vars + 2)?;
        let needed = table_of(alloc, vars as usize + 1)?;
        Ok(Finder {
            vars,
            arena,
            trail,
            numbers: Vec::new(alloc),
            needed,
        })
    }

    /// Takes the clause of these literals, which has this number.
    pub(crate) fn add(&mut self, alloc: Global, lits: &[Lit], n: u32) -> Result<(), OutOfMemory>
        requires finder { (all taken : Clauses) × IsFinder all taken self.old }
        requires there { AreThere self.old.vars lits.now }
        requires distinct { AreDistinct lits.now }
        ensures vars { self.new.vars ≡ self.old.vars }
        ensures finder { OnOk result ((all taken : Clauses) → IsFinder all taken self.old → NamesClause all n →
            numbered all n ≡ lits.now → IsFinder all (taken ++ lits.now ∷ []) self.new) }
    {
        if lits.len() < 2 {
            let all = padded(alloc, lits, self.vars)?;
            self.put(&all, n)?;
            Ok(())
        } else {
            self.put(lits, n)?;
            Ok(())
        }
    }

    /// Takes a clause of two literals or more, in which negations of the further variables may be.
    fn put(&mut self, lits: &[Lit], n: u32) -> Result<(), OutOfMemory>
        requires finder { (all taken : Clauses) × IsFinder all taken self.old }
        requires there { AreThere (self.old.vars + 2) lits.now }
        requires distinct { AreDistinct lits.now }
        requires two { 2 ≤ length lits.now }
        ensures vars { self.new.vars ≡ self.old.vars }
        ensures finder { OnOk result ((all taken : Clauses) (c : List Literal) → IsFinder all taken self.old →
            IsNumberedClause self.old.vars all n c lits.now → IsFinder all (taken ++ c ∷ []) self.new) }
    {
        make_way(&mut self.trail, lits);
        let c = attach(&mut self.arena, &self.trail, lits)?;
        number(&mut self.numbers, c.0, n)?;
        Ok(())
    }

    /// Assumes that the literals of a clause are false, and propagates. None: nothing is falsified.
    fn suppose(&mut self, lits: &[Lit]) -> Option<ClauseRef>
        requires finder { (all taken : Clauses) × IsFinder all taken self.old }
        requires there { AreThere self.old.vars lits.now }
        requires distinct { AreDistinct lits.now }
        ensures vars { self.new.vars ≡ self.old.vars }
        ensures supposing { (all taken : Clauses) → IsFinder all taken self.old →
            IsSupposing all taken lits.now self.new }
        ensures ends { result ≡ None → (all taken : Clauses) → IsFinder all taken self.old →
            IsUnfalsifiedEnd taken lits.now (has self.new.trail.lits) }
        ensures clash { IfSome result (λ c. IsClashOf self.new.arena self.new.trail c.0) }
    {
        follow(&mut self.arena, &mut self.trail, self.vars);
        assume(&mut self.trail, lits, self.vars);
        self.arena.propagate(&mut self.trail)
    }

    /// Assumes besides that a literal is false, which is unset, and propagates. None: nothing is falsified.
    fn suppose_first(&mut self, first: Lit) -> Option<ClauseRef>
        requires supposing { (all taken : Clauses) × (others : List Literal) × IsSupposing all taken others self.old }
        requires there { IsThere self.old.vars first }
        requires unset { IsUnset self.old.trail.lits first }
        ensures vars { self.new.vars ≡ self.old.vars }
        ensures supposing { (all taken : Clauses) (others : List Literal) → IsSupposing all taken others self.old →
            IsSupposing all taken (first ∷ others) self.new }
        ensures ends { result ≡ None → (all taken : Clauses) (others : List Literal) →
            IsSupposing all taken others self.old → IsUnfalsifiedEnd taken (first ∷ others) (has self.new.trail.lits) }
        ensures clash { IfSome result (λ c. IsClashOf self.new.arena self.new.trail c.0) }
    {
        assume_first(&mut self.trail, first);
        self.arena.propagate(&mut self.trail)
    }

    /// Takes back what was assumed.
    fn take_back(&mut self)
        requires { (all taken : Clauses) × (lits : List Literal) × IsSupposing all taken lits self.old }
        ensures vars { self.new.vars ≡ self.old.vars }
        ensures finder { (all taken : Clauses) (lits : List Literal) → IsSupposing all taken lits self.old →
            IsFinder all taken self.new }
    {
        leave(&mut self.trail);
    }

    /// The hints that lead to a clause all of whose literals are false; what was assumed is taken back.
    fn hints_to(&mut self, alloc: Global, clash: ClauseRef) -> Result<Numbers, OutOfMemory>
        requires supposing { (all taken : Clauses) × (lits : List Literal) × IsSupposing all taken lits self.old }
        requires clash { IsClashOf self.old.arena self.old.trail clash.0 }
        ensures vars { self.new.vars ≡ self.old.vars }
        ensures finder { OnOk result ((all taken : Clauses) (lits : List Literal) →
            IsSupposing all taken lits self.old → IsFinder all taken self.new) }
        ensures good { IfOk result (λ hints. (all taken : Clauses) (lits : List Literal) →
            IsSupposing all taken lits self.old → IsLeanHint all lits hints) }
        ensures follows { (all taken : Clauses) (lits : List Literal) → IsSupposing all taken lits self.old →
            Rup taken lits }
    {
        let mut hints = Vec::new(alloc);
        name_all(
            &self.arena,
            &self.trail,
            &self.numbers,
            &mut self.needed,
            &mut hints,
            clash,
        )?;
        clear(&mut self.needed, &self.trail);
        leave(&mut self.trail);
        hints.reverse();
        Ok(Items::from_vec(hints))
    }

    /// The hints that show the clause of these literals; none where it doesn't follow.
    pub(crate) fn find(
        &mut self,
        alloc: Global,
        lits: &[Lit],
    ) -> Result<Option<Numbers>, OutOfMemory>
        requires finder { (all taken : Clauses) × IsFinder all taken self.old }
        requires there { AreThere self.old.vars lits.now }
        requires distinct { AreDistinct lits.now }
        ensures vars { self.new.vars ≡ self.old.vars }
        ensures finder { OnOk result ((all taken : Clauses) → IsFinder all taken self.old →
            IsFinder all taken self.new) }
        ensures found { IfOk result (λ r. (all taken : Clauses) → IsFinder all taken self.old →
            ShowsOrNone all taken lits.now r) }
    {
        match self.suppose(lits) {
            None => {
                self.take_back();
                Ok(None)
            }
            Some(clash) => {
                let hints = self.hints_to(alloc, clash)?;
                Ok(Some(hints))
            }
        }
    }

    /// The hints that show the clause of this literal and of those that are assumed to be false, where nothing is
    /// falsified yet. None where it doesn't follow, or where the first literal does already.
    fn find_first(&mut self, alloc: Global, first: Lit) -> Result<Option<Numbers>, OutOfMemory>
        requires supposing { (all taken : Clauses) × (others : List Literal) × IsSupposing all taken others self.old }
        requires there { IsThere self.old.vars first }
        ensures vars { self.new.vars ≡ self.old.vars }
        ensures finder { OnOk result ((all taken : Clauses) (others : List Literal) →
            IsSupposing all taken others self.old → IsFinder all taken self.new) }
        ensures found { IfOk result (λ r. (all taken : Clauses) (others : List Literal) →
            IsSupposing all taken others self.old → IsUnfalsifiedEnd taken others (has self.old.trail.lits) →
            ShowsNewOrNone all taken (first ∷ others) r) }
    {
        match self.trail.value(first) {
            Some(_) => {
                self.take_back();
                Ok(None)
            }
            None => match self.suppose_first(first) {
                None => {
                    self.take_back();
                    Ok(None)
                }
                Some(clash) => {
                    let hints = self.hints_to(alloc, clash)?;
                    Ok(Some(hints))
                }
            },
        }
    }

    /// The hints that show the clause of these literals, which says something new; none where it doesn't follow, or
    /// where it is known: with the others false its first literal follows already, or a clause is false.
    pub(crate) fn find_new(
        &mut self,
        alloc: Global,
        lits: &[Lit],
    ) -> Result<Option<Numbers>, OutOfMemory>
        requires finder { (all taken : Clauses) × IsFinder all taken self.old }
        requires some { 1 ≤ length lits.now }
        requires there { AreThere self.old.vars lits.now }
        requires distinct { AreDistinct lits.now }
        ensures vars { self.new.vars ≡ self.old.vars }
        ensures finder { OnOk result ((all taken : Clauses) → IsFinder all taken self.old →
            IsFinder all taken self.new) }
        ensures found { IfOk result (λ r. (all taken : Clauses) → IsFinder all taken self.old →
            ShowsNewOrNone all taken lits.now r) }
    {
        let first = lits[0];
        match self.suppose(&lits[1..]) {
            Some(_) => {
                self.take_back();
                Ok(None)
            }
            None => {
                let found = self.find_first(alloc, first)?;
                Ok(found)
            }
        }
    }
}
