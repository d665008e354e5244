// Slots of variables.
ghost use Rattle.std.specs.Prelude.{◌≡◌, ◌≤◌, ◌<◌, ◌+◌, ◌++◌, ◌∷◌, [], Some, length, IfOk, OnOk, OnErr};
ghost use Rattle.std.specs.Ordering.{nat_cmp};
ghost use Rattle.std.specs.BTreeMap.{Updates, IsUnchanged};
ghost use Rattle.outside_io.specs.Contents.{Begins};
ghost use Rattle.hint_log.specs.Slots.{IsInOneSlot, IsSlotOf, AreOwnSlots, AreBySlot};

use cnf_core::{LAST_VAR, Lit, Var};
use plan_core::OutOfMemory;
use std::alloc::Global;
use std::collections::BTreeMap;
use std::marker::Model;

/// The variables that were read, each with a slot. A variable of the formula has its own number. Each other one has the
/// slot that was the next when it first came: so it is searched for when it is read, and at no look at a clause, and a
/// table by slot has no room for variables that didn't come.
#[derive(Drop)]
pub(crate) struct Slots {
    alloc: Global,
    vars: u32,
    order: Vec<u32>,
    beyond: BTreeMap<u32, u32>,
}

impl Model for Slots {
    ghost use Rattle.std.specs.Prelude.{List, ℕ};
    ghost use Rattle.hint_log.specs.Slots.{AreSlots};

    ghost Value = { List ℕ };

    ghost view = { λ s. s.order.items };

    ghost invariant = { λ s. AreSlots s.vars s.order.items s.beyond };
}

/// Puts a variable into the next slot.
fn take_slot(
    order: &mut Vec<u32>,
    beyond: &mut BTreeMap<u32, u32>,
    v: u32,
) -> Result<u32, OutOfMemory>
    requires { length order.old.items < LAST_VAR }
    ensures slot { IfOk result (λ n. n ≡ length order.old.items + 1) }
    ensures order { OnOk result (order.new.items ≡ order.old.items ++ v ∷ []) }
    ensures beyond { OnOk result (Updates nat_cmp beyond.old beyond.new v (Some (length order.old.items + 1))) }
    ensures order_stays { OnErr result (order.new.items ≡ order.old.items) }
    ensures beyond_stays { OnErr result (IsUnchanged beyond.old beyond.new) }
{
    order.reserve(1)?;
    let slot = order.len() as u32 + 1;
    beyond.insert(v, slot)?;
    order.push(v).unwrap();
    Ok(slot)
}

impl Slots {
    /// The slots of the variables up to this one.
    pub(crate) fn new(alloc: Global, vars: u32) -> Result<Slots, OutOfMemory>
        requires { vars ≤ LAST_VAR }
        ensures { IfOk result (AreOwnSlots vars) }
    {
        let mut order = Vec::with_capacity(alloc, vars as usize)?;
        for v in 0..vars {
            order.push(v + 1)?;
        }
        Ok(Slots {
            alloc,
            vars,
            order,
            beyond: BTreeMap::new(alloc),
        })
    }

    /// The slot of a variable, which gets one where it has none. There are no more slots than variables; where there
    /// were, that would be want of memory.
    fn slot_of(&mut self, v: u32) -> Result<u32, OutOfMemory>
        requires { 1 ≤ v }
        ensures begins { Begins self.old self.new }
        ensures slot { IfOk result (IsSlotOf self.new v) }
        ensures small { IfOk result (λ n. n ≤ LAST_VAR) }
        ensures one { OnOk result (IsInOneSlot self.new) }
    {
        if v <= self.vars {
            return Ok(v);
        }
        if let Some(slot) = self.beyond.get(&v).copied() {
            return Ok(slot);
        }
        if self.order.len() >= LAST_VAR as usize {
            return Err(OutOfMemory);
        }
        let slot = take_slot(&mut self.order, &mut self.beyond, v)?;
        Ok(slot)
    }

    /// The literals by slot.
    pub(crate) fn by_slot(&mut self, lits: &[Lit]) -> Result<Vec<Lit>, OutOfMemory>
        ensures begins { Begins self.old self.new }
        ensures one { OnOk result (IsInOneSlot self.new) }
        ensures lits { IfOk result (λ by_slot. AreBySlot self.new lits.now by_slot.items) }
    {
        let mut by_slot = Vec::with_capacity(self.alloc, lits.len())?;
        for l in lits {
            let slot = self.slot_of(l.var().0)?;
            by_slot.push(Lit::new(Var(slot), l.positive()))?;
        }
        Ok(by_slot)
    }
}
